//! The frames that are declared in a code.

ghost use Rattle.std.specs.Prelude.{◌≡◌, map, IsTrue, IfNone, IfOk};
ghost use Rattle.std.specs.List.{list_all};
ghost use Rattle.typing_rules.specs.Environment.{is_made};
ghost use Rattle.verify.specs.Placing.{is_placed, first_unplaced, declared_at, rise_from};

use kes_text::NoMemory;
use stackmap::{Declared, VType};
use std::alloc::Global;
use std::marker::Model;
use type_states::{TypeState, state_of};
use typing_rules::Starts;

/// Whether each type is that of what a new makes, if it isn't initialised yet.
fn are_made(starts: &Starts<'_>, types: &[VType]) -> bool
    ensures { result ≡ list_all (is_made starts.now) types.now }
{
    types.iter().all(|held| starts.is_made(held))
}

/// Whether a frame stands at an instruction, at this place or behind it, and names a new with each Uninit.
fn is_placed(starts: &Starts<'_>, least: u32, declared: &Declared) -> bool
    ensures { result ≡ is_placed starts.now least declared.now }
{
    least <= u32::from(declared.pc)
        && starts.begins_at(declared.pc)
        && are_made(starts, declared.frame.locals.as_slice())
        && are_made(starts, declared.frame.stack.as_slice())
}

/// Where the first frame stands that doesn't, or doesn't stand behind the one before.
pub fn first_unplaced(starts: &Starts<'_>, maps: &[Declared]) -> Option<u64>
    ensures place { result ≡ first_unplaced starts.now 0 maps.now }
    ensures rise { IfNone result (IsTrue (rise_from 0 maps.now)) }
{
    let mut least = 0;
    for declared in maps {
        if !is_placed(starts, least, declared) {
            return Some(declared.at);
        }
        least = u32::from(declared.pc) + 1;
    }
    None
}

fn places_of(alloc: Global, maps: &[Declared]) -> Result<Vec<u16>, NoMemory>
    ensures { IfOk result (λ places. places.items ≡ map (λ declared. declared.pc) maps.now) }
{
    maps.iter().map(|declared| declared.pc).collect(alloc)
}

/// Frames whose places rise. Contracts see their list.
#[derive(Drop)]
pub struct DeclaredFrames<'m> {
    maps: &'m [Declared],
    places: Vec<u16>,
}

impl<'m> Model for DeclaredFrames<'m> {
    ghost use Rattle.std.specs.Prelude.{◌≡◌, List, map, IsTrue};
    ghost use Rattle.stackmap.specs.declared.frame.Declared as frame;
    ghost use Rattle.verify.specs.Placing.{rise_from};

    ghost Value = { List frame.Declared };

    ghost view = { λ f. f.maps.now };

    ghost invariant = { λ f. (f.places.items ≡ map (λ declared. declared.pc) f.maps.now) × IsTrue (rise_from 0 f.maps.now) };
}

impl<'m> DeclaredFrames<'m> {
    pub fn new(alloc: Global, maps: &'m [Declared]) -> Result<DeclaredFrames<'m>, NoMemory>
        requires { IsTrue (rise_from 0 maps.now) }
        ensures { IfOk result (λ frames. frames ≡ maps.now) }
    {
        let places = places_of(alloc, maps)?;
        Ok(DeclaredFrames { maps, places })
    }

    /// The frame that is declared at a place, slot by slot.
    pub fn declared_at(&self, alloc: Global, pc: u16) -> Result<Option<TypeState>, NoMemory>
        ensures { IfOk result (λ declared. declared ≡ declared_at self.now pc) }
    {
        match self.places.as_slice().binary_search(&pc) {
            Ok(at) => Ok(Some(state_of(alloc, &self.maps[at].frame)?)),
            Err(_) => Ok(None),
        }
    }
}
