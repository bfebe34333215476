//! Where the instructions of a code begin, and what they make there.

ghost use Rattle.std.specs.Prelude.{◌≡◌, ℕ, ◌≤◌, ◌^◌, false, None, slice_index_or, IfOk};
ghost use Rattle.jcode.specs.Decoded.{begins_at};
ghost use Rattle.typing_rules.specs.Environment.{made_at, is_made};

use crate::instructions::made_by_place;
use jcode::Ins;
use kes_text::NoMemory;
use stackmap::VType;
use std::alloc::Global;
use std::marker::Model;

/// How many places a code has at most.
const PLACES: usize = 65536;

/// The instructions of a code; for each place whether one begins there, and the index of the class that the
/// first new there makes objects of. Contracts see the instructions.
#[derive(Drop)]
pub struct Starts<'c> {
    code: &'c [Ins],
    begins: Vec<bool>,
    made: Vec<Option<u16>>,
}

impl<'c> Model for Starts<'c> {
    ghost use Rattle.std.specs.Prelude.{◌≡◌, ℕ, List, false, None, slice_index_or};
    ghost use Rattle.jcode.specs.declared.op.Ins as declared;
    ghost use Rattle.jcode.specs.Decoded.{begins_at};
    ghost use Rattle.typing_rules.specs.Environment.{made_at};

    ghost Value = { List declared.Ins };

    ghost view = { λ s. s.code.now };

    ghost invariant = { λ s. ((k : ℕ) → slice_index_or s.begins.items k false ≡ begins_at s.code.now k) × ((k : ℕ) → slice_index_or s.made.items k None ≡ made_at s.code.now k) };
}

/// For each of so many places whether an instruction begins there.
fn begins_by_place(alloc: Global, places: usize, code: &[Ins]) -> Result<Vec<bool>, NoMemory>
    requires { 2 ^ 16 ≤ places }
    ensures { IfOk result (λ begins. (k : ℕ) → slice_index_or begins.items k false ≡ begins_at code.now k) }
{
    let mut begins = vec![in alloc; false; places]?;
    for ins in code {
        begins[usize::from(ins.pc)] = true;
    }
    Ok(begins)
}

impl<'c> Starts<'c> {
    pub fn new(alloc: Global, code: &'c [Ins]) -> Result<Starts<'c>, NoMemory>
        ensures { IfOk result (λ starts. starts ≡ code.now) }
    {
        let begins = begins_by_place(alloc, PLACES, code)?;
        let made = made_by_place(alloc, PLACES, code)?;
        Ok(Starts { code, begins, made })
    }

    /// Whether an instruction begins at a place.
    pub fn begins_at(&self, pc: u16) -> bool
        ensures { result ≡ begins_at self.now pc }
    {
        match self.begins.get(usize::from(pc)) {
            Some(here) => *here,
            None => false,
        }
    }

    /// The index of the class that the first new at a place makes objects of.
    fn made_at(&self, pc: u16) -> Option<u16>
        ensures { result ≡ made_at self.now pc }
    {
        match self.made.get(usize::from(pc)) {
            Some(index) => *index,
            None => None,
        }
    }

    /// Whether a type is that of what a new makes, if it isn't initialised yet.
    pub fn is_made(&self, held: &VType) -> bool
        ensures { result ≡ is_made self.now held.now }
    {
        match held {
            VType::Uninit(pc) => self.made_at(*pc).is_some(),
            _ => true,
        }
    }

    /// The instructions.
    pub fn code(&self) -> &'c [Ins]
        ensures { result.now ≡ self.now }
    {
        self.code
    }

    /// For each place the index of the class that the first new there makes objects of.
    pub fn into_made(self) -> Vec<Option<u16>>
        ensures { (k : ℕ) → slice_index_or result.items k None ≡ made_at self.entry k }
    {
        let Starts { made, .. } = self;
        made
    }
}
