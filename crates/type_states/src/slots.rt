//! Slots, and what a store makes of them.

ghost use Rattle.std.specs.Prelude.{◌≡◌, ◌<◌, length, IfOk};
ghost use Rattle.stackmap.specs.declared.vtype.VType.{VType};
ghost use Rattle.type_states.specs.TypeStates.{is_wide};
ghost use Rattle.type_states.specs.Slots.{slot_at, put, ended, stored};

use crate::vtype::{copied, is_wide};
use kes_text::NoMemory;
use sqlite_items::Items;
use stackmap::VType;
use std::alloc::Global;

/// Whether a slot holds a type that takes two.
fn is_wide_at(slots: &[VType], at: usize) -> bool
    ensures { result ≡ is_wide (slot_at slots.now at) }
{
    match slots.get(at) {
        Some(held) => is_wide(held),
        None => false,
    }
}

/// What a slot holds.
pub fn copied_at(alloc: Global, slots: &[VType], at: u16) -> Result<VType, NoMemory>
    ensures { IfOk result (λ held. held ≡ slot_at slots.now at) }
{
    match slots.get(usize::from(at)) {
        Some(held) => copied(alloc, held),
        None => Ok(VType::Top),
    }
}

/// The slots, with this one among them.
fn lengthened(slots: Items<VType>, at: usize) -> Result<Items<VType>, NoMemory>
    ensures within { IfOk result (λ longer. at < length longer) }
    ensures same { IfOk result (λ longer. (t : VType) → put longer at t ≡ put slots at t) }
{
    let mut slots = slots;
    while slots.len() <= at {
        slots.push(VType::Top)?;
    }
    Ok(slots)
}

/// The slots with another type in one of them.
pub fn put(slots: Items<VType>, at: usize, held: VType) -> Result<Items<VType>, NoMemory>
    ensures { IfOk result (λ after. after ≡ put slots at held) }
{
    let mut slots = lengthened(slots, at)?;
    slots.set(at, held);
    Ok(slots)
}

/// The slots without the long or double of which this one is the second.
fn ended(slots: Items<VType>, at: usize) -> Result<Items<VType>, NoMemory>
    ensures { IfOk result (λ after. after ≡ ended slots at) }
{
    if at == 0 {
        return Ok(slots);
    }
    let before = at - 1;
    if is_wide_at(slots.as_slice(), before) {
        put(slots, before, VType::Top)
    } else {
        Ok(slots)
    }
}

/// The slots where a value of this type is stored.
#[tactic(auto, unfolding(crate::specs::Slots::stored))]
pub fn stored(slots: Items<VType>, at: u16, held: VType) -> Result<Items<VType>, NoMemory>
    ensures { IfOk result (λ after. after ≡ stored slots at held) }
{
    let at = usize::from(at);
    let slots = ended(slots, at)?;
    if is_wide(&held) {
        let slots = put(slots, at, held)?;
        put(slots, at + 1, VType::Top)
    } else {
        put(slots, at, held)
    }
}
