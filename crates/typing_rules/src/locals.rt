//! Loads, stores and iinc.

ghost use Rattle.std.specs.Prelude.{◌≡◌, IfOk};
ghost use Rattle.typing_rules.specs.Rules.Locals.{is_reference, number_loaded, reference_loaded, with_stored, number_stored, reference_stored, increased, reference_taken, two_references_taken};

use crate::transition::{popped, pushed, taken};
use jworld::World;
use kes_text::NoMemory;
use stackmap::VType;
use std::alloc::Global;
use type_states::{TypeState, copied_at, is_assignable, stored};

/// Whether a type is that of a reference, also to an object that isn't initialised yet.
pub fn is_reference(given: &VType) -> bool
    ensures { result ≡ is_reference given.now }
{
    match given {
        VType::Null | VType::UninitThis | VType::Object(_) | VType::Uninit(_) => true,
        _ => false,
    }
}

pub fn number_loaded(
    alloc: Global,
    world: &World<'_>,
    number: VType,
    slot: u16,
    state: TypeState,
) -> Result<Option<TypeState>, NoMemory>
    ensures { IfOk result (λ after. after ≡ number_loaded world.now number slot state) }
{
    let held = copied_at(alloc, state.slots.as_slice(), slot)?;
    if is_assignable(world, &held, &number) {
        Ok(Some(pushed(number, state)?))
    } else {
        Ok(None)
    }
}

pub fn reference_loaded(
    alloc: Global,
    slot: u16,
    state: TypeState,
) -> Result<Option<TypeState>, NoMemory>
    ensures { IfOk result (λ after. after ≡ reference_loaded slot state) }
{
    let held = copied_at(alloc, state.slots.as_slice(), slot)?;
    if is_reference(&held) {
        Ok(Some(pushed(held, state)?))
    } else {
        Ok(None)
    }
}

fn with_stored(slot: u16, held: VType, state: TypeState) -> Result<TypeState, NoMemory>
    ensures { IfOk result (λ after. after ≡ with_stored slot held state) }
{
    let TypeState { slots, operands } = state;
    let slots = stored(slots, slot, held)?;
    Ok(TypeState { slots, operands })
}

pub fn number_stored(
    world: &World<'_>,
    number: VType,
    slot: u16,
    state: TypeState,
) -> Result<Option<TypeState>, NoMemory>
    ensures { IfOk result (λ after. after ≡ number_stored world.now number slot state) }
{
    match taken(world, &number, state) {
        Some(rest) => Ok(Some(with_stored(slot, number, rest)?)),
        None => Ok(None),
    }
}

pub fn reference_stored(slot: u16, state: TypeState) -> Result<Option<TypeState>, NoMemory>
    ensures { IfOk result (λ after. after ≡ reference_stored slot state) }
{
    match popped(state) {
        Some((top, rest)) => {
            if is_reference(&top) {
                Ok(Some(with_stored(slot, top, rest)?))
            } else {
                Ok(None)
            }
        }
        None => Ok(None),
    }
}

pub fn increased(
    alloc: Global,
    world: &World<'_>,
    slot: u16,
    state: TypeState,
) -> Result<Option<TypeState>, NoMemory>
    ensures { IfOk result (λ after. after ≡ increased world.now slot state) }
{
    let held = copied_at(alloc, state.slots.as_slice(), slot)?;
    if is_assignable(world, &held, &VType::Integer) {
        Ok(Some(state))
    } else {
        Ok(None)
    }
}

/// The state without the topmost operand, which has to be a reference.
pub fn reference_taken(state: TypeState) -> Option<TypeState>
    ensures { result ≡ reference_taken state }
{
    let (top, rest) = popped(state)?;
    if is_reference(&top) { Some(rest) } else { None }
}

pub fn two_references_taken(state: TypeState) -> Option<TypeState>
    ensures { result ≡ two_references_taken state }
{
    let rest = reference_taken(state)?;
    reference_taken(rest)
}
