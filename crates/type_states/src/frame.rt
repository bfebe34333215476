//! Frames, as they are declared and slot by slot.

ghost use Rattle.std.specs.Prelude.{◌≡◌, false, nat_le, IfOk};
ghost use Rattle.type_states.specs.TypeStates.{slots_of, entries_of, state_of, frame_of, size_of, places, is_within};

use crate::operands::Operands;
use crate::state::TypeState;
use crate::vtype::{all_copied, copied, is_wide};
use kes_text::NoMemory;
use sqlite_items::Items;
use stackmap::{Frame, VType};
use std::alloc::Global;

/// The slots of a frame's locals.
fn slots_of(alloc: Global, locals: &[VType]) -> Result<Items<VType>, NoMemory>
    ensures { IfOk result (λ slots. slots ≡ slots_of locals.now) }
{
    let mut slots = Items::new(alloc);
    for held in locals {
        slots.push(copied(alloc, held)?)?;
        if is_wide(held) {
            slots.push(VType::Top)?;
        }
    }
    Ok(slots)
}

/// The locals of a frame with these slots.
fn entries_of(alloc: Global, slots: &[VType]) -> Result<Items<VType>, NoMemory>
    ensures { IfOk result (λ entries. entries ≡ entries_of false slots.now) }
{
    let mut entries = Items::new(alloc);
    let mut is_second = false;
    for held in slots {
        if is_second {
            is_second = false;
        } else {
            entries.push(copied(alloc, held)?)?;
            is_second = is_wide(held);
        }
    }
    Ok(entries)
}

pub fn state_of(alloc: Global, frame: &Frame) -> Result<TypeState, NoMemory>
    ensures { IfOk result (λ state. state ≡ state_of frame.now) }
{
    let slots = slots_of(alloc, frame.locals.as_slice())?;
    let stack = all_copied(alloc, frame.stack.as_slice())?;
    let operands = Operands::of(stack);
    Ok(TypeState { slots, operands })
}

pub fn frame_of(alloc: Global, state: &TypeState) -> Result<Frame, NoMemory>
    ensures { IfOk result (λ frame. frame ≡ frame_of state.now) }
{
    let locals = entries_of(alloc, state.slots.as_slice())?;
    let stack = all_copied(alloc, state.operands.stack())?;
    Ok(Frame { locals, stack })
}

fn size_of(held: &VType) -> usize
    ensures { result ≡ size_of held.now }
{
    if is_wide(held) { 2 } else { 1 }
}

/// Whether operands take no more than so many places.
fn fit_into(max_stack: u16, operands: &[VType]) -> bool
    ensures { result ≡ nat_le (places operands.now) max_stack }
{
    let room = usize::from(max_stack);
    let mut taken = 0;
    for held in operands {
        taken += size_of(held);
        if room < taken {
            return false;
        }
    }
    true
}

fn operands_fit_into(max_stack: u16, operands: &Operands) -> bool
    ensures { result ≡ nat_le (places operands.now) max_stack }
{
    fit_into(max_stack, operands.stack())
}

/// Whether a state keeps max_stack and max_locals.
pub fn is_within(max_stack: u16, max_locals: u16, state: &TypeState) -> bool
    ensures { result ≡ is_within max_stack max_locals state.now }
{
    operands_fit_into(max_stack, &state.operands) && state.slots.len() <= usize::from(max_locals)
}
