//! Which state may stand where another is declared (JVMS SE 8, 4.10.1.4).

ghost use Rattle.std.specs.Prelude.{◌≡◌};
ghost use Rattle.type_states.specs.Assignable.{is_slot_assignable, are_slots_assignable, are_operands_assignable, is_state_assignable};
ghost use Rattle.type_states.specs.Slots.{slot_at};

use crate::assignable::{is_assignable, is_slot_assignable};
use crate::operands::Operands;
use crate::state::TypeState;
use jworld::World;
use stackmap::VType;

/// Whether what a slot holds may stand where another type is wanted; a slot behind the last is Top.
fn is_held_assignable(world: &World<'_>, slots: &[VType], at: usize, to: &VType) -> bool
    ensures { result ≡ is_slot_assignable world.now (slot_at slots.now at) to.now }
{
    match slots.get(at) {
        Some(held) => is_slot_assignable(world, held, to),
        None => is_slot_assignable(world, &VType::Top, to),
    }
}

fn are_slots_assignable(world: &World<'_>, from: &[VType], to: &[VType]) -> bool
    ensures { result ≡ are_slots_assignable world.now from.now to.now }
{
    for (at, wanted) in to.iter().enumerate() {
        if !is_held_assignable(world, from, at, wanted) {
            return false;
        }
    }
    true
}

/// Whether types may stand where others are wanted, one by one.
fn are_types_assignable(world: &World<'_>, from: &[VType], to: &[VType]) -> bool
    ensures { result ≡ are_operands_assignable world.now from.now to.now }
{
    if from.len() != to.len() {
        return false;
    }
    for (at, wanted) in to.iter().enumerate() {
        if !is_assignable(world, &from[at], wanted) {
            return false;
        }
    }
    true
}

fn are_operands_assignable(world: &World<'_>, from: &Operands, to: &Operands) -> bool
    ensures { result ≡ are_operands_assignable world.now from.now to.now }
{
    are_types_assignable(world, from.stack(), to.stack())
}

/// Whether a state may stand where another is declared.
#[tactic(auto, unfolding(crate::specs::Assignable::is_state_assignable))]
pub fn is_state_assignable(world: &World<'_>, from: &TypeState, to: &TypeState) -> bool
    ensures { result ≡ is_state_assignable world.now from.now to.now }
{
    are_slots_assignable(world, from.slots.as_slice(), to.slots.as_slice())
        && are_operands_assignable(world, &from.operands, &to.operands)
}
