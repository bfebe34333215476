//! What each instruction makes of the frame before it.

ghost use Rattle.std.specs.Prelude.{◌≡◌, None, IfOk, if◌then◌else◌};
ghost use Rattle.typing_rules.specs.Groups.{is_load_or_store, is_stack_form, is_on_numbers, is_jump, is_of_member, is_of_object};
ghost use Rattle.typing_rules.specs.Outcome.{outcome};

use crate::arrays::{array_made, item_loaded, item_stored, length_taken, references_made};
use crate::environment::Environment;
use crate::group::Group;
use crate::locals::{
    increased, number_loaded, number_stored, reference_loaded, reference_stored, reference_taken,
    two_references_taken,
};
use crate::members::{
    field_read, field_written, special_called, static_called, static_read, static_written,
    virtual_called,
};
use crate::numbers::{
    cast, compared, converted, given, int_taken, is_instance, number, shifted, thrown,
    two_ints_taken, two_numbers,
};
use crate::operations::{is_jump, is_load_or_store, is_of_member, is_on_numbers, is_stack_form};
use crate::returned::Returned;
use crate::returns::{nothing_returned, value_returned};
use crate::stack_forms::{duplicated, group_dropped, swapped};
use jcode::Op;
use kes_text::NoMemory;
use stackmap::VType;
use std::alloc::Global;
use type_states::{TypeState, object_made};

/// nop, constants, loads, stores and iinc; None for other operations.
#[tactic(auto, unfolding(crate::specs::Outcome::outcome))]
fn load_or_store(
    alloc: Global,
    e: &Environment<'_, '_>,
    pc: u16,
    op: &Op,
    state: TypeState,
) -> Result<Option<TypeState>, NoMemory>
    ensures { IfOk result (λ after. after ≡ (if is_load_or_store op.now then outcome e.now pc op.now state else None)) }
{
    match op {
        Op::Nop => Ok(Some(state)),
        Op::Null => given(e, VType::Null, state),
        Op::Const4 { .. } => given(e, VType::Integer, state),
        Op::Const8 { .. } => given(e, VType::Long, state),
        Op::LoadI { slot } => number_loaded(alloc, e.world, VType::Integer, *slot, state),
        Op::LoadL { slot } => number_loaded(alloc, e.world, VType::Long, *slot, state),
        Op::LoadA { slot } => reference_loaded(alloc, *slot, state),
        Op::StoreI { slot } => number_stored(e.world, VType::Integer, *slot, state),
        Op::StoreL { slot } => number_stored(e.world, VType::Long, *slot, state),
        Op::StoreA { slot } => reference_stored(*slot, state),
        Op::Inc { slot, .. } => increased(alloc, e.world, *slot, state),
        _ => Ok(None),
    }
}

/// pop, dup and swap and their forms; None for other operations.
#[tactic(auto, unfolding(crate::specs::Outcome::outcome))]
fn stack_form(
    alloc: Global,
    e: &Environment<'_, '_>,
    pc: u16,
    op: &Op,
    state: TypeState,
) -> Result<Option<TypeState>, NoMemory>
    ensures { IfOk result (λ after. after ≡ (if is_stack_form op.now then outcome e.now pc op.now state else None)) }
{
    match op {
        Op::Pop => group_dropped(alloc, Group::One, state),
        Op::Pop2 => group_dropped(alloc, Group::Pair, state),
        Op::Dup => duplicated(alloc, Group::One, Group::Nothing, state),
        Op::DupX1 => duplicated(alloc, Group::One, Group::One, state),
        Op::DupX2 => duplicated(alloc, Group::One, Group::Pair, state),
        Op::Dup2 => duplicated(alloc, Group::Pair, Group::Nothing, state),
        Op::Dup2X1 => duplicated(alloc, Group::Pair, Group::One, state),
        Op::Dup2X2 => duplicated(alloc, Group::Pair, Group::Pair, state),
        Op::Swap => swapped(alloc, state),
        _ => Ok(None),
    }
}

/// Arithmetic, conversions and lcmp; None for other operations.
#[tactic(auto, unfolding(crate::specs::Outcome::outcome))]
fn on_numbers(
    alloc: Global,
    e: &Environment<'_, '_>,
    pc: u16,
    op: &Op,
    state: TypeState,
) -> Result<Option<TypeState>, NoMemory>
    ensures { IfOk result (λ after. after ≡ (if is_on_numbers op.now then outcome e.now pc op.now state else None)) }
{
    match op {
        Op::Add { wide }
        | Op::Sub { wide }
        | Op::Mul { wide }
        | Op::Div { wide }
        | Op::Rem { wide }
        | Op::And { wide }
        | Op::Or { wide }
        | Op::Xor { wide } => two_numbers(e, *wide, state),
        Op::Neg { wide } => converted(e, number(*wide), number(*wide), state),
        Op::Shl { wide } | Op::Shr { wide } | Op::Ushr { wide } => shifted(e, *wide, state),
        Op::I2L => converted(e, VType::Integer, VType::Long, state),
        Op::L2I => converted(e, VType::Long, VType::Integer, state),
        Op::I2B | Op::I2C | Op::I2S => converted(e, VType::Integer, VType::Integer, state),
        Op::CompareL => compared(e, state),
        _ => Ok(None),
    }
}

/// Branches, returns and athrow; None for other operations.
#[tactic(auto, unfolding(crate::specs::Outcome::outcome))]
fn jump(
    alloc: Global,
    e: &Environment<'_, '_>,
    pc: u16,
    op: &Op,
    state: TypeState,
) -> Result<Option<TypeState>, NoMemory>
    ensures { IfOk result (λ after. after ≡ (if is_jump op.now then outcome e.now pc op.now state else None)) }
{
    match op {
        Op::IfZero { .. } | Op::Switch { .. } => int_taken(e, state),
        Op::IfInt { .. } => two_ints_taken(e, state),
        Op::IfRef { .. } => Ok(two_references_taken(state)),
        Op::IfNull { .. } => Ok(reference_taken(state)),
        Op::Goto { .. } => Ok(Some(state)),
        Op::ReturnI => value_returned(alloc, e, Returned::Int, state),
        Op::ReturnL => value_returned(alloc, e, Returned::Long, state),
        Op::ReturnA => value_returned(alloc, e, Returned::Reference, state),
        Op::Return => nothing_returned(alloc, e, state),
        Op::Throw => thrown(alloc, e, state),
        _ => Ok(None),
    }
}

/// Accesses of fields, and calls; None for other operations.
#[tactic(auto, unfolding(crate::specs::Outcome::outcome))]
fn of_member(
    alloc: Global,
    e: &Environment<'_, '_>,
    pc: u16,
    op: &Op,
    state: TypeState,
) -> Result<Option<TypeState>, NoMemory>
    ensures { IfOk result (λ after. after ≡ (if is_of_member op.now then outcome e.now pc op.now state else None)) }
{
    match op {
        Op::GetStatic { index } => static_read(alloc, e, *index, state),
        Op::PutStatic { index } => static_written(alloc, e, *index, state),
        Op::GetField { index } => field_read(alloc, e, *index, state),
        Op::PutField { index } => field_written(alloc, e, *index, state),
        Op::InvokeVirtual { index } | Op::InvokeInterface { index } => {
            virtual_called(alloc, e, *index, state)
        }
        Op::InvokeSpecial { index } => special_called(alloc, e, *index, state),
        Op::InvokeStatic { index } => static_called(alloc, e, *index, state),
        _ => Ok(None),
    }
}

/// Objects and arrays; None for other operations.
#[tactic(auto, unfolding(crate::specs::Outcome::outcome))]
fn of_object(
    alloc: Global,
    e: &Environment<'_, '_>,
    pc: u16,
    op: &Op,
    state: TypeState,
) -> Result<Option<TypeState>, NoMemory>
    ensures { IfOk result (λ after. after ≡ (if is_of_object op.now then outcome e.now pc op.now state else None)) }
{
    match op {
        Op::New { .. } => object_made(alloc, pc, state),
        Op::NewArray { shape } => array_made(alloc, e.world, *shape, state),
        Op::NewRefs { index } => references_made(alloc, e, *index, state),
        Op::ArrayLoad { shape } => item_loaded(alloc, e.world, *shape, state),
        Op::ArrayStore { shape } => item_stored(alloc, e.world, *shape, state),
        Op::ArrayLength => length_taken(state),
        Op::CheckCast { index } => cast(alloc, e, *index, state),
        Op::InstanceOf { .. } => is_instance(alloc, e, state),
        _ => Ok(None),
    }
}

/// What an instruction at a place makes of a state.
pub fn outcome(
    alloc: Global,
    e: &Environment<'_, '_>,
    pc: u16,
    op: &Op,
    state: TypeState,
) -> Result<Option<TypeState>, NoMemory>
    ensures { IfOk result (λ after. after ≡ outcome e.now pc op.now state) }
{
    if is_load_or_store(op) {
        load_or_store(alloc, e, pc, op, state)
    } else if is_stack_form(op) {
        stack_form(alloc, e, pc, op, state)
    } else if is_on_numbers(op) {
        on_numbers(alloc, e, pc, op, state)
    } else if is_jump(op) {
        jump(alloc, e, pc, op, state)
    } else if is_of_member(op) {
        of_member(alloc, e, pc, op, state)
    } else {
        of_object(alloc, e, pc, op, state)
    }
}
