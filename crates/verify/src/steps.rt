//! From one instruction to the next.

ghost use Rattle.std.specs.Prelude.{◌≡◌, ◌∷◌, map, IfOk};
ghost use Rattle.std.specs.List.{list_all};
ghost use Rattle.jcode.specs.Decoded.{targets};
ghost use Rattle.verify.specs.Steps.{is_bounded, left, may_enter, may_come, passed, coming, entered};

use crate::maps::DeclaredFrames;
use jcode::{Ins, Op};
use kes_text::NoMemory;
use std::alloc::Global;
use type_states::{TypeState, is_state_assignable, is_within};
use typing_rules::{Environment, falls_through, outcome};

/// Whether a state keeps max_stack and max_locals.
fn is_bounded(e: &Environment<'_, '_>, state: &TypeState) -> bool
    ensures { result ≡ is_bounded e.now state.now }
{
    let code = e.code;
    is_within(code.max_stack, code.max_locals, state)
}

/// What an instruction leaves, where its rule holds on a state and both keep the bounds.
fn left(
    alloc: Global,
    e: &Environment<'_, '_>,
    state: TypeState,
    ins: &Ins,
) -> Result<Option<TypeState>, NoMemory>
    ensures { IfOk result (λ after. after ≡ left e.now state ins.now) }
{
    let was_bounded = is_bounded(e, &state);
    match outcome(alloc, e, ins.pc, &ins.op, state)? {
        None => Ok(None),
        Some(after) => {
            if was_bounded && is_bounded(e, &after) {
                Ok(Some(after))
            } else {
                Ok(None)
            }
        }
    }
}

/// Whether a state may come to where this one is declared, or none is.
fn may_enter(e: &Environment<'_, '_>, state: &TypeState, declared: Option<TypeState>) -> bool
    ensures { result ≡ may_enter e.now state.now declared }
{
    match declared {
        None => false,
        Some(declared) => is_state_assignable(e.world, state, &declared),
    }
}

/// Whether a state may come to a place by a jump.
fn may_come(
    alloc: Global,
    e: &Environment<'_, '_>,
    maps: &DeclaredFrames<'_>,
    state: &TypeState,
    pc: u16,
) -> Result<bool, NoMemory>
    ensures { IfOk result (λ may. may ≡ may_come e.now maps.now state.now pc) }
{
    Ok(may_enter(e, state, maps.declared_at(alloc, pc)?))
}

fn may_come_to_cases(
    alloc: Global,
    e: &Environment<'_, '_>,
    maps: &DeclaredFrames<'_>,
    state: &TypeState,
    cases: &[(i32, u16)],
) -> Result<bool, NoMemory>
    ensures { IfOk result (λ may. may ≡ list_all (may_come e.now maps.now state.now) (map (λ case. case.1) cases.now)) }
{
    for case in cases {
        if !may_come(alloc, e, maps, state, case.1)? {
            return Ok(false);
        }
    }
    Ok(true)
}

fn may_switch(
    alloc: Global,
    e: &Environment<'_, '_>,
    maps: &DeclaredFrames<'_>,
    state: &TypeState,
    cases: &[(i32, u16)],
    other: u16,
) -> Result<bool, NoMemory>
    ensures { IfOk result (λ may. may ≡ list_all (may_come e.now maps.now state.now) (other ∷ map (λ case. case.1) cases.now)) }
{
    if may_come(alloc, e, maps, state, other)? {
        may_come_to_cases(alloc, e, maps, state, cases)
    } else {
        Ok(false)
    }
}

/// Whether a state may come to each target of an operation's jumps.
fn may_jump(
    alloc: Global,
    e: &Environment<'_, '_>,
    maps: &DeclaredFrames<'_>,
    state: &TypeState,
    op: &Op,
) -> Result<bool, NoMemory>
    ensures { IfOk result (λ may. may ≡ list_all (may_come e.now maps.now state.now) (targets op.now)) }
{
    match op {
        Op::IfZero { to, .. }
        | Op::IfInt { to, .. }
        | Op::IfRef { to, .. }
        | Op::IfNull { to, .. }
        | Op::Goto { to } => may_come(alloc, e, maps, state, *to),
        Op::Switch { cases, other } => {
            may_switch(alloc, e, maps, state, cases.as_slice(), *other)
        }
        _ => Ok(true),
    }
}

/// What an instruction leaves, where that may come to each target of its jumps.
pub fn passed(
    alloc: Global,
    e: &Environment<'_, '_>,
    maps: &DeclaredFrames<'_>,
    state: TypeState,
    ins: &Ins,
) -> Result<Option<TypeState>, NoMemory>
    ensures { IfOk result (λ after. after ≡ passed e.now maps.now state ins.now) }
{
    match left(alloc, e, state, ins)? {
        None => Ok(None),
        Some(after) => {
            if may_jump(alloc, e, maps, &after, &ins.op)? {
                Ok(Some(after))
            } else {
                Ok(None)
            }
        }
    }
}

/// What comes to the next instruction.
pub fn coming(ins: &Ins, state: TypeState) -> Option<TypeState>
    ensures { result ≡ coming ins.now state }
{
    if falls_through(&ins.op) {
        Some(state)
    } else {
        None
    }
}

fn if_assignable(
    e: &Environment<'_, '_>,
    state: &TypeState,
    declared: TypeState,
) -> Option<TypeState>
    ensures { result ≡ entered e.now (Some state.now) (Some declared) }
{
    if is_state_assignable(e.world, state, &declared) {
        Some(declared)
    } else {
        None
    }
}

/// The state at an instruction, to which another one comes or none does: the declared one where one stands.
pub fn entered(
    e: &Environment<'_, '_>,
    comes: Option<TypeState>,
    declared: Option<TypeState>,
) -> Option<TypeState>
    ensures { result ≡ entered e.now comes declared }
{
    match declared {
        None => comes,
        Some(declared) => match comes {
            None => Some(declared),
            Some(state) => if_assignable(e, &state, declared),
        },
    }
}
