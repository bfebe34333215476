//! What an instruction finds of operands and locals (JVMS 2.6), along code without jumps.

ghost use Rattle.std.specs.Prelude.{◌≡◌, ◌≤◌, IfOk, replicate, false, slice_index_or};
ghost use Rattle.first_form.specs.Operands.{pushed, popped, stored_into, held_behind, runs};

use crate::first_class::{Op, Placed};
use kes_text::NoMemory;
use sqlite_items::Items;
use std::alloc::Global;

/// How many operands there are, and which locals hold an int.
#[derive(Drop)]
pub struct Held {
    pub depth: u16,
    pub stored: Items<bool>,
}

/// No operand, and no local that holds an int.
fn none_held(alloc: Global, max_locals: u16) -> Result<Held, NoMemory>
    ensures { IfOk result (λ held. held ≡ record { depth = 0; stored = replicate max_locals false }) }
{
    let stored = vec![in alloc; false; usize::from(max_locals)]?;
    Ok(Held {
        depth: 0,
        stored: Items::from_vec(stored),
    })
}

/// One operand more, of at most `max_stack`.
fn pushed(max_stack: u16, held: Held) -> Option<Held>
    ensures { result ≡ pushed max_stack held }
{
    if held.depth < max_stack {
        Some(Held {
            depth: held.depth + 1,
            stored: held.stored,
        })
    } else {
        None
    }
}

/// One operand less, where there are at least so many.
fn popped(least: u16, held: Held) -> Option<Held>
    requires { 1 ≤ least }
    ensures { result ≡ popped least held }
{
    if held.depth < least {
        None
    } else {
        Some(Held {
            depth: held.depth - 1,
            stored: held.stored,
        })
    }
}

/// The topmost operand goes into the local of this slot.
fn stored_into(slot: u16, held: Held) -> Option<Held>
    ensures { result ≡ stored_into slot held }
{
    if held.depth < 1 || held.stored.len() <= usize::from(slot) {
        return None;
    }
    let mut stored = held.stored;
    stored.set(usize::from(slot), true);
    Some(Held {
        depth: held.depth - 1,
        stored,
    })
}

/// Whether the local of this slot holds an int.
fn is_stored(slot: u16, held: &Held) -> bool
    ensures { result ≡ slice_index_or held.now.stored slot false }
{
    match held.stored.get(usize::from(slot)) {
        Some(is_stored) => *is_stored,
        None => false,
    }
}

/// What is held behind an instruction, if it may stand there.
fn held_behind(max_stack: u16, held: Held, op: Op) -> Option<Held>
    ensures { result ≡ held_behind max_stack held op }
{
    match op {
        Op::Load(slot) if !is_stored(slot, &held) => None,
        Op::Const(_) | Op::Load(_) | Op::Invoke => pushed(max_stack, held),
        Op::Store(slot) => stored_into(slot, held),
        Op::Add | Op::Sub | Op::Mul => popped(2, held),
        Op::Pop => popped(1, held),
        Op::Return => Some(held),
    }
}

/// Whether each instruction may stand at its place.
pub fn runs(
    alloc: Global,
    max_stack: u16,
    max_locals: u16,
    code: &[Placed],
) -> Result<bool, NoMemory>
    ensures { IfOk result (λ answer. answer ≡ runs max_stack (record { depth = 0; stored = replicate max_locals false }) code.now) }
{
    let mut held = none_held(alloc, max_locals)?;
    for placed in code {
        match held_behind(max_stack, held, placed.op) {
            Some(behind) => held = behind,
            None => return Ok(false),
        }
    }
    Ok(true)
}
