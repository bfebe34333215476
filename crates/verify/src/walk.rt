//! The frame before each instruction, one after the other.

ghost use Rattle.std.specs.Prelude.{◌≡◌, ◌+◌, ◌-◌, ◌^◌, min, IfOk};
ghost use Rattle.kes_text.specs.Answers.{OrNoMemory};
ghost use Rattle.kes_text.specs.declared.refusal.Kind.TheVariants as kind;
ghost use Rattle.kes_text.specs.declared.refusal.Stop.TheVariants.{Refused};
ghost use Rattle.verify.specs.Placing.{declared_at};
ghost use Rattle.verify.specs.Steps.{passed, entered};
ghost use Rattle.verify.specs.Typing.{or_untyped, ended, states_from, start_state, states, framed};

use crate::maps::DeclaredFrames;
use crate::steps::{coming, entered, passed};
use jcode::Ins;
use kes_text::{Kind, NoMemory, Refusal, Stop};
use sqlite_items::Items;
use stackmap::{Frame, start_frame};
use std::alloc::Global;
use type_states::{TypeState, frame_of, state_of};
use typing_rules::Environment;

/// The method is refused at an instruction.
fn untyped(e: &Environment<'_, '_>, pc: u16) -> Stop
    ensures { result ≡ Refused (record { file = 0; kind = kind.Typing; at = min (e.now.code.at + pc) (2 ^ 64 - 1) }) }
{
    let code = e.code;
    Stop::Refused(Refusal {
        file: 0,
        kind: Kind::Typing,
        at: code.at.saturating_add(u64::from(pc)),
    })
}

/// The state that is there, or else the method is refused at an instruction.
fn or_untyped(e: &Environment<'_, '_>, pc: u16, state: Option<TypeState>) -> Result<TypeState, Stop>
    ensures { result ≡ or_untyped e.now pc state }
{
    match state {
        Some(state) => Ok(state),
        None => Err(untyped(e, pc)),
    }
}

/// The state at the instruction of a place, behind one at `before`.
fn state_at(
    alloc: Global,
    e: &Environment<'_, '_>,
    maps: &DeclaredFrames<'_>,
    before: u16,
    comes: Option<TypeState>,
    pc: u16,
) -> Result<TypeState, Stop>
    ensures { OrNoMemory result (or_untyped e.now before (entered e.now comes (declared_at maps.now pc))) }
{
    let declared = maps.declared_at(alloc, pc)?;
    or_untyped(e, before, entered(e, comes, declared))
}

/// What an instruction leaves.
fn state_after(
    alloc: Global,
    e: &Environment<'_, '_>,
    maps: &DeclaredFrames<'_>,
    state: TypeState,
    ins: &Ins,
) -> Result<TypeState, Stop>
    ensures { OrNoMemory result (or_untyped e.now ins.now.pc (passed e.now maps.now state ins.now)) }
{
    let after = passed(alloc, e, maps, state, ins)?;
    or_untyped(e, ins.pc, after)
}

/// The frames of a code at its end, behind an instruction at `before`.
fn ended(
    e: &Environment<'_, '_>,
    before: u16,
    comes: Option<TypeState>,
    frames: Items<Frame>,
) -> Result<Items<Frame>, Stop>
    ensures { result ≡ ended e.now before comes frames }
{
    match comes {
        None => Ok(frames),
        Some(_) => Err(untyped(e, before)),
    }
}

/// The frames of a code whose first instruction stands at a place, to which a state comes.
fn frames_from(
    alloc: Global,
    e: &Environment<'_, '_>,
    maps: &DeclaredFrames<'_>,
    first: u16,
    start: TypeState,
    code: &[Ins],
) -> Result<Items<Frame>, Stop>
    ensures { OrNoMemory result (framed (states_from e.now maps.now first (Some start) code.now)) }
{
    let mut frames = Items::new(alloc);
    let mut before = first;
    let mut comes = Some(start);
    for ins in code {
        let state = state_at(alloc, e, maps, before, comes, ins.pc)?;
        frames.push(frame_of(alloc, &state)?)?;
        let after = state_after(alloc, e, maps, state, ins)?;
        comes = coming(ins, after);
        before = ins.pc;
    }
    ended(e, before, comes, frames)
}

/// The state at the start of the method.
fn start_state(alloc: Global, e: &Environment<'_, '_>) -> Result<TypeState, NoMemory>
    ensures { IfOk result (λ start. start ≡ start_state e.now) }
{
    let frame = start_frame(alloc, e.class, e.method)?;
    state_of(alloc, &frame)
}

/// The frame before each instruction of a code.
fn frames_in(
    alloc: Global,
    e: &Environment<'_, '_>,
    maps: &DeclaredFrames<'_>,
    code: &[Ins],
) -> Result<Items<Frame>, Stop>
    ensures { OrNoMemory result (framed (states e.now maps.now code.now)) }
{
    match code {
        [] => Ok(Items::new(alloc)),
        [first, ..] => {
            let start = start_state(alloc, e)?;
            frames_from(alloc, e, maps, first.pc, start, code)
        }
    }
}

/// The frame before each instruction of the method.
pub fn frames_of(
    alloc: Global,
    e: &Environment<'_, '_>,
    maps: &DeclaredFrames<'_>,
) -> Result<Items<Frame>, Stop>
    ensures { OrNoMemory result (framed (states e.now maps.now e.now.instructions)) }
{
    frames_in(alloc, e, maps, e.instructions)
}
