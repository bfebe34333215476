//! One step of an actor: one instruction, or what follows the return of an entry.

ghost use Rattle.std.specs.Prelude.{◌≡◌};
ghost use Rattle.actions.specs.Known.{counts_of};
ghost use Rattle.b_step.specs.Known.{IsServed};
ghost use Rattle.b_machine.specs.Kept.{IfEnded};
ghost use Rattle.b_machine.specs.Tops.{RunsTop, PutsZeroOn};
ghost use Rattle.b_machine.specs.Step as step;
ghost use Rattle.b_machine.specs.Shown.{IsNext, Steps};

use crate::actor::Actor;
use crate::ended::Ended;
use crate::finishing::finish;
use crate::program::Program;
use crate::running::run_among;
use crate::serving::without_frame;
use crate::shared::Shared;
use kes_text::NoMemory;
use osek_core::{Event, Who};
use std::alloc::Global;

/// The instruction that comes next in the innermost frame.
fn run_top(
    alloc: Global,
    program: &Program<'_>,
    actor: &mut Actor,
    shared: &mut Shared,
) -> Result<Option<Ended>, NoMemory>
    ensures runs { RunsTop program.now actor.old shared.old result actor.new shared.new }
    ensures known { IfEnded result (λ ended. IsServed (counts_of program.now.bound.config) ended.done) }
    ensures zero { IfEnded result (λ ended. PutsZeroOn actor.old.frames ended.done actor.new.frames) }
{
    match &mut actor.top {
        Some(frame) => run_among(alloc, program, frame, &mut shared.domains),
        None => Ok(None),
    }
}

/// One step of the actor that acts, with what it shows.
pub fn step(
    alloc: Global,
    program: &Program<'_>,
    who: Who,
    actor: &mut Actor,
    shared: &mut Shared,
) -> Result<Option<Event>, NoMemory>
    requires { IsNext program.now who shared.old }
    ensures { Steps (step.step program.now who actor.old shared.old.shared) actor.old shared.old result actor.new shared.new }
{
    if actor.is_idle() {
        return without_frame(alloc, program, who, actor, shared);
    }
    match run_top(alloc, program, actor, shared)? {
        Some(ended) => finish(alloc, program, who, actor, shared, ended),
        None => Ok(None),
    }
}
