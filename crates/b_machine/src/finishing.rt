//! What follows the end of an instruction.

ghost use Rattle.std.specs.Prelude.{◌≡◌};
ghost use Rattle.b_step.specs.Known.{IsServed};
ghost use Rattle.actions.specs.Known.{counts_of};
ghost use Rattle.b_machine.specs.Finish.{finish, fail_in, Finishes};
ghost use Rattle.b_machine.specs.Callers.{AwaitsAnswer};
ghost use Rattle.b_machine.specs.Shown.{IsNext, Leaves};

use crate::actor::Actor;
use crate::ended::Ended;
use crate::leaving::leave;
use crate::program::Program;
use crate::serving::{fail, serve};
use crate::shared::Shared;
use b_step::Done;
use kes_text::NoMemory;
use osek_core::{Event, FailKind, Place, Who};
use std::alloc::Global;

/// A failure in the innermost frame, at a place in its code.
fn fail_in(who: Who, actor: &Actor, shared: &mut Shared, kind: FailKind, pc: u16) -> Option<Event>
    ensures { Leaves (fail_in who actor.now shared.old.shared kind pc actor.now.frames) shared.old result actor.now shared.new }
{
    let frame = actor.top.as_ref()?;
    let method = frame.method;
    let place = Some(Place { method, pc });
    Some(fail(who, actor, shared, kind, place))
}

/// What follows the end of an instruction of the innermost frame, and what it shows.
pub fn finish(
    alloc: Global,
    program: &Program<'_>,
    who: Who,
    actor: &mut Actor,
    shared: &mut Shared,
    ended: Ended,
) -> Result<Option<Event>, NoMemory>
    requires next { IsNext program.now who shared.old }
    requires known { IsServed (counts_of program.now.bound.config) ended.done }
    requires top { AwaitsAnswer ended.done actor.old.frames }
    ensures { Finishes (finish program.now who actor.old shared.old.shared ended ended.done) ended.done actor.old shared.old result actor.new shared.new }
{
    let next = ended.next;
    match ended.done {
        Done::Next | Done::Jump(_) => {
            actor.advance(next);
            Ok(None)
        }
        Done::Call { method, count } => {
            actor.call(alloc, program, next, method, count)?;
            Ok(None)
        }
        Done::Serve(call) => serve(alloc, program, who, actor, shared, call, next),
        Done::Leave(answer) => leave(alloc, program, who, actor, shared, answer),
        Done::Fails(kind) => Ok(fail_in(who, actor, shared, kind, ended.pc)),
        Done::Undefined => Ok(None),
    }
}
