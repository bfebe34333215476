//! The return of methods.

ghost use Rattle.std.specs.Prelude.{◌≡◌, drop};
ghost use Rattle.osek_core.specs.declared.event.Who.TheVariants.{Start};
ghost use Rattle.b_machine.specs.Step as step;
ghost use Rattle.b_machine.specs.Shown.{IsNext, Steps};
ghost use Rattle.b_machine.specs.Serving.{started};

use crate::actor::Actor;
use crate::program::Program;
use crate::shared::Shared;
use kes_text::NoMemory;
use osek_core::{Event, Who};
use reaching::Pair;
use std::alloc::Global;
use values::Value;

/// Behind the last initialiser the kernel starts.
fn start_behind(program: &Program<'_>, shared: &mut Shared, next: Option<Pair>)
    requires { IsNext program.now Start shared.old }
    ensures { shared.new ≡ started program.now next shared.old }
{
    if let None = next {
        shared.system.start();
    }
}

/// The next initialiser begins, or behind the last one the kernel starts.
fn start_next(
    alloc: Global,
    program: &Program<'_>,
    actor: &mut Actor,
    shared: &mut Shared,
) -> Result<Option<Event>, NoMemory>
    requires { IsNext program.now Start shared.old }
    ensures { Steps (step.start_next program.now actor.old shared.old.shared actor.old.later) actor.old shared.old result actor.new shared.new }
{
    let next = actor.next_later();
    let frame = program.frame_at(alloc, next)?;
    start_behind(program, shared, next);
    actor.take_later();
    actor.begin(frame);
    Ok(None)
}

/// The return of an actor's only frame.
fn leave_last(
    alloc: Global,
    program: &Program<'_>,
    who: Who,
    actor: &mut Actor,
    shared: &mut Shared,
) -> Result<Option<Event>, NoMemory>
    requires { IsNext program.now who shared.old }
    ensures { Steps (step.leave_last program.now who actor.old shared.old.shared) actor.old shared.old result actor.new shared.new }
{
    match who {
        Who::Start => start_next(alloc, program, actor, shared),
        Who::Task(_) => {
            actor.leave();
            Ok(None)
        }
    }
}

/// The innermost frame returns, with an answer, if there is one.
pub fn leave(
    alloc: Global,
    program: &Program<'_>,
    who: Who,
    actor: &mut Actor,
    shared: &mut Shared,
    answer: Option<Value>,
) -> Result<Option<Event>, NoMemory>
    requires { IsNext program.now who shared.old }
    ensures { Steps (step.leave program.now who actor.old shared.old.shared (drop 1 actor.old.frames) answer) actor.old shared.old result actor.new shared.new }
{
    if !actor.has_caller() {
        return leave_last(alloc, program, who, actor, shared);
    }
    actor.hand_over(answer)?;
    Ok(None)
}
