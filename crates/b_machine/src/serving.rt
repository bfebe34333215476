//! Services and failures.

ghost use Rattle.std.specs.Prelude.{◌≡◌, Some, true, if◌then◌else◌};
ghost use Rattle.osek_core.specs.declared.event.Who.TheVariants.{Task as ATask};
ghost use Rattle.osek_core.specs.declared.event.Event.TheVariants as event;
ghost use Rattle.values.specs.declared.value.Value.TheVariants.{Int};
ghost use Rattle.osek_model.specs.Call.{IsCallOf};
ghost use Rattle.b_step.specs.Ends.{may_end};
ghost use Rattle.b_machine.specs.State.{at_entry};
ghost use Rattle.b_machine.specs.Application.{entry_of};
ghost use Rattle.b_machine.specs.Step as step;
ghost use Rattle.b_machine.specs.Callers.{HasTop, answered_by};
ghost use Rattle.b_machine.specs.Serving.{begun_at, Begins, Serves};
ghost use Rattle.b_machine.specs.Shown.{IsNext, Leaves, Steps};

use crate::actor::Actor;
use crate::frames::Frame;
use crate::program::Program;
use crate::shared::Shared;
use kes_text::NoMemory;
use osek_core::{Call, Event, FailKind, Place, Who};
use osek_model::Answer;
use std::alloc::Global;
use values::Value;

/// A failure shuts the system down.
pub fn fail(
    who: Who,
    actor: &Actor,
    shared: &mut Shared,
    kind: FailKind,
    place: Option<Place>,
) -> Event
    ensures { Leaves (step.fail who actor.now shared.old.shared kind place) shared.old (Some result) actor.now shared.new }
{
    shared.system.shut_down();
    Event::Fail { who, kind, place }
}

/// Whether a service may end the job of its caller (OSEK/VDX OS 2.2.3, 13.2.3).
fn may_end(call: Call) -> bool
    ensures { result ≡ may_end call }
{
    match call {
        Call::TerminateTask | Call::ChainTask { .. } => true,
        _ => false,
    }
}

/// The frame at which a task begins again, if this service may end its job. Without memory the actor loses the 0 on its
/// operands.
fn frame_after(
    alloc: Global,
    program: &Program<'_>,
    task: u32,
    actor: &mut Actor,
    call: Call,
) -> Result<Option<Frame>, NoMemory>
    ensures { Begins call (at_entry program.now (entry_of program.now task)) actor.old result actor.new }
{
    if !may_end(call) {
        return Ok(None);
    }
    match program.frame_at(alloc, program.entry(task)) {
        Ok(frame) => Ok(frame),
        Err(error) => {
            actor.untop();
            Err(error)
        }
    }
}

/// The job begins again where the service has ended it, and else goes on with the answer.
fn go_on(actor: &mut Actor, frame: Option<Frame>, answer: Answer, next: usize)
    requires { HasTop actor.old.frames }
    ensures { actor.new ≡ (if answer.ended then begun_at frame actor.old else answered_by next (Int answer.value) actor.old) }
{
    if answer.ended {
        actor.begin(frame);
    } else {
        actor.resume(next, Value::Int(answer.value));
    }
}

/// A service that a task calls.
fn serve_task(
    alloc: Global,
    program: &Program<'_>,
    task: u32,
    actor: &mut Actor,
    shared: &mut Shared,
    call: Call,
    next: usize,
) -> Result<Option<Event>, NoMemory>
    requires next { IsNext program.now (ATask task) shared.old }
    requires call { IsCallOf shared.old.plan call }
    requires top { HasTop actor.old.frames }
    ensures { Serves call (step.call_kernel program.now (ATask task) actor.old shared.old.shared call (λ answer. answered_by next (Int answer) actor.old)) actor.old shared.old result actor.new shared.new }
{
    let frame = frame_after(alloc, program, task, actor, call)?;
    let answer = shared.system.service(call);
    go_on(actor, frame, answer, next);
    Ok(Some(called(task, call, answer)))
}

/// A service that an actor calls, whose innermost frame goes on at this instruction.
pub fn serve(
    alloc: Global,
    program: &Program<'_>,
    who: Who,
    actor: &mut Actor,
    shared: &mut Shared,
    call: Call,
    next: usize,
) -> Result<Option<Event>, NoMemory>
    requires next { IsNext program.now who shared.old }
    requires call { IsCallOf shared.old.plan call }
    requires top { HasTop actor.old.frames }
    ensures { Serves call (step.call_kernel program.now who actor.old shared.old.shared call (λ answer. answered_by next (Int answer) actor.old)) actor.old shared.old result actor.new shared.new }
{
    match who {
        Who::Start => {
            actor.resume(next, Value::Int(0));
            Ok(None)
        }
        Who::Task(task) => serve_task(alloc, program, task, actor, shared, call, next),
    }
}

/// What shows that a task called a service.
fn called(task: u32, call: Call, answer: Answer) -> Event
    ensures { result ≡ event.Service (ATask task) call answer.value }
{
    let who = Who::Task(task);
    let answer = answer.value;
    Event::Service { who, call, answer }
}

/// The job begins again where TerminateTask has ended it, and else keeps that it was refused.
fn end_or_refuse(actor: &mut Actor, frame: Option<Frame>, ended: bool)
    ensures { actor.new ≡ (if ended then begun_at frame actor.old else record actor.old { refused = true }) }
{
    if ended {
        actor.begin(frame);
    } else {
        actor.refuse();
    }
}

/// TerminateTask behind the return of a task's entry.
fn terminate(
    alloc: Global,
    program: &Program<'_>,
    task: u32,
    actor: &mut Actor,
    shared: &mut Shared,
) -> Result<Option<Event>, NoMemory>
    requires { IsNext program.now (ATask task) shared.old }
    ensures { Steps (step.terminate program.now (ATask task) actor.old shared.old.shared) actor.old shared.old result actor.new shared.new }
{
    let frame = program.frame_at(alloc, program.entry(task))?;
    let answer = shared.system.service(Call::TerminateTask);
    end_or_refuse(actor, frame, answer.ended);
    Ok(Some(called(task, Call::TerminateTask, answer)))
}

/// Behind the return of a task's entry: TerminateTask, and where that was refused HeldAtEnd.
fn end_of_job(
    alloc: Global,
    program: &Program<'_>,
    task: u32,
    actor: &mut Actor,
    shared: &mut Shared,
) -> Result<Option<Event>, NoMemory>
    requires { IsNext program.now (ATask task) shared.old }
    ensures { Steps (step.end_of_job program.now (ATask task) actor.old shared.old.shared actor.old.refused) actor.old shared.old result actor.new shared.new }
{
    if actor.refused() {
        let who = Who::Task(task);
        Ok(Some(fail(who, actor, shared, FailKind::HeldAtEnd, None)))
    } else {
        terminate(alloc, program, task, actor, shared)
    }
}

/// What follows the return of an entry.
pub fn without_frame(
    alloc: Global,
    program: &Program<'_>,
    who: Who,
    actor: &mut Actor,
    shared: &mut Shared,
) -> Result<Option<Event>, NoMemory>
    requires { IsNext program.now who shared.old }
    ensures { Steps (step.without_frame program.now who actor.old shared.old.shared) actor.old shared.old result actor.new shared.new }
{
    match who {
        Who::Start => Ok(None),
        Who::Task(task) => end_of_job(alloc, program, task, actor, shared),
    }
}
