//! Worked examples of the definitions: each function's contract is what they show of a small application, and its
//! proof is a computation.
ghost use Rattle.osek_core.specs.Worked.Alarms.{ActivationIsLost, ReadsTell};
ghost use Rattle.osek_core.specs.Worked.Arithmetic.{IntsWrap};
ghost use Rattle.osek_core.specs.Worked.Initialisers.{InitialisersRunFirst};
ghost use Rattle.osek_core.specs.Worked.Preemption.{PreemptedStaysFirst};
ghost use Rattle.osek_core.specs.Worked.Resources.{HeldAtEndFails, ReleasedGivesWay};
ghost use Rattle.osek_core.specs.Worked.Scheduling.{ScheduleGivesWay};
ghost use Rattle.osek_core.specs.Worked.Stored.{StoredEvents, StoredLines};
ghost use Rattle.osek_core.specs.Worked.Waiting.{SetEventWakes};

/// The stored example over four moves, as events and as their lines.
pub fn stored_example()
    ensures events { StoredEvents }
    ensures lines { StoredLines }
{}

/// Two tasks of one priority have started when a tick activates a third of a higher one: the third runs, then
/// the preempted one, then the other.
pub fn preempted_stays_first()
    ensures { PreemptedStaysFirst }
{}

/// A task gives up a resource, and with it the raised priority: a task that was kept waiting runs at once.
pub fn released_gives_way()
    ensures { ReleasedGivesWay }
{}

/// A task returns while it holds a resource: TerminateTask is refused, and the run fails.
pub fn held_at_end_fails()
    ensures { HeldAtEndFails }
{}

/// A task waits until another one sets its event.
pub fn set_event_wakes()
    ensures { SetEventWakes }
{}

/// An alarm activates a task that has its one activation outstanding: the action is lost.
pub fn activation_is_lost()
    ensures { ActivationIsLost }
{}

/// Ints wrap in a sum, a difference and a product.
pub fn ints_wrap()
    ensures { IntsWrap }
{}

/// GetAlarm and GetEvent answer a number, or a status below 0.
pub fn reads_tell()
    ensures { ReadsTell }
{}

/// A task that isn't preempted gives way at Schedule, and hands on by ChainTask.
pub fn schedule_gives_way()
    ensures { ScheduleGivesWay }
{}

/// The initialisers run before the kernel's start, and ticks until then do nothing.
pub fn initialisers_run_first()
    ensures { InitialisersRunFirst }
{}
