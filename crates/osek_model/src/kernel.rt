//! The kernel over `Core` and `Time`.
ghost use Rattle.std.specs.Prelude.{◌≡◌, ℕ, ◌<◌, ◌≤◌, Bool, true, false, IfOk, IsSome, None, Some, Result, Ok, Err, All, filter, length, nat_eq};
ghost use Rattle.std.specs.Int.{w32, cast_signed};
ghost use Rattle.std.specs.Prelude.{pos, neg_ℤ};
ghost use Rattle.std.specs.List.{range_with_len};
ghost use Rattle.osek_core.specs.Tables.WellConfigured.{IsWellConfigured};
ghost use Rattle.osek_core.specs.Kernel.Invariant.{IsDispatched};
ghost use Rattle.osek_core.specs.Kernel.Scheduler.{running, caller};
ghost use Rattle.osek_core.specs.Kernel.Service.{service, call_service, redispatch};
ghost use Rattle.osek_core.specs.Kernel.Start.{new_kernel, start_kernel};
ghost use Rattle.osek_core.specs.Kernel.State.{suspend, resume, shutdown};
ghost use Rattle.osek_core.specs.Kernel.Tick.{tick, act};
ghost use Rattle.osek_core.specs.Kernel.Clock.{due};
ghost use Rattle.osek_time.specs.Value.{alarm_set};
ghost use Rattle.osek_model.specs.Acting.{act_list, act_action, lost_of, activate_all, activate_marked, arm_all, arm_started};
ghost use Rattle.osek_model.specs.Value.{read_value};
ghost use Rattle.osek_model.specs.Call.{IsCallOf};
ghost use Rattle.osek_model.specs.Plan.{plan_of, OfItsTables, IsActionIn};

use crate::plan::{actions, alarm_counters, autos, ceilings, counter_rules, starts, task_rules};
use osek_core::{Action, Call, Core, Start, Tables};
use osek_time::Time;
use std::alloc::{AllocError, Global};
use std::marker::Model;

const E_OK: u8 = 0;

/// What a service answers, and whether its caller's job has ended.
#[derive(Clone, Copy, Debug, PartialEq, Eq)]
pub struct Answer {
    pub value: i32,
    pub ended: bool,
}

/// The kernel of an application. Only `new` takes memory.
#[derive(Drop)]
pub struct Kernel {
    core: Core,
    time: Time,
    /// Whether each task is activated when the kernel starts.
    autos: Vec<bool>,
    /// What each alarm does.
    actions: Vec<Action>,
    /// When each alarm is first due, if it starts with the kernel.
    starts: Vec<Option<Start>>,
    suspended: bool,
    shut: bool,
}

impl Model for Kernel {
    ghost use Rattle.osek_model.specs.Value.{Planned};

    ghost Value = { Planned };

    ghost use Rattle.osek_model.specs.Value.{planned};
    ghost use Rattle.osek_model.specs.Plan.{IsPlanned};

    ghost view = { λ k. planned k.core k.time k.autos.items k.actions.items k.starts.items k.suspended k.shut };

    ghost invariant = { λ k. let v = planned k.core k.time k.autos.items k.actions.items k.starts.items k.suspended k.shut in IsPlanned v.plan v.kernel.clock };
}

impl Kernel {
    /// The kernel of these tables before its start: no job, and no alarm in use.
    pub fn new(alloc: Global, tables: &Tables) -> Result<Kernel, AllocError>
        requires { IsWellConfigured tables.now }
        ensures plan { IfOk result (λ kernel. kernel.plan ≡ plan_of tables.now) }
        ensures idle { IfOk result (λ kernel. kernel.kernel ≡ new_kernel tables.now) }
    {
        let tasks = tables.tasks.as_slice();
        let alarms = tables.alarms.as_slice();
        let rules = task_rules(alloc, tasks)?;
        let ceilings = ceilings(alloc, tasks, tables.resources.len())?;
        let counters = counter_rules(alloc, tables.counters.as_slice())?;
        let counted = alarm_counters(alloc, alarms)?;
        Ok(Kernel {
            core: Core::new(alloc, &rules, &ceilings)?,
            time: Time::new(alloc, &counters, &counted)?,
            autos: autos(alloc, tasks)?,
            actions: actions(alloc, alarms)?,
            starts: starts(alloc, alarms)?,
            suspended: false,
            shut: false,
        })
    }

    /// StartOS (section 11.3), of a kernel that `new` made: the tasks and alarms with autostart, and a dispatch.
    pub fn start(&mut self)
        ensures state { OfItsTables self.old.plan (λ tables. self.old.kernel ≡ new_kernel tables → self.new ≡ record self.old { kernel = start_kernel tables self.old.kernel }) }
        ensures plan { self.new.plan ≡ self.old.plan }
        ensures dispatched { IsDispatched self.new.plan.rules self.new.kernel.scheduler }
    {
        activate_all(&mut self.core, &self.autos);
        arm_all(&mut self.time, &self.starts);
        self.core.dispatch();
    }

    /// A tick of the counter, and the dispatch that follows it: the set of the alarms whose action was lost, bit k for
    /// alarm k.
    pub fn tick(&mut self, counter: u32) -> u64
        requires { counter < length self.old.plan.clock.counters }
        ensures lost { OfItsTables self.old.plan (λ tables. result ≡ alarm_set (tick tables self.old.kernel counter).lost) }
        ensures state { OfItsTables self.old.plan (λ tables. self.new ≡ record self.old { kernel = (tick tables self.old.kernel counter).kernel }) }
        ensures plan { self.new.plan ≡ self.old.plan }
        ensures dispatched { IsDispatched self.new.plan.rules self.new.kernel.scheduler }
    {
        let lost = act_due(&mut self.core, &self.time, &self.actions, counter);
        self.time.tick(counter);
        self.core.dispatch();
        lost
    }

    /// A service that the running job calls, and the dispatch that follows it.
    pub fn service(&mut self, call: Call) -> Answer
        requires job { IsSome (running self.old.kernel.scheduler) }
        requires objects { IsCallOf self.old.plan call }
        ensures value { OfItsTables self.old.plan (λ tables. result.value ≡ (service tables self.old.kernel call).answer) }
        ensures ended { OfItsTables self.old.plan (λ tables. result.ended ≡ (service tables self.old.kernel call).ended) }
        ensures state { OfItsTables self.old.plan (λ tables. self.new ≡ record self.old { kernel = (service tables self.old.kernel call).kernel }) }
        ensures plan { self.new.plan ≡ self.old.plan }
        ensures dispatched { IsDispatched self.new.plan.rules self.new.kernel.scheduler }
    {
        let answer = self.call(call);
        self.core.dispatch();
        answer
    }

    /// The running task, if there is one.
    pub fn running(&self) -> Option<u32>
        ensures { result ≡ running self.now.kernel.scheduler }
    {
        self.core.running()
    }

    /// Whether interrupts are suspended.
    pub fn suspended(&self) -> bool
        ensures { result ≡ self.now.kernel.suspended }
    {
        self.suspended
    }

    /// Whether the system is shut down.
    pub fn shut(&self) -> bool
        ensures { result ≡ self.now.kernel.shut }
    {
        self.shut
    }

    /// SuspendAllInterrupts.
    pub fn suspend(&mut self)
        ensures { self.new ≡ record self.old { kernel = suspend self.old.kernel } }
    {
        self.suspended = true;
    }

    /// ResumeAllInterrupts.
    pub fn resume(&mut self)
        ensures { self.new ≡ record self.old { kernel = resume self.old.kernel } }
    {
        self.suspended = false;
    }

    /// ShutdownOS.
    pub fn shutdown(&mut self)
        ensures { self.new ≡ record self.old { kernel = shutdown self.old.kernel } }
    {
        self.shut = true;
    }

    /// The service before its dispatch.
    fn call(&mut self, call: Call) -> Answer
        requires job { IsSome (running self.old.kernel.scheduler) }
        requires objects { IsCallOf self.old.plan call }
        ensures value { result.value ≡ (call_service self.old.plan.rules self.old.plan.clock self.old.kernel (caller self.old.kernel.scheduler) call).answer }
        ensures ended { result.ended ≡ (call_service self.old.plan.rules self.old.plan.clock self.old.kernel (caller self.old.kernel.scheduler) call).ended }
        ensures state { self.new ≡ record self.old { kernel = (call_service self.old.plan.rules self.old.plan.clock self.old.kernel (caller self.old.kernel.scheduler) call).kernel } }
    {
        match call {
            Call::ActivateTask { task } => done(self.core.activate(task)),
            Call::TerminateTask => ends(self.core.terminate()),
            Call::ChainTask { task } => ends(self.core.chain(task)),
            Call::Schedule => done(self.core.schedule()),
            Call::GetResource { resource } => done(self.core.get_resource(resource)),
            Call::ReleaseResource { resource } => done(self.core.release_resource(resource)),
            Call::SetEvent { task, mask } => done(self.core.set_event(task, mask)),
            Call::ClearEvent { mask } => done(self.core.clear_event(mask)),
            Call::GetEvent { task } => reads(self.core.get_event(task)),
            Call::WaitEvent { mask } => done(self.core.wait_event(mask)),
            Call::SetRelAlarm {
                alarm,
                first,
                cycle,
            } => done(self.time.set_rel(alarm, first, cycle)),
            Call::SetAbsAlarm {
                alarm,
                first,
                cycle,
            } => done(self.time.set_abs(alarm, first, cycle)),
            Call::CancelAlarm { alarm } => done(self.time.cancel(alarm)),
            Call::GetAlarm { alarm } => reads(self.time.get(alarm)),
        }
    }
}

/// The answer of a service that doesn't end its caller.
fn done(status: u8) -> Answer
    ensures value { result.value ≡ pos status }
    ensures ended { result.ended ≡ false }
{
    Answer {
        value: i32::from(status),
        ended: false,
    }
}

/// The answer of a service that ends its caller where it is done.
fn ends(status: u8) -> Answer
    ensures value { result.value ≡ pos status }
    ensures ended { result.ended ≡ nat_eq status 0 }
{
    Answer {
        value: i32::from(status),
        ended: status == E_OK,
    }
}

/// The answer of a service that reads: the number as 32 bits, or the status below 0.
fn reads(read: Result<u32, u8>) -> Answer
    ensures value { result.value ≡ read_value read }
    ensures ended { result.ended ≡ false }
{
    let value = match read {
        Ok(number) => number.cast_signed(),
        Err(status) => -i32::from(status),
    };
    Answer {
        value,
        ended: false,
    }
}

/// The alarms that are due at the counter's next tick act, in their order: the set of those whose action was lost.
fn act_due(core: &mut Core, time: &Time, actions: &[Action], counter: u32) -> u64
    requires alarms { length actions.now ≡ length time.now.rules.alarms }
    requires clock { length time.now.clock.alarms ≡ length time.now.rules.alarms }
    requires few { length actions.now ≤ 64 }
    requires acts { All (IsActionIn (length core.old.rules.tasks)) actions.now }
    ensures lost { result ≡ alarm_set (act_list core.old.rules actions.now core.old.scheduler (due time.now.rules time.now.clock counter)).lost }
    ensures state { core.new ≡ record core.old { scheduler = (act_list core.old.rules actions.now core.old.scheduler (due time.now.rules time.now.clock counter)).scheduler } }
{
    let mut lost = 0;
    for alarm in 0..actions.len() {
        if time.is_due(counter, alarm as u32) {
            lost |= act_alarm(core, actions[alarm], alarm as u32);
        }
    }
    lost
}

/// One alarm acts: its own bit where the action was lost, else none.
fn act_alarm(core: &mut Core, action: Action, alarm: u32) -> u64
    requires action { IsActionIn (length core.old.rules.tasks) action }
    requires alarm { alarm < 64 }
    ensures lost { result ≡ alarm_set (lost_of (act core.old.rules core.old.scheduler action) alarm) }
    ensures state { core.new ≡ record core.old { scheduler = (act core.old.rules core.old.scheduler action).state } }
{
    if act(core, action) == E_OK {
        0
    } else {
        1 << alarm
    }
}

/// ActivateTask or SetEvent by an alarm: its status.
fn act(core: &mut Core, action: Action) -> u8
    requires { IsActionIn (length core.old.rules.tasks) action }
    ensures status { result ≡ (act core.old.rules core.old.scheduler action).status }
    ensures state { core.new ≡ record core.old { scheduler = (act core.old.rules core.old.scheduler action).state } }
{
    match action {
        Action::Activate { task } => core.activate(task),
        Action::Set { task, event } => core.set_event(task, 1 << event),
    }
}

/// The tasks with autostart are activated, in their order.
fn activate_all(core: &mut Core, autos: &[bool])
    requires each { length autos.now ≡ length core.old.rules.tasks }
    requires few { length autos.now ≤ 64 }
    ensures { core.new ≡ record core.old { scheduler = activate_all core.old.rules autos.now core.old.scheduler } }
{
    for task in 0..autos.len() {
        if autos[task] {
            let _ = core.activate(task as u32);
        }
    }
}

/// The alarms with autostart are set, in their order.
fn arm_all(time: &mut Time, starts: &[Option<Start>])
    requires each { length starts.now ≡ length time.old.rules.alarms }
    requires few { length starts.now ≤ 64 }
    ensures { time.new ≡ record time.old { clock = arm_all time.old.rules starts.now time.old.clock } }
{
    for alarm in 0..starts.len() {
        arm_started(time, alarm as u32, starts[alarm]);
    }
}

fn arm_started(time: &mut Time, alarm: u32, start: Option<Start>)
    requires { alarm < length time.old.rules.alarms }
    ensures { time.new ≡ record time.old { clock = arm_started time.old.rules time.old.clock alarm start } }
{
    if let Some(start) = start {
        let _ = time.set_rel(alarm, start.first, start.cycle);
    }
}

#[cfg(test)]
mod tests;
