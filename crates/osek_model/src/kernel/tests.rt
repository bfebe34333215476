ghost use Rattle.std.specs.Prelude.{◌≡◌, ◌≤◌, IfOk, None, length};
ghost use Rattle.osek_model.specs.Call.{IsCallOf};

use super::*;
use osek_core::{CounterRule, TaskRule};
use sqlite_items::Items;
use std::test::Fail;

const BASIC: TaskRule = TaskRule {
    priority: 1,
    activations: 2,
    preemptable: true,
    extended: false,
};

const WAITS: TaskRule = TaskRule {
    activations: 1,
    extended: true,
    ..BASIC
};

const HIGH: TaskRule = TaskRule {
    priority: 5,
    activations: 1,
    ..BASIC
};

const FIXED: TaskRule = TaskRule {
    preemptable: false,
    ..WAITS
};

const ROUND: CounterRule = CounterRule {
    max: 4,
    base: 1,
    min: 1,
};

/// Tasks 0 and 1 of one priority, of which 0 waits, 2 above them, and 3 that isn't preempted; alarm 0 activates task 2,
/// alarm 1 sets event 0 of task 0.
fn rig(alloc: Global, autos: [bool; 4]) -> Result<Kernel, AllocError>
    ensures tasks { IfOk result (λ kernel. 4 ≤ length kernel.plan.rules.tasks) }
    ensures resources { IfOk result (λ kernel. 2 ≤ length kernel.plan.rules.ceilings) }
    ensures alarms { IfOk result (λ kernel. 2 ≤ length kernel.plan.clock.alarms) }
    ensures counters { IfOk result (λ kernel. 1 ≤ length kernel.plan.clock.counters) }
{
    let actions = [
        Action::Activate { task: 2 },
        Action::Set { task: 0, event: 0 },
    ];
    Ok(Kernel {
        core: Core::new(alloc, &[WAITS, BASIC, HIGH, FIXED], &[5, 1])?,
        time: Time::new(alloc, &[ROUND], &[0, 0])?,
        autos: Vec::from_slice(alloc, &autos)?,
        actions: Vec::from_slice(alloc, &actions)?,
        starts: Vec::from_slice(alloc, &[None, None])?,
        suspended: false,
        shut: false,
    })
}

/// What the service answers, where a job runs that can call it.
fn serve(kernel: &mut Kernel, call: Call) -> Option<i32>
    requires objects { IsCallOf kernel.old.plan call }
    ensures { kernel.new.plan ≡ kernel.old.plan }
{
    match kernel.running() {
        None => None,
        Some(_) => Some(kernel.service(call).value),
    }
}

#[test]
fn kernel_without_objects_idles(rt: HostRuntime) -> Result<(), Fail> {
    let alloc = rt.alloc();
    let tables = Tables {
        events: Items::new(alloc),
        resources: Items::new(alloc),
        counters: Items::new(alloc),
        tasks: Items::new(alloc),
        alarms: Items::new(alloc),
    };
    let mut kernel = Kernel::new(alloc, &tables)?;
    kernel.start();
    assert_eq!(rt; kernel.running(), None);
    kernel.suspend();
    assert!(rt; kernel.suspended());
    kernel.resume();
    assert!(rt; !kernel.suspended());
    kernel.shutdown();
    assert!(rt; kernel.shut());
    Ok(())
}

#[test]
fn preempted_job_goes_on_before_its_equals(rt: HostRuntime) -> Result<(), Fail> {
    let mut kernel = rig(rt.alloc(), [true, true, false, false])?;
    kernel.start();
    assert_eq!(rt;
        serve(
            &mut kernel,
            Call::SetRelAlarm {
                alarm: 0,
                first: 2,
                cycle: 0
            }
        ),
        Some(0)
    );
    assert_eq!(rt; serve(&mut kernel, Call::GetAlarm { alarm: 0 }), Some(2));
    assert_eq!(rt; kernel.tick(0), 0);
    assert_eq!(rt; kernel.tick(0), 0);
    assert_eq!(rt; kernel.running(), Some(2));
    assert_eq!(rt; serve(&mut kernel, Call::GetAlarm { alarm: 0 }), Some(-5));
    assert_eq!(rt; serve(&mut kernel, Call::TerminateTask), Some(0));
    assert_eq!(rt; kernel.running(), Some(0));
    Ok(())
}

#[test]
fn resource_raises_its_holder_until_it_is_released(rt: HostRuntime) -> Result<(), Fail> {
    let mut kernel = rig(rt.alloc(), [false, true, false, false])?;
    kernel.start();
    assert_eq!(rt;
        serve(&mut kernel, Call::GetResource { resource: 1 }),
        Some(0)
    );
    assert_eq!(rt;
        serve(&mut kernel, Call::GetResource { resource: 0 }),
        Some(0)
    );
    assert_eq!(rt; serve(&mut kernel, Call::ActivateTask { task: 2 }), Some(0));
    assert_eq!(rt; kernel.running(), Some(1));
    assert_eq!(rt;
        serve(&mut kernel, Call::ReleaseResource { resource: 1 }),
        Some(5)
    );
    assert_eq!(rt;
        serve(&mut kernel, Call::ReleaseResource { resource: 0 }),
        Some(0)
    );
    assert_eq!(rt; kernel.running(), Some(2));
    Ok(())
}

#[test]
fn task_that_is_not_preempted_gives_way_itself(rt: HostRuntime) -> Result<(), Fail> {
    let mut kernel = rig(rt.alloc(), [false, false, false, true])?;
    kernel.start();
    assert_eq!(rt; serve(&mut kernel, Call::ActivateTask { task: 2 }), Some(0));
    assert_eq!(rt; kernel.running(), Some(3));
    assert_eq!(rt; serve(&mut kernel, Call::Schedule), Some(0));
    assert_eq!(rt; kernel.running(), Some(2));
    assert_eq!(rt; serve(&mut kernel, Call::ChainTask { task: 1 }), Some(0));
    assert_eq!(rt; serve(&mut kernel, Call::WaitEvent { mask: 1 }), Some(0));
    assert_eq!(rt; kernel.running(), Some(1));
    Ok(())
}

#[test]
fn activations_queue_up_to_their_limit(rt: HostRuntime) -> Result<(), Fail> {
    let mut kernel = rig(rt.alloc(), [false, true, false, false])?;
    kernel.start();
    assert_eq!(rt; serve(&mut kernel, Call::ActivateTask { task: 1 }), Some(0));
    assert_eq!(rt; serve(&mut kernel, Call::ActivateTask { task: 1 }), Some(4));
    assert_eq!(rt; serve(&mut kernel, Call::ChainTask { task: 1 }), Some(0));
    assert_eq!(rt; serve(&mut kernel, Call::TerminateTask), Some(0));
    assert_eq!(rt; kernel.running(), Some(1));
    assert_eq!(rt; serve(&mut kernel, Call::TerminateTask), Some(0));
    assert_eq!(rt; kernel.running(), None);
    Ok(())
}

#[test]
fn events_are_set_before_during_and_after_a_wait(rt: HostRuntime) -> Result<(), Fail> {
    let mut kernel = rig(rt.alloc(), [true, true, false, false])?;
    kernel.start();
    assert_eq!(rt;
        serve(&mut kernel, Call::SetEvent { task: 0, mask: 1 }),
        Some(0)
    );
    assert_eq!(rt; serve(&mut kernel, Call::WaitEvent { mask: 1 }), Some(0));
    assert_eq!(rt; serve(&mut kernel, Call::ClearEvent { mask: 1 }), Some(0));
    assert_eq!(rt; serve(&mut kernel, Call::WaitEvent { mask: 1 }), Some(0));
    assert_eq!(rt; kernel.running(), Some(1));
    assert_eq!(rt;
        serve(&mut kernel, Call::SetEvent { task: 0, mask: 2 }),
        Some(0)
    );
    assert_eq!(rt;
        serve(&mut kernel, Call::SetEvent { task: 0, mask: 1 }),
        Some(0)
    );
    assert_eq!(rt; serve(&mut kernel, Call::GetEvent { task: 0 }), Some(3));
    assert_eq!(rt; serve(&mut kernel, Call::TerminateTask), Some(0));
    assert_eq!(rt; kernel.running(), Some(0));
    Ok(())
}

#[test]
fn refused_actions_of_alarms_are_lost(rt: HostRuntime) -> Result<(), Fail> {
    let mut kernel = rig(rt.alloc(), [false, true, false, false])?;
    kernel.start();
    assert_eq!(rt;
        serve(
            &mut kernel,
            Call::SetAbsAlarm {
                alarm: 0,
                first: 1,
                cycle: 2
            }
        ),
        Some(0)
    );
    assert_eq!(rt;
        serve(
            &mut kernel,
            Call::SetRelAlarm {
                alarm: 1,
                first: 1,
                cycle: 0
            }
        ),
        Some(0)
    );
    assert_eq!(rt; kernel.tick(0), 2);
    assert_eq!(rt; kernel.running(), Some(2));
    assert_eq!(rt; kernel.tick(0), 0);
    assert_eq!(rt; kernel.tick(0), 1);
    assert_eq!(rt; serve(&mut kernel, Call::CancelAlarm { alarm: 0 }), Some(0));
    assert_eq!(rt; serve(&mut kernel, Call::CancelAlarm { alarm: 1 }), Some(5));
    Ok(())
}

#[test]
fn absolute_alarm_waits_for_the_counter_to_wrap(rt: HostRuntime) -> Result<(), Fail> {
    let mut kernel = rig(rt.alloc(), [false, true, false, false])?;
    kernel.start();
    assert_eq!(rt;
        serve(
            &mut kernel,
            Call::SetAbsAlarm {
                alarm: 0,
                first: 0,
                cycle: 0
            }
        ),
        Some(0)
    );
    assert_eq!(rt; serve(&mut kernel, Call::GetAlarm { alarm: 0 }), Some(5));
    assert_eq!(rt; kernel.tick(0), 0);
    assert_eq!(rt; kernel.tick(0), 0);
    assert_eq!(rt; kernel.tick(0), 0);
    assert_eq!(rt; kernel.tick(0), 0);
    assert_eq!(rt; kernel.running(), Some(1));
    assert_eq!(rt; kernel.tick(0), 0);
    assert_eq!(rt; kernel.running(), Some(2));
    Ok(())
}
