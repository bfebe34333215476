ghost use Rattle.std.specs.Prelude.{◌≡◌, ◌≤◌, IfOk, length};
ghost use Rattle.osek_model.specs.Call.{IsCallOf};
ghost use Rattle.system.specs.Worked.{only_task, only_counter, only_alarm, one_task};

use super::*;
use crate::lost_alarms;
use osek_core::{Action, AlarmRow, CounterRow, CounterRule, Name, Start, TaskRow, TaskRule};
use sqlite_items::Items;
use std::test::Fail;

fn name(alloc: Global, text: &[u8]) -> Result<Name, AllocError>
    ensures { IfOk result (λ name. name.text ≡ text.now) }
{
    Ok(Name {
        text: Items::from_slice(alloc, text)?,
    })
}

fn task(alloc: Global) -> Result<TaskRow, AllocError>
    ensures { IfOk result (λ row. row ≡ only_task) }
{
    Ok(TaskRow {
        name: name(alloc, b"t")?,
        rule: TaskRule {
            priority: 1,
            activations: 1,
            preemptable: true,
            extended: false,
        },
        auto: true,
        resources: Items::new(alloc),
        events: Items::new(alloc),
    })
}

fn counter(alloc: Global) -> Result<CounterRow, AllocError>
    ensures { IfOk result (λ row. row ≡ only_counter) }
{
    Ok(CounterRow {
        name: name(alloc, b"c")?,
        rule: CounterRule {
            max: 9,
            base: 1,
            min: 1,
        },
    })
}

fn alarm(alloc: Global) -> Result<AlarmRow, AllocError>
    ensures { IfOk result (λ row. row ≡ only_alarm) }
{
    Ok(AlarmRow {
        name: name(alloc, b"a")?,
        counter: 0,
        action: Action::Activate { task: 0 },
        start: Some(Start { first: 1, cycle: 1 }),
    })
}

/// One task that starts with the kernel, and an alarm that activates it at each tick.
fn tables(alloc: Global) -> Result<Tables, AllocError>
    ensures { IfOk result (λ tables. tables ≡ one_task) }
{
    let mut tasks = Items::new(alloc);
    tasks.push(task(alloc)?)?;
    let mut counters = Items::new(alloc);
    counters.push(counter(alloc)?)?;
    let mut alarms = Items::new(alloc);
    alarms.push(alarm(alloc)?)?;
    Ok(Tables {
        events: Items::new(alloc),
        resources: Items::new(alloc),
        counters,
        tasks,
        alarms,
    })
}

fn rig(alloc: Global, has_initialisers: bool) -> Result<System, AllocError>
    ensures { IfOk result (λ s. length s.plan.clock.counters ≡ 1) }
{
    let tables = tables(alloc)?;
    System::new(alloc, &tables, has_initialisers)
}

/// What the service answers, where a job runs that can call it.
fn serve(system: &mut System, call: Call) -> Option<i32>
    requires objects { IsCallOf system.old.plan call }
    ensures { system.new.plan ≡ system.old.plan }
{
    match system.acting() {
        Some(Who::Task(_)) => Some(system.service(call).value),
        _ => None,
    }
}

/// Whether the start acted, and is done.
fn start(system: &mut System) -> bool
    ensures { system.new.plan ≡ system.old.plan }
{
    match system.acting() {
        Some(Who::Start) => {
            system.start();
            true
        }
        _ => false,
    }
}

#[test]
fn initialisers_run_before_the_first_job(rt: HostRuntime) -> Result<(), Fail> {
    let mut system = rig(rt.alloc(), true)?;
    assert_eq!(rt; system.acting(), Some(Who::Start));
    assert_eq!(rt; system.tick(0), 0);
    assert_eq!(rt; serve(&mut system, Call::TerminateTask), None);
    assert!(rt; start(&mut system));
    assert_eq!(rt; system.acting(), Some(Who::Task(0)));
    assert!(rt; !start(&mut system));
    Ok(())
}

#[test]
fn lost_alarm_is_told_and_a_shut_system_rests(rt: HostRuntime) -> Result<(), Fail> {
    let mut system = rig(rt.alloc(), false)?;
    let lost = lost_alarms(rt.alloc(), system.tick(0))?;
    assert_eq!(rt; lost.len(), 1);
    assert_eq!(rt; lost[0], 0);
    assert_eq!(rt; serve(&mut system, Call::TerminateTask), Some(0));
    assert_eq!(rt; system.acting(), None);
    assert_eq!(rt; system.tick(0), 0);
    assert_eq!(rt; system.acting(), Some(Who::Task(0)));
    system.shut_down();
    assert_eq!(rt; system.acting(), None);
    assert_eq!(rt; system.tick(0), 0);
    Ok(())
}
