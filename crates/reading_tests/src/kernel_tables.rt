use kconfig::*;
use osek_core::{AlarmRow, CounterRow, CounterRule, Name, Start, TaskRow, TaskRule};
use std::alloc::Global;
use std::test::Fail;

const SEVERAL: &str = "keso 1 order little
domain d heap 64
event go
event halt
event log
resource bus
resource led
counter ms max 1000 base 2 min 5
counter s max 60 base 1 min 1
task low domain d prio 1 acts 1 auto yes sched full entry A.low
task high domain d prio 63 acts 15 auto no sched non entry A.high
task other domain d prio 0 acts 1 auto no sched full entry A.other
use low led
use high led
use low bus
wait other log
alarm beat counter s activate high
alarm late counter ms set low halt
alarm idle counter ms activate low
start late at 1000 cycle 5
start beat at 1 cycle 0
wait low halt
wait other go";

/// The names, each with a blank behind it.
fn names_in(alloc: Global, names: &[Name]) -> Result<Vec<u8>, Fail> {
    let mut text = Vec::new(alloc);
    for name in names {
        text.extend_from_slice(name.text.as_slice())?;
        text.push(b' ')?;
    }
    Ok(text)
}

fn is_counter(row: &CounterRow, name: &[u8], rule: CounterRule) -> bool {
    row.name.text.as_slice() == name && row.rule == rule
}

fn is_task(row: &TaskRow, name: &[u8], rule: TaskRule, auto: bool) -> bool {
    row.name.text.as_slice() == name && row.rule == rule && row.auto == auto
}

fn has_places(row: &TaskRow, resources: &[u32], events: &[u32]) -> bool {
    row.resources.as_slice() == resources && row.events.as_slice() == events
}

fn is_alarm(
    row: &AlarmRow,
    name: &[u8],
    counter: u32,
    action: Action,
    start: Option<Start>,
) -> bool {
    row.name.text.as_slice() == name
        && row.counter == counter
        && row.action == action
        && row.start == start
}

#[test]
fn names_of_events_and_resources_stand_in_line_order(rt: HostRuntime) -> Result<(), Fail> {
    let config = read_config(rt.alloc(), SEVERAL.as_bytes())?;
    let tables = tables(rt.alloc(), &config)?;
    let events = names_in(rt.alloc(), tables.events.as_slice())?;
    assert_eq!(rt; events.as_slice(), b"go halt log ".as_slice());
    let resources = names_in(rt.alloc(), tables.resources.as_slice())?;
    assert_eq!(rt; resources.as_slice(), b"bus led ".as_slice());
    Ok(())
}

#[test]
fn counters_have_their_rows(rt: HostRuntime) -> Result<(), Fail> {
    let config = read_config(rt.alloc(), SEVERAL.as_bytes())?;
    let tables = tables(rt.alloc(), &config)?;
    let [ms, s] = tables.counters.as_slice() else {
        return Err(Fail::from("there are not two counters"));
    };
    let rule = CounterRule {
        max: 1000,
        base: 2,
        min: 5,
    };
    assert!(rt; is_counter(ms, b"ms", rule));
    let rule = CounterRule {
        max: 60,
        base: 1,
        min: 1,
    };
    assert!(rt; is_counter(s, b"s", rule));
    Ok(())
}

#[test]
fn tasks_have_their_rows(rt: HostRuntime) -> Result<(), Fail> {
    let config = read_config(rt.alloc(), SEVERAL.as_bytes())?;
    let tables = tables(rt.alloc(), &config)?;
    let [low, high, other] = tables.tasks.as_slice() else {
        return Err(Fail::from("there are not three tasks"));
    };
    let waiting = TaskRule {
        priority: 1,
        activations: 1,
        preemptable: true,
        extended: true,
    };
    assert!(rt; is_task(low, b"low", waiting, true));
    assert!(rt; has_places(low, &[0, 1], &[1]));
    let basic = TaskRule {
        priority: 63,
        activations: 15,
        preemptable: false,
        extended: false,
    };
    assert!(rt; is_task(high, b"high", basic, false));
    assert!(rt; has_places(high, &[1], &[]));
    let lowest = TaskRule {
        priority: 0,
        ..waiting
    };
    assert!(rt; is_task(other, b"other", lowest, false));
    assert!(rt; has_places(other, &[], &[0, 2]));
    Ok(())
}

#[test]
fn alarms_have_their_rows(rt: HostRuntime) -> Result<(), Fail> {
    let config = read_config(rt.alloc(), SEVERAL.as_bytes())?;
    let tables = tables(rt.alloc(), &config)?;
    let [beat, late, idle] = tables.alarms.as_slice() else {
        return Err(Fail::from("there are not three alarms"));
    };
    let start = Start { first: 1, cycle: 0 };
    let activates = Action::Activate { task: 1 };
    assert!(rt; is_alarm(beat, b"beat", 1, activates, Some(start)));
    let start = Start {
        first: 1000,
        cycle: 5,
    };
    let sets = Action::Set { task: 0, event: 1 };
    assert!(rt; is_alarm(late, b"late", 0, sets, Some(start)));
    let activates = Action::Activate { task: 0 };
    assert!(rt; is_alarm(idle, b"idle", 0, activates, None));
    Ok(())
}
