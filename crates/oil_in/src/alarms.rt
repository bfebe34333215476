//! The alarms.

ghost use Rattle.std.specs.Prelude.{◌≡◌, ◌≤◌, ◌<◌, ◌==◌, ◌^◌, length, position, IfSome};
ghost use Rattle.std.specs.List.{list_any};
ghost use Rattle.oil_in.specs.Pieces.{behind};
ghost use Rattle.oil_in.specs.Scan.{Answers, next};
ghost use Rattle.oil_in.specs.Objects.{is_named};
ghost use Rattle.oil_in.specs.Alarms.{known, counter_place_at, rule_at, task_named, waits, set_of, activation_of, action_of, action_at, is_start, start_of, start_read, start_at, alarm_body_at, alarm_at, alarms_at};

use crate::forms::{activate_line, header, reference, set_line, started_line};
use crate::objects::{fresh, is_named, named, object_end};
use crate::pieces::{Number, behind};
use crate::scan::Scan;
use crate::tasks::place_of;
use kes_text::{Kind, Stop};
use osek_core::{Action, AlarmRow, CounterRow, CounterRule, Name, Start, TaskRow};
use sqlite_items::Items;
use std::alloc::Global;

const MOST_ALARMS: usize = 64;

/// What a line's names stand for, with `rest` behind it.
fn known<'a, T: Copy>(
    value: Option<T>,
    rest: &'a [u8],
    scan: Scan<'a>,
) -> Result<(T, Scan<'a>), Stop>
    ensures { Answers (λ x. x) result (known value scan.entry (next scan.entry rest.now)) }
{
    match value {
        Some(value) => Ok((value, scan.next(rest))),
        None => Err(scan.refused(Kind::Unknown)),
    }
}

/// Where the counter of the name stands.
fn counter_named(text: &[u8], counters: &[CounterRow]) -> Option<usize>
    ensures place { result ≡ position (λ row. is_named text.now row.name) counters.now }
    ensures within { IfSome result (λ place. place < length counters.now) }
{
    counters.iter().position(|row| is_named(text, &row.name))
}

/// The same as a table has it.
fn counter_place(text: &[u8], counters: &[CounterRow]) -> Option<u32>
    requires { length counters.now < 2 ^ 32 }
    ensures { result ≡ position (λ row. is_named text.now row.name) counters.now }
{
    let place = counter_named(text, counters)?;
    Some(place as u32)
}

/// The place of an alarm's counter.
#[tactic(auto, unfolding(crate::specs::Alarms::counter_place_at))]
fn counter_place_at<'a>(counters: &[CounterRow], scan: Scan<'a>) -> Result<(u32, Scan<'a>), Stop>
    requires { length counters.now < 2 ^ 32 }
    ensures { Answers (λ x. x) result (counter_place_at counters.now scan.entry) }
{
    let Some((name, rest)) = reference("    COUNTER = c_", scan.text()) else {
        return Err(scan.refused(Kind::Syntax));
    };
    known(counter_place(name, counters), rest, scan)
}

/// The rule of the counter at a place.
fn rule_at(counters: &[CounterRow], place: u32) -> CounterRule
    ensures { result ≡ rule_at counters.now place }
{
    match counters.get(place as usize) {
        Some(row) => row.rule,
        None => CounterRule {
            max: 0,
            base: 0,
            min: 0,
        },
    }
}

/// Where the task of the name stands.
fn task_named(text: &[u8], tasks: &[TaskRow]) -> Option<usize>
    ensures place { result ≡ task_named tasks.now text.now }
    ensures within { IfSome result (λ place. place < length tasks.now) }
{
    tasks.iter().position(|row| is_named(text, &row.name))
}

/// Whether the task waits for the event.
fn has_event(row: &TaskRow, event: u32) -> bool
    ensures { result ≡ list_any (λ k. k == event) row.now.events }
{
    row.events.as_slice().iter().any(|place| *place == event)
}

/// Whether the task at a place waits for the event.
fn waits(tasks: &[TaskRow], task: usize, event: u32) -> bool
    ensures { result ≡ waits tasks.now task event }
{
    match tasks.get(task) {
        Some(row) => has_event(row, event),
        None => false,
    }
}

/// The action that activates the task of the name.
fn activation_of(tasks: &[TaskRow], text: &[u8]) -> Option<Action>
    requires { length tasks.now < 2 ^ 32 }
    ensures { result ≡ activation_of (task_named tasks.now text.now) }
{
    let task = task_named(text, tasks)?;
    Some(Action::Activate { task: task as u32 })
}

/// The action that sets the event for the task, which must wait for it.
fn set_of(events: &[Name], tasks: &[TaskRow], task: &[u8], event: &[u8]) -> Option<Action>
    requires events { length events.now < 2 ^ 32 }
    requires tasks { length tasks.now < 2 ^ 32 }
    ensures { result ≡ set_of tasks.now (task_named tasks.now task.now) (position (is_named event.now) events.now) }
{
    let task = task_named(task, tasks)?;
    let event = place_of(event, events)? as u32;
    if waits(tasks, task, event) {
        let task = task as u32;
        Some(Action::Set { task, event })
    } else {
        None
    }
}

/// What an alarm does when it is due.
#[tactic(auto, unfolding(crate::specs::Alarms::action_at))]
fn action_at<'a>(
    events: &[Name],
    tasks: &[TaskRow],
    scan: Scan<'a>,
) -> Result<(Action, Scan<'a>), Stop>
    requires events { length events.now < 2 ^ 32 }
    requires tasks { length tasks.now < 2 ^ 32 }
    ensures { Answers (λ x. x) result (action_at events.now tasks.now scan.entry) }
{
    if let Some((task, rest)) = activate_line(scan.text()) {
        return known(activation_of(tasks, task), rest, scan);
    }
    match set_line(scan.text()) {
        Some((task, event, rest)) => known(set_of(events, tasks, task, event), rest, scan),
        None => Err(scan.refused(Kind::Syntax)),
    }
}

/// Whether the numbers of a start are within those of the counter.
fn is_start(rule: CounterRule, first: u64, cycle: u64) -> bool
    ensures { result ≡ is_start rule first cycle }
{
    let max = u64::from(rule.max);
    let min = u64::from(rule.min);
    (1 <= first && first <= max) && (cycle == 0 || (min <= cycle && cycle <= max))
}

/// The start, if its numbers are within those of the counter.
fn start_of(rule: CounterRule, first: Number, cycle: Number) -> Option<Start>
    ensures { result ≡ start_of rule first cycle }
{
    match (first, cycle) {
        (Number::Value(first), Number::Value(cycle)) if is_start(rule, first, cycle) => {
            Some(Start {
                first: first as u32,
                cycle: cycle as u32,
            })
        }
        _ => None,
    }
}

/// When an alarm that starts with the kernel is due.
#[tactic(auto, unfolding(crate::specs::Alarms::start_at))]
fn start_at(rule: CounterRule, scan: Scan<'_>) -> Result<(Option<Start>, Scan<'_>), Stop>
    ensures { Answers (λ x. x) result (start_at rule scan.entry) }
{
    if let Some(rest) = behind("    AUTOSTART = FALSE;\n", scan.text()) {
        return Ok((None, scan.next(rest)));
    }
    let Some((first, cycle, rest)) = started_line(scan.text()) else {
        return Err(scan.refused(Kind::Syntax));
    };
    match start_of(rule, first, cycle) {
        Some(start) => Ok((Some(start), scan.next(rest))),
        None => Err(scan.refused(Kind::Range)),
    }
}

/// What is behind an alarm's first line, for the alarm's name.
#[tactic(auto, unfolding(crate::specs::Alarms::alarm_body_at))]
fn alarm_body_at<'a>(
    alloc: Global,
    events: &[Name],
    counters: &[CounterRow],
    tasks: &[TaskRow],
    text: &[u8],
    scan: Scan<'a>,
) -> Result<(AlarmRow, Scan<'a>), Stop>
    requires events { length events.now < 2 ^ 32 }
    requires counters { length counters.now < 2 ^ 32 }
    requires tasks { length tasks.now < 2 ^ 32 }
    ensures { Answers (λ x. x) result (alarm_body_at events.now counters.now tasks.now text.now scan.entry) }
{
    let (counter, scan) = counter_place_at(counters, scan)?;
    let (action, scan) = action_at(events, tasks, scan)?;
    let (start, scan) = start_at(rule_at(counters, counter), scan)?;
    let scan = object_end(scan)?;
    let row = AlarmRow {
        name: named(alloc, text)?,
        counter,
        action,
        start,
    };
    Ok((row, scan))
}

/// Whether one of the alarms has the name.
fn alarm_stands(text: &[u8], alarms: &[AlarmRow]) -> bool
    ensures { result ≡ list_any (λ row. is_named text.now row.name) alarms.now }
{
    alarms.iter().any(|row| is_named(text, &row.name))
}

/// The alarm whose first line has the name, with `rest` behind it.
#[tactic(auto, unfolding(crate::specs::Alarms::alarm_at))]
fn alarm_at<'a>(
    alloc: Global,
    events: &[Name],
    counters: &[CounterRow],
    tasks: &[TaskRow],
    alarms: &[AlarmRow],
    name: &[u8],
    rest: &'a [u8],
    scan: Scan<'a>,
) -> Result<(AlarmRow, Scan<'a>), Stop>
    requires events { length events.now < 2 ^ 32 }
    requires counters { length counters.now < 2 ^ 32 }
    requires tasks { length tasks.now < 2 ^ 32 }
    ensures { Answers (λ x. x) result (alarm_at events.now counters.now tasks.now alarms.now (name.now, rest.now) scan.entry) }
{
    let scan = fresh(alarm_stands(name, alarms), rest, scan)?;
    alarm_body_at(alloc, events, counters, tasks, name, scan)
}

/// The alarms.
pub fn alarms_at<'a>(
    alloc: Global,
    events: &[Name],
    counters: &[CounterRow],
    tasks: &[TaskRow],
    start: Scan<'a>,
) -> Result<(Items<AlarmRow>, Scan<'a>), Stop>
    requires events { length events.now < 2 ^ 32 }
    requires counters { length counters.now < 2 ^ 32 }
    requires tasks { length tasks.now < 2 ^ 32 }
    ensures { Answers (λ x. x) result (alarms_at events.now counters.now tasks.now start.entry) }
{
    let mut alarms = Items::new(alloc);
    let mut scan = start;
    while let Some((name, rest)) = header("  ALARM a_", scan.text()) {
        if alarms.len() == MOST_ALARMS {
            return Err(scan.refused(Kind::Room));
        }
        let rows = alarms.as_slice();
        let (alarm, behind) = alarm_at(alloc, events, counters, tasks, rows, name, rest, scan)?;
        alarms.push(alarm)?;
        scan = behind;
    }
    Ok((alarms, scan))
}
