//! The tasks.

ghost use Rattle.std.specs.Prelude.{◌≡◌, ◌≤◌, ◌<◌, ◌==◌, ◌^◌, codes, length, position, IfOk, IfSome};
ghost use Rattle.std.specs.List.{list_any};
ghost use Rattle.oil_in.specs.Scan.{Answers, next};
ghost use Rattle.oil_in.specs.Objects.{is_named};
ghost use Rattle.oil_in.specs.Tasks.{least, placed, place_at, places_at, used_at, waited_at, has_any, priority_at, schedule_at, activations_at, auto_at, task_body_at, task_at, tasks_at};

use crate::forms::{autostart_line, header, reference, schedule_line};
use crate::objects::{fresh, is_named, named, object_end};
use crate::scan::Scan;
use kes_text::{Kind, Stop};
use osek_core::{Name, TaskRow, TaskRule};
use sqlite_items::Items;
use std::alloc::Global;

const MOST_TASKS: usize = 64;

/// Where the name stands.
pub fn place_of(text: &[u8], names: &[Name]) -> Option<usize>
    ensures place { result ≡ position (is_named text.now) names.now }
    ensures within { IfSome result (λ place. place < length names.now) }
{
    names.iter().position(|name| is_named(text, name))
}

/// The least place that rises above those so far.
fn least(places: &[u32]) -> usize
    ensures { result ≡ least places.now }
{
    match places.last() {
        Some(place) => *place as usize + 1,
        None => 0,
    }
}

/// The place that a line names, with `rest` behind it. It must rise above those so far, in a task that
/// may have such lines.
#[tactic(auto, unfolding(crate::specs::Tasks::place_at))]
fn place_at<'a>(
    may: bool,
    names: &[Name],
    places: &[u32],
    name: &[u8],
    rest: &'a [u8],
    scan: Scan<'a>,
) -> Result<(u32, Scan<'a>), Stop>
    requires { length names.now < 2 ^ 32 }
    ensures read { Answers (λ x. x) result (place_at may names.now places.now (name.now, rest.now) scan.entry) }
    ensures rises { IfOk result (λ x. least places.now ≤ x.0) }
    ensures within { IfOk result (λ x. x.0 < length names.now) }
{
    match place_of(name, names) {
        Some(place) if place < least(places) => Err(scan.refused(Kind::Syntax)),
        Some(place) if may => Ok((place as u32, scan.next(rest))),
        None if may => Err(scan.refused(Kind::Unknown)),
        _ => Err(scan.refused(Kind::Range)),
    }
}

/// The places that lines name whose text begins with `front`.
fn places_at<'a>(
    alloc: Global,
    front: &str,
    may: bool,
    names: &[Name],
    start: Scan<'a>,
) -> Result<(Items<u32>, Scan<'a>), Stop>
    requires { length names.now < 2 ^ 32 }
    ensures { Answers (λ x. x) result (places_at front.now may names.now start.entry) }
{
    let mut places = Items::new(alloc);
    let mut scan = start;
    while let Some((name, rest)) = reference(front, scan.text()) {
        let (place, behind) = place_at(may, names, places.as_slice(), name, rest, scan)?;
        places.push(place)?;
        scan = behind;
    }
    Ok((places, scan))
}

/// The resources that a task uses.
#[tactic(auto, unfolding(crate::specs::Tasks::used_at))]
fn used_at<'a>(
    alloc: Global,
    resources: &[Name],
    scan: Scan<'a>,
) -> Result<(Items<u32>, Scan<'a>), Stop>
    requires { length resources.now < 2 ^ 32 }
    ensures { Answers (λ x. x) result (used_at resources.now scan.entry) }
{
    places_at(alloc, "    RESOURCE = r_", true, resources, scan)
}

/// The events that a task waits for, if it may.
#[tactic(auto, unfolding(crate::specs::Tasks::waited_at))]
fn waited_at<'a>(
    alloc: Global,
    may: bool,
    events: &[Name],
    scan: Scan<'a>,
) -> Result<(Items<u32>, Scan<'a>), Stop>
    requires { length events.now < 2 ^ 32 }
    ensures { Answers (λ x. x) result (waited_at may events.now scan.entry) }
{
    places_at(alloc, "    EVENT = e_", may, events, scan)
}

/// A task's priority.
#[tactic(auto, unfolding(crate::specs::Tasks::priority_at))]
fn priority_at(scan: Scan<'_>) -> Result<(u8, Scan<'_>), Stop>
    ensures { Answers (λ x. x) result (priority_at scan.entry) }
{
    let (priority, scan) = scan.number("    PRIORITY = ", 0, 63)?;
    Ok((priority as u8, scan))
}

/// Whether a task gives way to others at any time.
#[tactic(auto, unfolding(crate::specs::Tasks::schedule_at))]
fn schedule_at(scan: Scan<'_>) -> Result<(bool, Scan<'_>), Stop>
    ensures { Answers (λ x. x) result (schedule_at scan.entry) }
{
    match schedule_line(scan.text()) {
        Some((full, rest)) => Ok((full, scan.next(rest))),
        None => Err(scan.refused(Kind::Syntax)),
    }
}

/// How many activations of a task may be outstanding.
#[tactic(auto, unfolding(crate::specs::Tasks::activations_at))]
fn activations_at(scan: Scan<'_>) -> Result<(u8, Scan<'_>), Stop>
    ensures { Answers (λ x. x) result (activations_at scan.entry) }
{
    let (activations, scan) = scan.number("    ACTIVATION = ", 1, 15)?;
    Ok((activations as u8, scan))
}

/// Whether a task is activated when the kernel starts.
#[tactic(auto, unfolding(crate::specs::Tasks::auto_at))]
fn auto_at(scan: Scan<'_>) -> Result<(bool, Scan<'_>), Stop>
    ensures { Answers (λ x. x) result (auto_at scan.entry) }
{
    match autostart_line(scan.text()) {
        Some((auto, rest)) => Ok((auto, scan.next(rest))),
        None => Err(scan.refused(Kind::Syntax)),
    }
}

/// What is behind a task's first line, for the task's name.
#[tactic(auto, unfolding(crate::specs::Tasks::task_body_at))]
fn task_body_at<'a>(
    alloc: Global,
    resources: &[Name],
    events: &[Name],
    text: &[u8],
    scan: Scan<'a>,
) -> Result<(TaskRow, Scan<'a>), Stop>
    requires resources { length resources.now < 2 ^ 32 }
    requires events { length events.now < 2 ^ 32 }
    ensures { Answers (λ x. x) result (task_body_at resources.now events.now text.now scan.entry) }
{
    let (priority, scan) = priority_at(scan)?;
    let (preemptable, scan) = schedule_at(scan)?;
    let (activations, scan) = activations_at(scan)?;
    let (auto, scan) = auto_at(scan)?;
    let (resources, scan) = used_at(alloc, resources, scan)?;
    let (events, scan) = waited_at(alloc, activations == 1, events, scan)?;
    let scan = object_end(scan)?;
    let rule = TaskRule {
        priority,
        activations,
        preemptable,
        extended: !events.is_empty(),
    };
    let row = TaskRow {
        name: named(alloc, text)?,
        rule,
        auto,
        resources,
        events,
    };
    Ok((row, scan))
}

/// Whether one of the tasks has the name.
fn task_stands(text: &[u8], tasks: &[TaskRow]) -> bool
    ensures { result ≡ list_any (λ row. is_named text.now row.name) tasks.now }
{
    tasks.iter().any(|row| is_named(text, &row.name))
}

/// The task whose first line has the name, with `rest` behind it.
#[tactic(auto, unfolding(crate::specs::Tasks::task_at))]
fn task_at<'a>(
    alloc: Global,
    resources: &[Name],
    events: &[Name],
    tasks: &[TaskRow],
    name: &[u8],
    rest: &'a [u8],
    scan: Scan<'a>,
) -> Result<(TaskRow, Scan<'a>), Stop>
    requires resources { length resources.now < 2 ^ 32 }
    requires events { length events.now < 2 ^ 32 }
    ensures { Answers (λ x. x) result (task_at resources.now events.now tasks.now (name.now, rest.now) scan.entry) }
{
    let scan = fresh(task_stands(name, tasks), rest, scan)?;
    task_body_at(alloc, resources, events, name, scan)
}

/// The tasks.
pub fn tasks_at<'a>(
    alloc: Global,
    resources: &[Name],
    events: &[Name],
    start: Scan<'a>,
) -> Result<(Items<TaskRow>, Scan<'a>), Stop>
    requires resources { length resources.now < 2 ^ 32 }
    requires events { length events.now < 2 ^ 32 }
    ensures read { Answers (λ x. x) result (tasks_at resources.now events.now start.entry) }
    ensures few { IfOk result (λ x. length x.0 ≤ 64) }
{
    let mut tasks = Items::new(alloc);
    let mut scan = start;
    while let Some((name, rest)) = header("  TASK t_", scan.text()) {
        if tasks.len() == MOST_TASKS {
            return Err(scan.refused(Kind::Room));
        }
        let rows = tasks.as_slice();
        let (task, behind) = task_at(alloc, resources, events, rows, name, rest, scan)?;
        tasks.push(task)?;
        scan = behind;
    }
    Ok((tasks, scan))
}
