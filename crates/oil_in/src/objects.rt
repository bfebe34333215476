//! The events, resources and counters.

ghost use Rattle.std.specs.Prelude.{◌≡◌, ◌≤◌, ◌<◌, codes, length, IfOk};
ghost use Rattle.std.specs.List.{list_any};
ghost use Rattle.oil_in.specs.Pieces.{behind};
ghost use Rattle.oil_in.specs.Scan.{Answers, fixed};
ghost use Rattle.oil_in.specs.Objects.{object_end, fresh, is_named, mask_at, event_at, events_at, property_at, resource_at, resources_at, max_at, base_at, min_at, counter_rule_at, counter_at, counters_at};

use crate::forms::{header, number_line};
use crate::pieces::Number;
use crate::scan::Scan;
use kes_text::{Kind, NoMemory, Stop};
use osek_core::{CounterRow, CounterRule, Name};
use sqlite_items::Items;
use std::alloc::Global;

const MOST_EVENTS: usize = 31;

const MOST_RESOURCES: usize = 32;

const MOST_COUNTERS: usize = 8;

/// Behind an object's last line.
#[tactic(auto, unfolding(crate::specs::Objects::object_end))]
pub fn object_end(scan: Scan<'_>) -> Result<Scan<'_>, Stop>
    ensures { Answers (λ x. x) result (object_end scan.entry) }
{
    scan.fixed("  };\n")
}

/// Behind an object's first line, unless its name stands already.
pub fn fresh<'a>(stands: bool, rest: &'a [u8], scan: Scan<'a>) -> Result<Scan<'a>, Stop>
    ensures { Answers (λ x. x) result (fresh stands rest.now scan.entry) }
{
    if stands {
        Err(scan.refused(Kind::Twice))
    } else {
        Ok(scan.next(rest))
    }
}

pub fn named(alloc: Global, text: &[u8]) -> Result<Name, NoMemory>
    ensures { IfOk result (λ name. name ≡ record { text = text.now }) }
{
    let text = Items::from_slice(alloc, text)?;
    Ok(Name { text })
}

pub fn is_named(text: &[u8], name: &Name) -> bool
    ensures { result ≡ is_named text.now name.now }
{
    name.text.as_slice() == text
}

/// Whether one of the names is this one.
fn stands(text: &[u8], names: &[Name]) -> bool
    ensures { result ≡ list_any (is_named text.now) names.now }
{
    names.iter().any(|name| is_named(text, name))
}

/// Behind the mask of the event at a place.
#[tactic(auto, unfolding(crate::specs::Objects::mask_at))]
fn mask_at(place: usize, scan: Scan<'_>) -> Result<Scan<'_>, Stop>
    requires { place < 64 }
    ensures { Answers (λ x. x) result (mask_at place scan.entry) }
{
    let Some((number, rest)) = number_line("    MASK = ", scan.text()) else {
        return Err(scan.refused(Kind::Syntax));
    };
    match number {
        Number::Large => Err(scan.refused(Kind::Range)),
        Number::Value(number) if number == 1 << place => Ok(scan.next(rest)),
        Number::Value(_) => Err(scan.refused(Kind::Syntax)),
    }
}

/// The event whose first line has the name, with `rest` behind it.
#[tactic(auto, unfolding(crate::specs::Objects::event_at))]
fn event_at<'a>(
    alloc: Global,
    events: &[Name],
    name: &[u8],
    rest: &'a [u8],
    scan: Scan<'a>,
) -> Result<(Name, Scan<'a>), Stop>
    requires { length events.now < 31 }
    ensures { Answers (λ x. x) result (event_at events.now (name.now, rest.now) scan.entry) }
{
    let scan = fresh(stands(name, events), rest, scan)?;
    let scan = mask_at(events.len(), scan)?;
    let scan = object_end(scan)?;
    Ok((named(alloc, name)?, scan))
}

/// The events.
pub fn events_at(alloc: Global, start: Scan<'_>) -> Result<(Items<Name>, Scan<'_>), Stop>
    ensures read { Answers (λ x. x) result (events_at start.entry) }
    ensures few { IfOk result (λ x. length x.0 ≤ 31) }
{
    let mut events = Items::new(alloc);
    let mut scan = start;
    while let Some((name, rest)) = header("  EVENT e_", scan.text()) {
        if events.len() == MOST_EVENTS {
            return Err(scan.refused(Kind::Room));
        }
        let (event, behind) = event_at(alloc, events.as_slice(), name, rest, scan)?;
        events.push(event)?;
        scan = behind;
    }
    Ok((events, scan))
}

/// Behind the property of a resource.
#[tactic(auto, unfolding(crate::specs::Objects::property_at))]
fn property_at(scan: Scan<'_>) -> Result<Scan<'_>, Stop>
    ensures { Answers (λ x. x) result (property_at scan.entry) }
{
    scan.fixed("    RESOURCEPROPERTY = STANDARD;\n")
}

/// The resource whose first line has the name, with `rest` behind it.
#[tactic(auto, unfolding(crate::specs::Objects::resource_at))]
fn resource_at<'a>(
    alloc: Global,
    resources: &[Name],
    name: &[u8],
    rest: &'a [u8],
    scan: Scan<'a>,
) -> Result<(Name, Scan<'a>), Stop>
    ensures { Answers (λ x. x) result (resource_at resources.now (name.now, rest.now) scan.entry) }
{
    let scan = fresh(stands(name, resources), rest, scan)?;
    let scan = property_at(scan)?;
    let scan = object_end(scan)?;
    Ok((named(alloc, name)?, scan))
}

/// The resources.
pub fn resources_at(alloc: Global, start: Scan<'_>) -> Result<(Items<Name>, Scan<'_>), Stop>
    ensures read { Answers (λ x. x) result (resources_at start.entry) }
    ensures few { IfOk result (λ x. length x.0 ≤ 32) }
{
    let mut resources = Items::new(alloc);
    let mut scan = start;
    while let Some((name, rest)) = header("  RESOURCE r_", scan.text()) {
        if resources.len() == MOST_RESOURCES {
            return Err(scan.refused(Kind::Room));
        }
        let (resource, behind) = resource_at(alloc, resources.as_slice(), name, rest, scan)?;
        resources.push(resource)?;
        scan = behind;
    }
    Ok((resources, scan))
}

/// The highest number of a counter.
#[tactic(auto, unfolding(crate::specs::Objects::max_at))]
fn max_at(scan: Scan<'_>) -> Result<(u32, Scan<'_>), Stop>
    ensures { Answers (λ x. x) result (max_at scan.entry) }
{
    scan.number("    MAXALLOWEDVALUE = ", 1, 2_147_483_647)
}

#[tactic(auto, unfolding(crate::specs::Objects::base_at))]
fn base_at(scan: Scan<'_>) -> Result<(u32, Scan<'_>), Stop>
    ensures { Answers (λ x. x) result (base_at scan.entry) }
{
    scan.number("    TICKSPERBASE = ", 1, 65_535)
}

/// The least cycle of an alarm at a counter with this highest number.
#[tactic(auto, unfolding(crate::specs::Objects::min_at))]
fn min_at(max: u32, scan: Scan<'_>) -> Result<(u32, Scan<'_>), Stop>
    ensures { Answers (λ x. x) result (min_at max scan.entry) }
{
    scan.number("    MINCYCLE = ", 1, max)
}

/// The numbers of a counter.
#[tactic(auto, unfolding(crate::specs::Objects::counter_rule_at))]
fn counter_rule_at(scan: Scan<'_>) -> Result<(CounterRule, Scan<'_>), Stop>
    ensures { Answers (λ x. x) result (counter_rule_at scan.entry) }
{
    let (max, scan) = max_at(scan)?;
    let (base, scan) = base_at(scan)?;
    let (min, scan) = min_at(max, scan)?;
    Ok((CounterRule { max, base, min }, scan))
}

/// Whether one of the counters has the name.
fn counter_stands(text: &[u8], counters: &[CounterRow]) -> bool
    ensures { result ≡ list_any (λ row. is_named text.now row.name) counters.now }
{
    counters.iter().any(|row| is_named(text, &row.name))
}

/// The counter whose first line has the name, with `rest` behind it.
#[tactic(auto, unfolding(crate::specs::Objects::counter_at))]
fn counter_at<'a>(
    alloc: Global,
    counters: &[CounterRow],
    name: &[u8],
    rest: &'a [u8],
    scan: Scan<'a>,
) -> Result<(CounterRow, Scan<'a>), Stop>
    ensures { Answers (λ x. x) result (counter_at counters.now (name.now, rest.now) scan.entry) }
{
    let scan = fresh(counter_stands(name, counters), rest, scan)?;
    let (rule, scan) = counter_rule_at(scan)?;
    let scan = object_end(scan)?;
    let name = named(alloc, name)?;
    Ok((CounterRow { name, rule }, scan))
}

/// The counters.
pub fn counters_at(alloc: Global, start: Scan<'_>) -> Result<(Items<CounterRow>, Scan<'_>), Stop>
    ensures read { Answers (λ x. x) result (counters_at start.entry) }
    ensures few { IfOk result (λ x. length x.0 ≤ 8) }
{
    let mut counters = Items::new(alloc);
    let mut scan = start;
    while let Some((name, rest)) = header("  COUNTER c_", scan.text()) {
        if counters.len() == MOST_COUNTERS {
            return Err(scan.refused(Kind::Room));
        }
        let (counter, behind) = counter_at(alloc, counters.as_slice(), name, rest, scan)?;
        counters.push(counter)?;
        scan = behind;
    }
    Ok((counters, scan))
}
