//! The lines of alarms.

ghost use Rattle.std.specs.Prelude.{◌≡◌, ◌<◌, map, length, IfOk, OnOk, slice_get};
ghost use Rattle.std.specs.Option.{option_copied};
ghost use Rattle.text_words.specs.Said.{OrNoMemory};
ghost use Rattle.kconfig.specs.Alarms.{alarm_head, alarm_activates, alarm_sets, are_alarm_words, alarm_line, start_fits, counter_at, has_start, are_sized, start_said, are_start_words, start_line};

use crate::config::{AlarmLine, Config, CounterLine, StartLine};
use crate::reader::Reader;
use crate::words::is_name;
use kes_text::{Kind, Stop};
use osek_core::Action;
use sqlite_items::Items;
use std::alloc::Global;
use text_words::{Number, are_both_numbers, check, is_word, number_of, refusal};

const MOST_ALARMS: usize = 64;

/// The place of the counter of an alarm that may be declared.
#[tactic(auto, unfolding(crate::specs::Alarms::alarm_head))]
fn alarm_head(before: &Reader<'_>, line: u64, name: &[u8], counter: &[u8]) -> Result<u32, Stop>
    ensures says { result ≡ alarm_head before.now line name.now counter.now }
    ensures room { OnOk result (length before.now.config.alarms < 64) }
{
    check(is_name(name), Kind::Syntax, line)?;
    let count = before.config().alarms.len();
    check(count < MOST_ALARMS, Kind::Room, line)?;
    check(before.alarm_named(name).is_none(), Kind::Twice, line)?;
    let Some(counter) = before.counter_named(counter) else {
        return Err(refusal(Kind::Unknown, line));
    };
    Ok(counter)
}

#[tactic(auto, unfolding(crate::specs::Alarms::alarm_activates))]
fn alarm_activates(
    alloc: Global,
    before: &Reader<'_>,
    line: u64,
    name: &[u8],
    counter: &[u8],
    task: &[u8],
) -> Result<AlarmLine, Stop>
    ensures says { OrNoMemory result (alarm_activates before.now line name.now counter.now task.now) }
    ensures room { OnOk result (length before.now.config.alarms < 64) }
{
    let counter = alarm_head(before, line, name, counter)?;
    let Some(task) = before.task_named(task) else {
        return Err(refusal(Kind::Unknown, line));
    };
    let name = Items::from_slice(alloc, name)?;
    let action = Action::Activate { task };
    Ok(AlarmLine {
        line,
        name,
        counter,
        action,
    })
}

#[tactic(auto, unfolding(crate::specs::Alarms::alarm_sets))]
fn alarm_sets(
    alloc: Global,
    before: &Reader<'_>,
    line: u64,
    name: &[u8],
    counter: &[u8],
    task_word: &[u8],
    event_word: &[u8],
) -> Result<AlarmLine, Stop>
    ensures says { OrNoMemory result (alarm_sets before.now line name.now counter.now task_word.now event_word.now) }
    ensures room { OnOk result (length before.now.config.alarms < 64) }
{
    let counter = alarm_head(before, line, name, counter)?;
    let Some(task) = before.task_named(task_word) else {
        return Err(refusal(Kind::Unknown, line));
    };
    let Some(event) = before.event_named(event_word) else {
        return Err(refusal(Kind::Unknown, line));
    };
    let waits = before.is_waited(task_word, event_word);
    check(waits, Kind::Unknown, line)?;
    let name = Items::from_slice(alloc, name)?;
    let action = Action::Set { task, event };
    Ok(AlarmLine {
        line,
        name,
        counter,
        action,
    })
}

fn are_alarm_words(counter_word: &[u8], action: &[u8], expected: &str) -> bool
    ensures { result ≡ are_alarm_words counter_word.now action.now expected.now }
{
    is_word(counter_word, "counter") && is_word(action, expected)
}

/// `alarm A counter C activate T` or `alarm A counter C set T E`
pub fn alarm_line(
    alloc: Global,
    before: &Reader<'_>,
    line: u64,
    words: &[&[u8]],
) -> Result<AlarmLine, Stop>
    ensures says { OrNoMemory result (alarm_line before.now line (map (λ word. word.now) words.now)) }
    ensures room { OnOk result (length before.now.config.alarms < 64) }
{
    match words {
        [name, counter_word, counter, action, task] => {
            if !are_alarm_words(counter_word, action, "activate") {
                return Err(refusal(Kind::Syntax, line));
            }
            alarm_activates(alloc, before, line, name, counter, task)
        }
        [name, counter_word, counter, action, task, event] => {
            if !are_alarm_words(counter_word, action, "set") {
                return Err(refusal(Kind::Syntax, line));
            }
            alarm_sets(alloc, before, line, name, counter, task, event)
        }
        _ => Err(refusal(Kind::Syntax, line)),
    }
}

/// Whether the times of an alarm are within its counter's bounds.
fn start_fits(counter: Option<&CounterLine>, first: Number, cycle: Number) -> bool
    ensures { result ≡ start_fits (option_copied counter.entry) first cycle }
{
    match counter {
        Some(counter) => {
            first.within(1, counter.max)
                && (cycle.value() == 0 || cycle.within(counter.min, counter.max))
        }
        None => false,
    }
}

/// The counter of an alarm.
fn counter_at(config: &Config, alarm: u32) -> Option<&CounterLine>
    ensures { option_copied result ≡ counter_at config.now (slice_get config.now.alarms alarm) }
{
    let alarm = config.alarms.get(alarm as usize)?;
    config.counters.get(alarm.counter as usize)
}

/// Whether a line starts the alarm.
fn has_start(lines: &[StartLine], alarm: u32) -> bool
    ensures { result ≡ has_start lines.now alarm }
{
    lines.iter().any(|x| x.alarm == alarm)
}

/// Whether both are below 2^64.
fn are_sized(first: Number, cycle: Number) -> bool
    ensures { result ≡ are_sized first cycle }
{
    first.within(0, u64::MAX) && cycle.within(0, u64::MAX)
}

#[tactic(auto, unfolding(crate::specs::Alarms::start_said))]
fn start_said(
    before: &Reader<'_>,
    line: u64,
    alarm: &[u8],
    first: Number,
    cycle: Number,
) -> Result<StartLine, Stop>
    ensures { result ≡ start_said before.now line alarm.now first cycle }
{
    check(are_both_numbers(first, cycle), Kind::Syntax, line)?;
    check(are_sized(first, cycle), Kind::Range, line)?;
    let Some(alarm) = before.alarm_named(alarm) else {
        return Err(refusal(Kind::Unknown, line));
    };
    let counter = counter_at(before.config(), alarm);
    check(start_fits(counter, first, cycle), Kind::Range, line)?;
    let stands = has_start(before.config().starts.as_slice(), alarm);
    check(!stands, Kind::Twice, line)?;
    Ok(StartLine {
        line,
        alarm,
        first: first.value(),
        cycle: cycle.value(),
    })
}

fn are_start_words(at_word: &[u8], cycle_word: &[u8]) -> bool
    ensures { result ≡ are_start_words at_word.now cycle_word.now }
{
    is_word(at_word, "at") && is_word(cycle_word, "cycle")
}

/// `start A at N cycle N`
pub fn start_line(before: &Reader<'_>, line: u64, words: &[&[u8]]) -> Result<StartLine, Stop>
    ensures { result ≡ start_line before.now line (map (λ word. word.now) words.now) }
{
    let [alarm, at_word, first, cycle_word, cycle] = words else {
        return Err(refusal(Kind::Syntax, line));
    };
    if !are_start_words(at_word, cycle_word) {
        return Err(refusal(Kind::Syntax, line));
    }
    start_said(before, line, alarm, number_of(first), number_of(cycle))
}
