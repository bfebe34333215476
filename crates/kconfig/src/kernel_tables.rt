//! The kernel's tables of a configuration.

ghost use Rattle.std.specs.Prelude.{◌≡◌, ℕ, All, IfOk, map};
ghost use Rattle.osek_core.specs.Tables.WellConfigured.{IsWellConfigured};
ghost use Rattle.osek_core.specs.Kernel.Rules.{ceiling};
ghost use Rattle.kconfig.specs.Limits.{IsCounterSmall, IsStartSmall};
ghost use Rattle.kconfig.specs.Sound.{IsSound, rule_of, times_of};
ghost use Rattle.kconfig.specs.Ceilings.{IsCeiling};
ghost use Rattle.kconfig.specs.Tables.{name_of, names_of, counter_row, start_of, alarm_row, alarm_rows, tables_of};

use crate::config::{AlarmLine, Config, CounterLine, NameLine, StartLine};
use crate::task_rows::task_rows;
use kes_text::NoMemory;
use osek_core::{AlarmRow, CounterRow, CounterRule, Name, Start, Tables};
use sqlite_items::Items;
use std::alloc::Global;

pub fn name_of(alloc: Global, text: &[u8]) -> Result<Name, NoMemory>
    ensures { IfOk result (λ name. name ≡ name_of text.now) }
{
    Ok(Name {
        text: Items::from_slice(alloc, text)?,
    })
}

fn names_of(alloc: Global, lines: &[NameLine]) -> Result<Items<Name>, NoMemory>
    ensures { IfOk result (λ names. names ≡ names_of lines.now) }
{
    let mut names = Items::new(alloc);
    for line in lines {
        names.push(name_of(alloc, line.name.as_slice())?)?;
    }
    Ok(names)
}

fn rule_of(line: &CounterLine) -> CounterRule
    requires { IsCounterSmall line.now }
    ensures { result ≡ rule_of line.now }
{
    CounterRule {
        max: line.max as u32,
        base: line.base as u32,
        min: line.min as u32,
    }
}

fn counter_row(alloc: Global, line: &CounterLine) -> Result<CounterRow, NoMemory>
    requires { IsCounterSmall line.now }
    ensures { IfOk result (λ row. row ≡ counter_row line.now) }
{
    Ok(CounterRow {
        name: name_of(alloc, line.name.as_slice())?,
        rule: rule_of(line),
    })
}

fn counter_rows(alloc: Global, lines: &[CounterLine]) -> Result<Items<CounterRow>, NoMemory>
    requires { All IsCounterSmall lines.now }
    ensures { IfOk result (λ rows. rows ≡ map counter_row lines.now) }
{
    let mut rows = Items::new(alloc);
    for line in lines {
        rows.push(counter_row(alloc, line)?)?;
    }
    Ok(rows)
}

fn times_of(line: &StartLine) -> Start
    requires { IsStartSmall line.now }
    ensures { result ≡ times_of line.now }
{
    Start {
        first: line.first as u32,
        cycle: line.cycle as u32,
    }
}

/// How the alarm at a place starts with the kernel, if a line says so.
fn start_of(starts: &[StartLine], alarm: usize) -> Option<Start>
    requires { All IsStartSmall starts.now }
    ensures { result ≡ start_of starts.now alarm }
{
    for line in starts {
        if line.alarm as usize == alarm {
            return Some(times_of(line));
        }
    }
    None
}

fn alarm_row(
    alloc: Global,
    starts: &[StartLine],
    at: usize,
    line: &AlarmLine,
) -> Result<AlarmRow, NoMemory>
    requires { All IsStartSmall starts.now }
    ensures { IfOk result (λ row. row ≡ alarm_row starts.now at line.now) }
{
    Ok(AlarmRow {
        name: name_of(alloc, line.name.as_slice())?,
        counter: line.counter,
        action: line.action,
        start: start_of(starts, at),
    })
}

fn alarm_rows(alloc: Global, config: &Config) -> Result<Items<AlarmRow>, NoMemory>
    requires { IsSound config.now }
    ensures { IfOk result (λ rows. rows ≡ alarm_rows config.now) }
{
    let starts = config.starts.as_slice();
    let mut rows = Items::new(alloc);
    for (at, line) in config.alarms.as_slice().iter().enumerate() {
        rows.push(alarm_row(alloc, starts, at, line)?)?;
    }
    Ok(rows)
}

/// The kernel's tables of a configuration that was read: its declared objects, each kind in line order.
///
/// The only fault is want of memory. Time and memory are in proportion to the configuration's lines.
pub fn tables(alloc: Global, config: &Config) -> Result<Tables, NoMemory>
    requires { IsSound config.now }
    ensures same { IfOk result (λ tables. tables ≡ tables_of config.now) }
    ensures well { IfOk result IsWellConfigured }
    ensures ceilings { IfOk result (λ tables. (resource : ℕ) → IsCeiling config.now resource (ceiling tables.tasks resource)) }
{
    Ok(Tables {
        events: names_of(alloc, config.events.as_slice())?,
        resources: names_of(alloc, config.resources.as_slice())?,
        counters: counter_rows(alloc, config.counters.as_slice())?,
        tasks: task_rows(alloc, config)?,
        alarms: alarm_rows(alloc, config)?,
    })
}
