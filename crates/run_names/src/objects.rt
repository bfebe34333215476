//! The names of a configuration's objects.
ghost use Rattle.std.specs.Prelude.{◌≡◌, ◌≤◌, IfOk, map};
ghost use Rattle.run_names.specs.Objects.{names_of};

use kconfig::{AlarmLine, Config, CounterLine, NameLine, TaskLine};
use kes_text::NoMemory;
use script::Names;
use sqlite_items::Items;
use std::alloc::Global;

fn task_names(alloc: Global, lines: &[TaskLine]) -> Result<Items<Items<u8>>, NoMemory>
    ensures { IfOk result (λ names. names ≡ map (λ x. x.name) lines.now) }
{
    let mut names = Items::new(alloc);
    for line in lines {
        names.push(Items::from_slice(alloc, line.name.as_slice())?)?;
    }
    Ok(names)
}

/// The names of events or of resources.
fn line_names(alloc: Global, lines: &[NameLine]) -> Result<Items<Items<u8>>, NoMemory>
    ensures { IfOk result (λ names. names ≡ map (λ x. x.name) lines.now) }
{
    let mut names = Items::new(alloc);
    for line in lines {
        names.push(Items::from_slice(alloc, line.name.as_slice())?)?;
    }
    Ok(names)
}

fn counter_names(alloc: Global, lines: &[CounterLine]) -> Result<Items<Items<u8>>, NoMemory>
    ensures { IfOk result (λ names. names ≡ map (λ x. x.name) lines.now) }
{
    let mut names = Items::new(alloc);
    for line in lines {
        names.push(Items::from_slice(alloc, line.name.as_slice())?)?;
    }
    Ok(names)
}

fn alarm_names(alloc: Global, lines: &[AlarmLine]) -> Result<Items<Items<u8>>, NoMemory>
    ensures { IfOk result (λ names. names ≡ map (λ x. x.name) lines.now) }
{
    let mut names = Items::new(alloc);
    for line in lines {
        names.push(Items::from_slice(alloc, line.name.as_slice())?)?;
    }
    Ok(names)
}

/// The names of a configuration's objects, each kind in line order, and the number of its device bytes. There are no
/// names of methods.
///
/// The only fault is want of memory. Time and memory are in proportion to the names' length.
pub fn names(alloc: Global, config: &Config) -> Result<Names, NoMemory>
    requires { config.now.devices.size ≤ 65536 }
    ensures { IfOk result (λ names. names ≡ names_of config.now) }
{
    Ok(Names {
        tasks: task_names(alloc, config.tasks.as_slice())?,
        resources: line_names(alloc, config.resources.as_slice())?,
        events: line_names(alloc, config.events.as_slice())?,
        counters: counter_names(alloc, config.counters.as_slice())?,
        alarms: alarm_names(alloc, config.alarms.as_slice())?,
        methods: Items::new(alloc),
        devices: config.devices.size as u32,
    })
}
