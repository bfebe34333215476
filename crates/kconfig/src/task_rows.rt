//! The rows of tasks.

ghost use Rattle.std.specs.Prelude.{◌≡◌, ◌<◌, IfOk, Some, slice_get};
ghost use Rattle.kconfig.specs.Tasks.{use_stands, wait_stands};
ghost use Rattle.kconfig.specs.Sound.{IsSound};
ghost use Rattle.kconfig.specs.Tables.{task_row, task_rows};
ghost use Rattle.kconfig.specs.Masks.{AreMasks};

use crate::config::{Config, TaskLine};
use crate::kernel_tables::name_of;
use crate::task_masks::{places_in, used_by_task, waited_by_task};
use kes_text::NoMemory;
use osek_core::{TaskRow, TaskRule};
use sqlite_items::Items;
use std::alloc::Global;

/// For each task the resources that it uses, and the events for which it waits.
#[derive(Drop)]
struct TaskMasks {
    used: [u32; 64],
    waited: [u32; 64],
}

fn task_row(
    alloc: Global,
    config: &Config,
    masks: &TaskMasks,
    at: usize,
    line: &TaskLine,
) -> Result<TaskRow, NoMemory>
    requires sound { IsSound config.now }
    requires used { AreMasks (use_stands config.now.uses) masks.now.used }
    requires waited { AreMasks (wait_stands config.now.waits) masks.now.waited }
    requires line { slice_get config.now.tasks at ≡ Some line.now }
    ensures { IfOk result (λ row. row ≡ task_row config.now at line.now) }
{
    let name = name_of(alloc, line.name.as_slice())?;
    let resources = places_in(alloc, masks.used[at], config.resources.len() as u32)?;
    let events = places_in(alloc, masks.waited[at], config.events.len() as u32)?;
    let rule = TaskRule {
        priority: line.prio as u8,
        activations: line.acts as u8,
        preemptable: line.full,
        extended: !events.is_empty(),
    };
    Ok(TaskRow {
        name,
        rule,
        auto: line.auto,
        resources,
        events,
    })
}

pub fn task_rows(alloc: Global, config: &Config) -> Result<Items<TaskRow>, NoMemory>
    requires { IsSound config.now }
    ensures { IfOk result (λ rows. rows ≡ task_rows config.now) }
{
    let masks = TaskMasks {
        used: used_by_task(config.uses.as_slice()),
        waited: waited_by_task(config.waits.as_slice()),
    };
    let mut rows = Items::new(alloc);
    for (at, line) in config.tasks.as_slice().iter().enumerate() {
        rows.push(task_row(alloc, config, &masks, at, line)?)?;
    }
    Ok(rows)
}
