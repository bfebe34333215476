//! What the kernel keeps of an application's tables.
ghost use Rattle.std.specs.Prelude.{◌≡◌, ℕ, ◌≤◌, Bool, Option, IfOk, All, length, map, nat_eq};
ghost use Rattle.std.specs.List.{list_any, range_with_len};
ghost use Rattle.osek_core.specs.Tables.Limits.{IsTaskRule};
ghost use Rattle.osek_core.specs.Kernel.Rules.{ceiling};

use osek_core::{Action, AlarmRow, CounterRow, CounterRule, Start, TaskRow, TaskRule};
use std::alloc::{AllocError, Global};

pub(crate) fn task_rules(alloc: Global, tasks: &[TaskRow]) -> Result<Vec<TaskRule>, AllocError>
    ensures { IfOk result (λ rules. rules.items ≡ map (λ row. row.rule) tasks.now) }
{
    tasks.iter().map(|row| row.rule).collect(alloc)
}

pub(crate) fn autos(alloc: Global, tasks: &[TaskRow]) -> Result<Vec<bool>, AllocError>
    ensures { IfOk result (λ autos. autos.items ≡ map (λ row. row.auto) tasks.now) }
{
    tasks.iter().map(|row| row.auto).collect(alloc)
}

pub(crate) fn counter_rules(
    alloc: Global,
    counters: &[CounterRow],
) -> Result<Vec<CounterRule>, AllocError>
    ensures { IfOk result (λ rules. rules.items ≡ map (λ row. row.rule) counters.now) }
{
    counters.iter().map(|row| row.rule).collect(alloc)
}

pub(crate) fn alarm_counters(alloc: Global, alarms: &[AlarmRow]) -> Result<Vec<u32>, AllocError>
    ensures { IfOk result (λ counters. counters.items ≡ map (λ row. row.counter) alarms.now) }
{
    alarms.iter().map(|row| row.counter).collect(alloc)
}

pub(crate) fn actions(alloc: Global, alarms: &[AlarmRow]) -> Result<Vec<Action>, AllocError>
    ensures { IfOk result (λ actions. actions.items ≡ map (λ row. row.action) alarms.now) }
{
    alarms.iter().map(|row| row.action).collect(alloc)
}

pub(crate) fn starts(alloc: Global, alarms: &[AlarmRow]) -> Result<Vec<Option<Start>>, AllocError>
    ensures { IfOk result (λ starts. starts.items ≡ map (λ row. row.start) alarms.now) }
{
    alarms.iter().map(|row| row.start).collect(alloc)
}

/// The ceiling of each resource (section 8.5).
pub(crate) fn ceilings(
    alloc: Global,
    tasks: &[TaskRow],
    resources: usize,
) -> Result<Vec<u8>, AllocError>
    requires { resources ≤ 32 }
    ensures { IfOk result (λ ceilings. ceilings.items ≡ map (ceiling tasks.now) (range_with_len 0 resources)) }
{
    let mut ceilings = Vec::with_capacity(alloc, resources)?;
    for resource in 0..resources {
        ceilings.push(ceiling(tasks, resource as u32))?;
    }
    Ok(ceilings)
}

/// The greatest priority of the tasks that use the resource, and 0 where none does.
fn ceiling(tasks: &[TaskRow], resource: u32) -> u8
    ensures { result ≡ ceiling tasks.now resource }
{
    let mut highest: u8 = 0;
    for row in tasks {
        if uses(row, resource) {
            highest = highest.max(row.rule.priority);
        }
    }
    highest
}

fn uses(row: &TaskRow, resource: u32) -> bool
    ensures { result ≡ list_any (nat_eq resource) row.now.resources }
{
    row.resources
        .as_slice()
        .iter()
        .any(|used| resource == *used)
}
