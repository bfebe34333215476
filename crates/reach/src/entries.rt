//! The entries of the tasks, in their domains.

ghost use Rattle.std.specs.Prelude.{◌≡◌, IfOk};
ghost use Rattle.reach.specs.Pairs.{entries_of};

use jworld::MethodId;
use kconfig::TaskLine;
use kes_text::NoMemory;
use reaching::Pair;
use sqlite_items::Items;
use std::alloc::Global;

/// The entry of each task in its domain, in the order of the tasks.
pub fn entries_of(
    alloc: Global,
    tasks: &[TaskLine],
    entries: &[MethodId],
) -> Result<Items<Pair>, NoMemory>
    ensures { IfOk result (λ pairs. pairs ≡ entries_of tasks.now entries.now) }
{
    let mut pairs = Items::new(alloc);
    for n in 0..entries.len() {
        let Some(task) = tasks.get(n) else {
            return Ok(pairs);
        };
        let (domain, method) = (task.domain, entries[n]);
        pairs.push(Pair { domain, method })?;
    }
    Ok(pairs)
}
