//! What the lines of a form name, and the lines whose rule fails.

ghost use Rattle.std.specs.Prelude.{◌≡◌, ◌++◌, OnOk, option_to_list};
ghost use Rattle.kbind.specs.Bound.{unless};

use kes_text::{Kind, NoMemory, Refusal};
use sqlite_items::Items;

/// Keeps what a line names, if it names something.
pub fn keep<T: Drop>(members: &mut Items<T>, found: Option<T>) -> Result<(), NoMemory>
    ensures { OnOk result (members.new ≡ members.old ++ option_to_list found) }
{
    match found {
        Some(member) => members.push(member),
        None => Ok(()),
    }
}

/// Keeps a fault at a line, unless its rule holds.
pub fn blame(
    faults: &mut Items<Refusal>,
    holds: bool,
    kind: Kind,
    line: u64,
) -> Result<(), NoMemory>
    ensures { OnOk result (faults.new ≡ faults.old ++ unless holds kind line) }
{
    if holds {
        return Ok(());
    }
    faults.push(Refusal {
        file: 0,
        kind,
        at: line,
    })
}
