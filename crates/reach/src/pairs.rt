//! The reached pairs.

ghost use Rattle.std.specs.Prelude.{◌≡◌, IfOk};
ghost use Rattle.kes_text.specs.Answers.{OrNoMemory};
ghost use Rattle.reach.specs.Pairs.{roots, pairs_of};

use crate::entries::entries_of;
use crate::methods::Application;
use kes_text::{NoMemory, Stop};
use mentions::Setting;
use reaching::{Pair, Pairs, explore};
use sqlite_items::Items;
use std::alloc::Global;

/// The entries of the tasks.
fn roots_of(alloc: Global, s: &Setting<'_, '_>) -> Result<Items<Pair>, NoMemory>
    ensures { IfOk result (λ pairs. pairs ≡ roots s.now) }
{
    let bound = s.bound;
    entries_of(
        alloc,
        bound.config.tasks.as_slice(),
        bound.entries.as_slice(),
    )
}

/// The reached pairs in reach order, or the first method of them that is refused.
#[tactic(auto, unfolding(crate::specs::Pairs::pairs_of))]
pub fn pairs_of(alloc: Global, s: &Setting<'_, '_>) -> Result<Pairs, Stop>
    ensures { OrNoMemory result (pairs_of s.now) }
{
    let roots = roots_of(alloc, s)?;
    let mut entries = Pairs::new(alloc);
    entries.add_all(roots.as_slice())?;
    let app = Application {
        setting: s,
        entries,
    };
    explore(alloc, &app, roots.as_slice())
}
