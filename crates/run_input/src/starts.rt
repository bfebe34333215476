//! The initialisers that are reached.

ghost use Rattle.std.specs.Prelude.{◌≡◌, ◌++◌, filter_map, option_to_list, slice_get, IfOk, OnOk};

use kes_text::NoMemory;
use reaching::{Pair, Pairs};
use sqlite_items::Items;
use std::alloc::Global;

/// Puts a pair behind the others, if there is one.
fn add(starts: &mut Items<Pair>, pair: Option<Pair>) -> Result<(), NoMemory>
    ensures { OnOk result (starts.new ≡ starts.old ++ option_to_list pair) }
{
    match pair {
        Some(pair) => starts.push(pair),
        None => Ok(()),
    }
}

/// The initialisers of these numbers among the pairs, in the order of the numbers.
pub fn starts_of(alloc: Global, pairs: &Pairs, numbers: &[u32]) -> Result<Items<Pair>, NoMemory>
    ensures { IfOk result (λ starts. starts ≡ filter_map (slice_get pairs.now) numbers.now) }
{
    let mut starts = Items::new(alloc);
    for number in numbers {
        add(&mut starts, pairs.get(*number as usize))?;
    }
    Ok(starts)
}
