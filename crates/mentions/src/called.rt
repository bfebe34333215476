use reaching::Pair;
use sqlite_items::Items;

/// What an instruction mentions, in the order in which it does: initialisers, and behind them targets of a call.
#[derive(Drop)]
pub struct Called {
    pub initialisers: Items<Pair>,
    pub targets: Items<Pair>,
}
