//! Calls that lie on a cycle.

ghost use Rattle.std.specs.Prelude.{◌≡◌, IfOk};
ghost use Rattle.call_graph.specs.Cycles.{is_on_cycle};

use crate::call_place::CallPlace;
use crate::ranks::{are_lower, rank_of, ranks_of};
use crate::search::reached_from;
use kes_text::NoMemory;
use sqlite_items::Items;
use std::alloc::Global;
use std::marker::Model;

/// Calls between pairs, which are given by the list of those that each pair runs, and ranks, by which it is seen of most
/// calls at once that they lie on no cycle.
#[derive(Drop)]
pub struct Cycles<'e> {
    edges: &'e [Items<u32>],
    ranks: Vec<u32>,
}

impl<'e> Model for Cycles<'e> {
    ghost use Rattle.std.specs.Prelude.{ℕ, List};
    ghost use Rattle.call_graph.specs.Ranks.{NeverRise};

    ghost Value = { List (List ℕ) };

    ghost view = { λ cycles. cycles.edges.now };

    ghost invariant = { λ cycles. NeverRise cycles.edges.now cycles.ranks.items };
}

impl<'e> Cycles<'e> {
    pub fn of(alloc: Global, edges: &'e [Items<u32>]) -> Result<Cycles<'e>, NoMemory>
        ensures { IfOk result (λ cycles. cycles ≡ edges.now) }
    {
        let ranks = ranks_of(alloc, edges)?;
        Ok(Cycles { edges, ranks })
    }

    /// Whether a call lies on a cycle of calls: one of its targets leads back to the pair in which it stands.
    pub fn has(&self, alloc: Global, call: &CallPlace) -> Result<bool, NoMemory>
        ensures { IfOk result (λ on. on ≡ is_on_cycle self.now call.now) }
    {
        let ranks = self.ranks.as_slice();
        let rank = rank_of(ranks, call.pair as usize);
        if are_lower(ranks, call.targets.as_slice(), rank) {
            return Ok(false);
        }
        let reached = reached_from(alloc, self.edges, call.targets.as_slice())?;
        Ok(reached.has(call.pair))
    }
}
