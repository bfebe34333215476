//! Ranks of numbers, which rise along no edge.

ghost use Rattle.std.specs.Prelude.{◌≡◌, true, nat_le, nat_lt, IfOk};
ghost use Rattle.std.specs.List.{list_all};
ghost use Rattle.call_graph.specs.Ranks.{rank, NeverRise};

use crate::components::components;
use kes_text::NoMemory;
use sqlite_items::Items;
use std::alloc::Global;

/// The rank of a number.
pub fn rank_of(ranks: &[u32], number: usize) -> u32
    ensures { result ≡ rank ranks.now number }
{
    match ranks.get(number) {
        Some(rank) => *rank,
        None => 0,
    }
}

/// Whether each of these has at most this rank.
fn are_at_most(ranks: &[u32], numbers: &[u32], most: u32) -> bool
    ensures { result ≡ list_all (λ number. nat_le (rank ranks.now number) most) numbers.now }
{
    numbers
        .iter()
        .all(|number| rank_of(ranks, *number as usize) <= most)
}

/// Whether each of these has a lower rank than this.
pub fn are_lower(ranks: &[u32], numbers: &[u32], limit: u32) -> bool
    ensures { result ≡ list_all (λ number. nat_lt (rank ranks.now number) limit) numbers.now }
{
    numbers
        .iter()
        .all(|number| rank_of(ranks, *number as usize) < limit)
}

/// Whether ranks rise along no edge.
fn never_rise(ranks: &[u32], edges: &[Items<u32>]) -> bool
    ensures { result ≡ true → NeverRise edges.now ranks.now }
{
    for number in 0..edges.len() {
        let most = rank_of(ranks, number);
        if !are_at_most(ranks, edges[number].as_slice(), most) {
            return false;
        }
    }
    true
}

/// Ranks of numbers, which rise along no edge; where a way leads back to a number, all on it have its rank.
///
/// They are those of the components, and it is looked at whether these rise nowhere. If they did, all would be 0.
pub fn ranks_of(alloc: Global, edges: &[Items<u32>]) -> Result<Vec<u32>, NoMemory>
    ensures { IfOk result (λ ranks. NeverRise edges.now ranks.items) }
{
    let ranks = components(alloc, edges)?;
    if never_rise(ranks.as_slice(), edges) {
        Ok(ranks)
    } else {
        Ok(Vec::new(alloc))
    }
}
