//! What is reached along edges.

ghost use Rattle.std.specs.Prelude.{◌≡◌, ◌<◌, ◌==◌, ℕ, fold, length, IfOk, OnOk};
ghost use Rattle.std.specs.List.{list_any};
ghost use Rattle.jworld.specs.Edges.{graph_of};
ghost use Rattle.call_graph.specs.ReachedFrom.{is_reached_from, put_below};

use crate::numbers::Numbers;
use kes_text::NoMemory;
use sqlite_items::Items;
use std::alloc::Global;

/// Puts those of these behind the others that are below a limit.
fn add_below(numbers: &mut Numbers, limit: usize, more: &[u32]) -> Result<(), NoMemory>
    ensures { OnOk result (numbers.new ≡ fold (put_below limit) numbers.old more.now) }
{
    for number in more {
        let number = *number;
        if (number as usize) < limit {
            numbers.add(number)?;
        }
    }
    Ok(())
}

/// Looks at a number: puts those behind the others to which an edge leads from it.
fn look_at(edges: &[Items<u32>], number: u32, numbers: &mut Numbers) -> Result<(), NoMemory>
    ensures { OnOk result (numbers.new ≡ fold (put_below (length edges.now)) numbers.old (graph_of edges.now number)) }
{
    match edges.get(number as usize) {
        Some(nexts) => add_below(numbers, edges.len(), nexts.as_slice()),
        None => Ok(()),
    }
}

/// The numbers of a graph that are reached from these along its edges: these themselves, and those to which a way leads.
/// The graph is given by the list of those to which each of its numbers leads; it has no others.
pub fn reached_from(alloc: Global, edges: &[Items<u32>], roots: &[u32]) -> Result<Numbers, NoMemory>
    ensures { IfOk result (λ numbers. (n : ℕ) → list_any (λ number. n == number) numbers ≡ is_reached_from edges.now roots.now n) }
{
    let mut numbers = Numbers::new(alloc);
    add_below(&mut numbers, edges.len(), roots)?;
    for place in 0..edges.len() {
        let Some(number) = numbers.get(place) else {
            return Ok(numbers);
        };
        look_at(edges, number, &mut numbers)?;
    }
    Ok(numbers)
}
