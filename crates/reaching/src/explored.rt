//! The pairs that are reached.

ghost use Rattle.std.specs.Prelude.{◌≡◌, [], ◌≤◌, IfOk};
ghost use Rattle.kes_text.specs.Answers.{OrNoMemory};
ghost use Rattle.reaching.specs.Order.{add_all};
ghost use Rattle.reaching.specs.Reached.{look_at, reached, Looks};

use crate::graph::Graph;
use crate::pair::Pair;
use crate::pairs::Pairs;
use kes_text::Stop;
use std::alloc::Global;

/// The greatest sum of the sizes of the pairs that are reached.
pub const MOST: u64 = 1_048_576;

/// Looks at a pair: puts what it mentions behind the others. Answers the sum of the sizes with its own.
fn look_at<G: Graph>(
    alloc: Global,
    graph: &G,
    pair: Pair,
    size: u64,
    pairs: &mut Pairs,
) -> Result<u64, Stop>
    requires { size ≤ 1048576 }
    ensures within { IfOk result (λ sum. sum ≤ 1048576) }
    ensures looks { Looks result pairs.new (look_at (G.mentions graph.now) (G.too_large graph.now) pair (pairs.old, size)) }
{
    let mention = graph.mentioned(alloc, pair)?;
    if mention.size > MOST - size {
        return Err(graph.large(pair));
    }
    pairs.add_all(mention.pairs.as_slice())?;
    Ok(size + mention.size)
}

/// The pairs that are reached from roots, in the order of their first mention: first the roots, and behind them what
/// each of the pairs mentions, one pair after the other.
///
/// It refuses the first of them that is refused, or with which the sum of the sizes passes 1,048,576.
pub fn explore<G: Graph>(alloc: Global, graph: &G, roots: &[Pair]) -> Result<Pairs, Stop>
    ensures { OrNoMemory result (reached (G.mentions graph.now) (G.too_large graph.now) roots.now) }
{
    let mut pairs = Pairs::new(alloc);
    pairs.add_all(roots)?;
    let mut size = 0;
    for index in 0..1_048_577 {
        let Some(pair) = pairs.get(index) else {
            return Ok(pairs);
        };
        size = look_at(alloc, graph, pair, size, &mut pairs)?;
    }
    match pairs.get(1_048_577) {
        Some(pair) => Err(graph.large(pair)),
        None => Ok(pairs),
    }
}
