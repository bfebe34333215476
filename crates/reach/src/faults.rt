//! Why reached pairs are refused none of whose methods is.

ghost use Rattle.std.specs.Prelude.{◌≡◌, option_map, IfOk};
ghost use Rattle.std.specs.List.{find};
ghost use Rattle.kes_text.specs.declared.refusal.Kind.TheVariants as kind;
ghost use Rattle.reach.specs.Faults.{refusal_at, is_among, at_start, recursive, fault_of};

use crate::calls::Call;
use call_graph::{Cycles, Numbers, reached_from};
use kes_text::{Kind, NoMemory, Refusal};
use sqlite_items::Items;
use std::alloc::Global;

/// The refusal of a call, at its opcode.
fn refusal_at(kind: Kind, call: &Call) -> Refusal
    ensures { result ≡ refusal_at kind call.now }
{
    Refusal {
        file: call.file,
        kind,
        at: call.at,
    }
}

/// Whether a call runs a service or a portal in one of the pairs that are reached.
fn is_at_start(reached: &Numbers, call: &Call) -> bool
    ensures { result ≡ is_among reached.now call.now }
{
    call.is_outside && reached.has(call.place.pair)
}

/// The first call of a service or a portal in one of the pairs that are reached.
fn first_among(reached: &Numbers, calls: &[Call]) -> Option<Refusal>
    ensures { result ≡ option_map (refusal_at kind.AtStart) (find (is_among reached.now) calls.now) }
{
    for call in calls {
        if is_at_start(reached, call) {
            return Some(refusal_at(Kind::AtStart, call));
        }
    }
    None
}

/// The first call of a service or a portal in a pair that initialisers reach.
fn at_start(
    alloc: Global,
    edges: &[Items<u32>],
    starts: &[u32],
    calls: &[Call],
) -> Result<Option<Refusal>, NoMemory>
    ensures { IfOk result (λ fault. fault ≡ at_start edges.now starts.now calls.now) }
{
    let reached = reached_from(alloc, edges, starts)?;
    Ok(first_among(&reached, calls))
}

/// The first call that lies on a cycle of calls.
fn recursive(
    alloc: Global,
    edges: &[Items<u32>],
    calls: &[Call],
) -> Result<Option<Refusal>, NoMemory>
    ensures { IfOk result (λ fault. fault ≡ recursive edges.now calls.now) }
{
    let cycles = Cycles::of(alloc, edges)?;
    for call in calls {
        if cycles.has(alloc, &call.place)? {
            return Ok(Some(refusal_at(Kind::Recursive, call)));
        }
    }
    Ok(None)
}

/// The first of both.
pub fn fault_of(
    alloc: Global,
    edges: &[Items<u32>],
    starts: &[u32],
    calls: &[Call],
) -> Result<Option<Refusal>, NoMemory>
    ensures { IfOk result (λ fault. fault ≡ fault_of edges.now starts.now calls.now) }
{
    match at_start(alloc, edges, starts, calls)? {
        Some(fault) => Ok(Some(fault)),
        None => recursive(alloc, edges, calls),
    }
}
