//! What is reached in an application.

ghost use Rattle.std.specs.Prelude.{◌≡◌, ◌≤◌, length, map};
ghost use Rattle.kes_text.specs.Answers.{OrNoMemory};
ghost use Rattle.reach.specs.Reach.{reached_or_refused, reach_of};

use crate::calls::{calls_of, places_of};
use crate::faults::fault_of;
use crate::pairs::pairs_of;
use crate::starts::starts_of;
use crate::typings::typings_of;
use call_graph::CallPlace;
use jworld::World;
use kbind::Bound;
use kes_text::Stop;
use mentions::Setting;
use method_typing::Typed;
use reaching::Pairs;
use sqlite_items::Items;
use std::alloc::Global;

/// What is reached in an application.
#[derive(Drop)]
pub struct Reached {
    /// The pairs of a domain and a method, in the order of their first mention.
    pub pairs: Pairs,
    /// Their methods, each once, in the order of their first pair.
    pub typed: Items<Typed>,
    /// Their calls: pair by pair, and in each pair by instruction. Targets are in the order of the names of their classes.
    pub calls: Items<CallPlace>,
    /// The numbers of the initialisers' pairs, in the order in which they run: by domain, in each by how many
    /// superclasses their class has, and then by the bytes of its name.
    pub starts: Items<u32>,
}

/// What is reached by these pairs, unless a call of theirs is refused.
fn reached_by(alloc: Global, s: &Setting<'_, '_>, pairs: Pairs) -> Result<Reached, Stop>
    requires { length pairs ≤ 1048577 }
    ensures { OrNoMemory result (reached_or_refused s.now pairs) }
{
    let typed = typings_of(alloc, s.world, &pairs)?;
    let starts = starts_of(alloc, s.world, &pairs)?;
    let all = calls_of(alloc, s, &pairs)?;
    let (edges, calls) = (all.edges.as_slice(), all.calls.as_slice());
    let found = fault_of(alloc, edges, starts.as_slice(), calls)?;
    if let Some(fault) = found {
        return Err(Stop::Refused(fault));
    }
    let calls = places_of(alloc, all.calls)?;
    Ok(Reached {
        pairs,
        typed,
        calls,
        starts,
    })
}

/// What is reached in an application: from the entries of the tasks on, in the order of the first mention, and then what
/// each pair's instructions mention, one pair after the other.
///
/// It refuses the first method of them that has a fault, and that with its first fault, at an offset in its class file;
/// the first class file is number 0. The faults are, in this order: `Synchronized`; `Handlers`; what `decode`,
/// `read_frames` and `verify` refuse; what `mentioned` refuses of an instruction, at its place; and `Large`, at the method
/// with which the instructions and targets of all pairs pass 1,048,576.
///
/// Where no method is refused, it refuses the first call, at its opcode, of a service or a portal in a pair that
/// initialisers reach, as `AtStart`; and where there is none, the first call that lies on a cycle of calls, as
/// `Recursive`.
#[tactic(auto, unfolding(crate::specs::Reach::reach_of))]
pub fn reach(alloc: Global, bound: &Bound, world: &World<'_>) -> Result<Reached, Stop>
    ensures { OrNoMemory result (reach_of (record { files = world.now; bound = bound.now })) }
{
    let setting = Setting::new(alloc, world, bound)?;
    let pairs = pairs_of(alloc, &setting)?;
    reached_by(alloc, &setting, pairs)
}
