//! The second pass: what index fields name, and members that repeat.

ghost use Rattle.std.specs.Prelude.{◌≡◌, [], IfOk};
ghost use Rattle.classfile.specs.Faults.{place_of, fault_of_index, first_fault, or_else};
ghost use Rattle.classfile.specs.Numbers.{IsNumbering};

use crate::faults::index_fault;
use crate::numbers::Numbers;
use crate::pool::Pool;
use crate::seen::Seen;
use crate::uses::Use;
use kes_text::{Kind, NoMemory, Refusal};
use std::alloc::Global;

fn place_of(one: Use) -> u64
    ensures { result ≡ place_of one }
{
    match one {
        Use::Index { at, .. } | Use::Member { at, .. } => at,
    }
}

/// What is wrong with an index field by what it names.
fn fault_of_index(pool: &Pool<'_>, one: Use) -> Option<Refusal>
    ensures { result ≡ fault_of_index pool.now one }
{
    match one {
        Use::Index { at, index, wanted } => {
            let kind = index_fault(pool, wanted, index)?;
            Some(Refusal { file: 0, kind, at })
        }
        Use::Member { .. } => None,
    }
}

/// The first fault among index fields and members.
fn first_fault(
    alloc: Global,
    pool: &Pool<'_>,
    numbers: &Numbers,
    uses: &[Use],
) -> Result<Option<Refusal>, NoMemory>
    requires { IsNumbering pool.now numbers.now }
    ensures { IfOk result (λ found. found ≡ first_fault pool.now [] uses.now) }
{
    let mut seen = Seen::new(alloc);
    for one in uses {
        let fault = fault_of_index(pool, *one);
        if fault.is_some() {
            return Ok(fault);
        }
        if !seen.note(pool, numbers, *one)? {
            let kind = Kind::TwoMembers;
            let at = place_of(*one);
            return Ok(Some(Refusal { file: 0, kind, at }));
        }
    }
    Ok(None)
}

/// The first fault among the index fields of the constant pool and among what stands behind it.
pub fn first_of_both(
    alloc: Global,
    pool: &Pool<'_>,
    in_pool: &[Use],
    behind: &[Use],
) -> Result<Option<Refusal>, NoMemory>
    ensures { IfOk result (λ found. found ≡ or_else (first_fault pool.now [] in_pool.now) (first_fault pool.now [] behind.now)) }
{
    let numbers = Numbers::of(alloc, pool)?;
    match first_fault(alloc, pool, &numbers, in_pool)? {
        Some(fault) => Ok(Some(fault)),
        None => first_fault(alloc, pool, &numbers, behind),
    }
}
