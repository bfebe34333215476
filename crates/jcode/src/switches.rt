//! tableswitch and lookupswitch (JVMS 6.5).

ghost use Rattle.std.specs.Prelude.{◌≡◌, ℤ, pos, ◌+ℤ◌, ◌≤ℤ◌, ◌<ℤ◌, ◌^◌};
ghost use Rattle.std.specs.Int.{w32};
ghost use Rattle.jcode.specs.Reading.{Gives};
ghost use Rattle.jcode.specs.Switches.{padding, case_at, table_at, key_count, bounded_table_at, keys_at, table_switch_at, pair_at, pairs_at, keys_rise, rising_pairs_at, lookup_switch_at};

use crate::fault::{Fault, Flaw};
use crate::op::Op;
use crate::reading::{bytes_behind, i32_of};
use crate::target::target;
use sqlite_items::Items;
use std::alloc::Global;

type Cases = Items<(i32, u16)>;

/// How many bytes stand between the opcode at `pc` and the next place that is a multiple of 4.
fn padding(pc: u16) -> usize
    ensures { result ≡ padding pc }
{
    3 - usize::from(pc) % 4
}

/// The key that stands so many places behind the lowest.
fn key_at(low: i32, place: u64) -> i32
    requires { (low +ℤ pos place) <ℤ pos (2 ^ 31) }
    ensures { result ≡ low +ℤ pos place }
{
    (i64::from(low) + place as i64) as i32
}

/// The target of the key that stands so many places behind the lowest.
#[tactic(auto, unfolding(crate::specs::Switches::case_at))]
fn case_of(pc: u16, low: i32, place: u64, bytes: &[u8]) -> Result<((i32, u16), &[u8]), Flaw>
    requires { (low +ℤ pos place) <ℤ pos (2 ^ 31) }
    ensures { Gives (λ x. (x.0, x.1.now)) result (case_at pc (low +ℤ pos place) bytes.now) }
{
    let (far, rest) = i32_of(bytes)?;
    Ok(((key_at(low, place), target(pc, far)), rest))
}

/// The targets of so many keys from `low` on.
fn table_of(
    alloc: Global,
    pc: u16,
    low: i32,
    count: u64,
    bytes: &[u8],
) -> Result<(Cases, &[u8]), Flaw>
    requires { (low +ℤ pos count) ≤ℤ pos (2 ^ 31) }
    ensures { Gives (λ x. (x.0, x.1.now)) result (table_at pc count low bytes.now) }
{
    let mut cases = Items::new(alloc);
    let mut rest = bytes;
    for place in 0..count {
        let (case, after) = case_of(pc, low, place, rest)?;
        cases.push(case)?;
        rest = after;
    }
    Ok((cases, rest))
}

/// How many keys there are from `low` to `high`.
fn key_count(low: i32, high: i32) -> u64
    requires { low ≤ℤ high }
    ensures count { result ≡ key_count low high }
    ensures within { (low +ℤ pos result) ≤ℤ pos (2 ^ 31) }
{
    (i64::from(high) - i64::from(low)).unsigned_abs() + 1
}

/// The targets of the keys from `low` to `high`.
#[tactic(auto, unfolding(crate::specs::Switches::bounded_table_at))]
fn bounded_table_of(
    alloc: Global,
    pc: u16,
    low: i32,
    high: i32,
    bytes: &[u8],
) -> Result<(Cases, &[u8]), Flaw>
    ensures { Gives (λ x. (x.0, x.1.now)) result (bounded_table_at pc low high bytes.now) }
{
    if high < low {
        return Err(Flaw::Fault(Fault::SwitchTable));
    }
    table_of(alloc, pc, low, key_count(low, high), bytes)
}

/// The bounds and the targets of the keys from the one to the other.
#[tactic(auto, unfolding(crate::specs::Switches::keys_at))]
fn keys_of(alloc: Global, pc: u16, bytes: &[u8]) -> Result<(Cases, &[u8]), Flaw>
    ensures { Gives (λ x. (x.0, x.1.now)) result (keys_at pc bytes.now) }
{
    let (low, rest) = i32_of(bytes)?;
    let (high, rest) = i32_of(rest)?;
    bounded_table_of(alloc, pc, low, high, rest)
}

/// The operands of tableswitch at `pc`.
#[tactic(auto, unfolding(crate::specs::Switches::table_switch_at))]
pub fn table_switch_of(alloc: Global, pc: u16, bytes: &[u8]) -> Result<(Op, &[u8]), Flaw>
    ensures { Gives (λ x. (x.0, x.1.now)) result (table_switch_at pc bytes.now) }
{
    let table = bytes_behind(bytes, padding(pc))?;
    let (other, rest) = i32_of(table)?;
    let (cases, rest) = keys_of(alloc, pc, rest)?;
    let other = target(pc, other);
    Ok((Op::Switch { cases, other }, rest))
}

/// A key and its target.
#[tactic(auto, unfolding(crate::specs::Switches::pair_at, crate::specs::Switches::case_at))]
fn pair_of(pc: u16, bytes: &[u8]) -> Result<((i32, u16), &[u8]), Flaw>
    ensures { Gives (λ x. (x.0, x.1.now)) result (pair_at pc bytes.now) }
{
    let (key, rest) = i32_of(bytes)?;
    let (far, rest) = i32_of(rest)?;
    Ok(((key, target(pc, far)), rest))
}

/// So many keys, each with its target.
fn pairs_of(alloc: Global, pc: u16, count: u32, bytes: &[u8]) -> Result<(Cases, &[u8]), Flaw>
    ensures { Gives (λ x. (x.0, x.1.now)) result (pairs_at pc count bytes.now) }
{
    let mut cases = Items::new(alloc);
    let mut rest = bytes;
    for _ in 0..count {
        let (case, after) = pair_of(pc, rest)?;
        cases.push(case)?;
        rest = after;
    }
    Ok((cases, rest))
}

/// Whether each key is below the next.
fn keys_rise(cases: &[(i32, u16)]) -> bool
    ensures { result ≡ keys_rise cases.now }
{
    cases
        .iter()
        .zip(cases.iter().skip(1))
        .all(|(one, next)| one.0 < next.0)
}

/// So many pairs, whose keys rise.
#[tactic(auto, unfolding(crate::specs::Switches::rising_pairs_at))]
fn rising_pairs_of(alloc: Global, pc: u16, count: i32, bytes: &[u8]) -> Result<(Cases, &[u8]), Flaw>
    ensures { Gives (λ x. (x.0, x.1.now)) result (rising_pairs_at pc count bytes.now) }
{
    if count < 0 {
        return Err(Flaw::Fault(Fault::SwitchTable));
    }
    let (cases, rest) = pairs_of(alloc, pc, count.unsigned_abs(), bytes)?;
    if !keys_rise(cases.as_slice()) {
        return Err(Flaw::Fault(Fault::SwitchTable));
    }
    Ok((cases, rest))
}

/// The operands of lookupswitch at `pc`.
#[tactic(auto, unfolding(crate::specs::Switches::lookup_switch_at))]
pub fn lookup_switch_of(alloc: Global, pc: u16, bytes: &[u8]) -> Result<(Op, &[u8]), Flaw>
    ensures { Gives (λ x. (x.0, x.1.now)) result (lookup_switch_at pc bytes.now) }
{
    let table = bytes_behind(bytes, padding(pc))?;
    let (other, rest) = i32_of(table)?;
    let (count, rest) = i32_of(rest)?;
    let (cases, rest) = rising_pairs_of(alloc, pc, count, rest)?;
    let other = target(pc, other);
    Ok((Op::Switch { cases, other }, rest))
}
