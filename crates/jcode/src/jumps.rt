//! Whether each jump leads to the beginning of an instruction.

ghost use Rattle.std.specs.Prelude.{◌≡◌, ℕ, ◌<◌, length, false, IfOk, slice_index_or};
ghost use Rattle.std.specs.List.{All, list_all};
ghost use Rattle.jcode.specs.Decoded.{begins_at, lands, first_wild};

use crate::op::{Ins, Op};
use kes_text::NoMemory;
use std::alloc::Global;

/// For each place of a code of this length, whether one of the instructions begins there.
pub fn begins_of(alloc: Global, length: usize, code: &[Ins]) -> Result<Vec<bool>, NoMemory>
    requires { All (λ ins. ins.pc < length) code.now }
    ensures { IfOk result (λ begins. (k : ℕ) → slice_index_or begins.items k false ≡ begins_at code.now k) }
{
    let mut begins = vec![in alloc; false; length]?;
    for ins in code {
        begins[usize::from(ins.pc)] = true;
    }
    Ok(begins)
}

/// Whether an instruction begins at `place`.
fn begins_there(begins: &[bool], place: u16) -> bool
    ensures { result ≡ slice_index_or begins.now place false }
{
    match begins.get(usize::from(place)) {
        Some(here) => *here,
        None => false,
    }
}

/// Whether an instruction begins at each target.
fn cases_land(begins: &[bool], cases: &[(i32, u16)]) -> bool
    ensures { result ≡ list_all (λ case. slice_index_or begins.now case.1 false) cases.now }
{
    cases.iter().all(|case| begins_there(begins, case.1))
}

/// Whether an operation jumps to beginnings of instructions alone.
fn lands(begins: &[bool], op: &Op) -> bool
    ensures { result ≡ lands (λ k. slice_index_or begins.now k false) op.now }
{
    match op {
        Op::IfZero { to, .. }
        | Op::IfInt { to, .. }
        | Op::IfRef { to, .. }
        | Op::IfNull { to, .. }
        | Op::Goto { to } => begins_there(begins, *to),
        Op::Switch { cases, other } => {
            begins_there(begins, *other) && cases_land(begins, cases.as_slice())
        }
        _ => true,
    }
}

/// The place of the first instruction that jumps to where none begins.
pub fn first_wild(begins: &[bool], code: &[Ins]) -> Option<u16>
    ensures { result ≡ first_wild (λ k. slice_index_or begins.now k false) code.now }
{
    for ins in code {
        if !lands(begins, &ins.op) {
            return Some(ins.pc);
        }
    }
    None
}
