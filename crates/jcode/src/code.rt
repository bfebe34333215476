//! The instructions of a code, before their jumps are looked at.

ghost use Rattle.std.specs.Prelude.{◌≡◌, ◌+◌, ◌≤◌, ◌<◌, drop, length, slice_index, IfOk};
ghost use Rattle.std.specs.List.{All};
ghost use Rattle.jcode.specs.Code.{Answers, placed, next_at, instructions_from};
ghost use Rattle.jcode.specs.PoolOf.{pool_of};

use crate::fault::Flaw;
use crate::instruction::instruction_of;
use crate::op::Ins;
use crate::refused::{fault_place, kind_of, refused};
use classfile::Class;
use kes_text::{Kind, Stop};
use std::alloc::Global;

/// The instruction at `place` with this opcode, and how many bytes its operands are, with which `bytes`
/// begins.
#[tactic(auto, unfolding(crate::specs::Code::next_at))]
fn placed_of(
    alloc: Global,
    class: &Class<'_>,
    base: u64,
    place: usize,
    opcode: u8,
    bytes: &[u8],
) -> Result<(Ins, usize), Stop>
    ensures next { Answers (λ x. x) result (next_at (pool_of class.now) base place opcode bytes.now) }
    ensures within { IfOk result (λ x. x.1 ≤ length bytes.now) }
    ensures stands { IfOk result (λ x. x.0.pc ≡ place) }
{
    if place >= 65535 {
        return Err(refused(base, Kind::Opcode, place));
    }
    let pc = place as u16;
    match instruction_of(alloc, class, pc, opcode, bytes) {
        Ok((op, rest)) => Ok((Ins { pc, op }, bytes.len().saturating_sub(rest.len()))),
        Err(Flaw::NoMemory) => Err(Stop::NoMemory),
        Err(Flaw::Fault(fault)) => Err(refused(base, kind_of(fault), fault_place(pc, fault))),
    }
}

/// The bytes behind the one at `place`.
fn behind(code: &[u8], place: usize) -> &[u8]
    requires { place < length code.now }
    ensures { result.now ≡ drop (place + 1) code.now }
{
    &code[place + 1..]
}

/// The instruction at `place`, and how many bytes its operands are.
fn next_of(
    alloc: Global,
    class: &Class<'_>,
    base: u64,
    place: usize,
    code: &[u8],
) -> Result<(Ins, usize), Stop>
    requires { place < length code.now }
    ensures next { Answers (λ x. x) result (next_at (pool_of class.now) base place (slice_index code.now place) (drop (place + 1) code.now)) }
    ensures within { IfOk result (λ x. x.1 ≤ length (drop (place + 1) code.now)) }
    ensures stands { IfOk result (λ x. x.0.pc ≡ place) }
{
    placed_of(alloc, class, base, place, code[place], behind(code, place))
}

/// The instructions of the code that begins at `base`.
pub fn instructions_of(
    alloc: Global,
    class: &Class<'_>,
    base: u64,
    code: &[u8],
) -> Result<Vec<Ins>, Stop>
    ensures code { Answers (λ v. v.items) result (instructions_from (pool_of class.now) base 0 0 code.now) }
    ensures within { IfOk result (λ v. All (λ ins. ins.pc < length code.now) v.items) }
{
    let mut found = Vec::new(alloc);
    let mut place = 0;
    while place < code.len() {
        let (ins, operands) = next_of(alloc, class, base, place, code)?;
        found.push(ins)?;
        place += 1 + operands;
    }
    Ok(found)
}
