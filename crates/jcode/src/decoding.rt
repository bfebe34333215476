ghost use Rattle.std.specs.Prelude.{◌≡◌, false, slice_index_or, List, IfOk, Ok};
ghost use Rattle.jcode.specs.Code.{Answers};
ghost use Rattle.jcode.specs.Decoded.{first_wild, landed, decoded};
ghost use Rattle.jcode.specs.PoolOf.{pool_of};
ghost use Rattle.jcode.specs.Spelling.{IsCode};

use crate::code::instructions_of;
use crate::jumps::{begins_of, first_wild};
use crate::op::Ins;
use crate::refused::refused;
use classfile::Class;
use kes_text::{Kind, Stop};
use std::alloc::Global;

/// The instructions, where each jump leads to a place where one begins.
fn landed(base: u64, begins: &[bool], code: Vec<Ins>) -> Result<Vec<Ins>, Stop>
    ensures { Answers (λ v. v.items) result (landed base code.items (first_wild (λ k. slice_index_or begins.now k false) code.items)) }
{
    match first_wild(begins, &code) {
        Some(pc) => Err(refused(base, Kind::Jump, usize::from(pc))),
        None => Ok(code),
    }
}

/// The instructions of the code, of which each jump leads to the beginning of one.
#[tactic(auto, unfolding(crate::specs::Decoded::decoded))]
fn decoded_of(alloc: Global, code: &[u8], base: u64, class: &Class<'_>) -> Result<Vec<Ins>, Stop>
    ensures { Answers (λ v. v.items) result (decoded (pool_of class.now) base code.now) }
{
    let found = instructions_of(alloc, class, base, code)?;
    let begins = begins_of(alloc, code.len(), &found)?;
    landed(base, &begins, found)
}

/// The instructions of a method's code (JVMS SE 8, 4.7.3 and 6.5), each at its place in the code, in
/// rising order. `base` is the place of the first byte of the code in its class file, and `class` is that
/// class, whose constant pool the operands name.
///
/// It refuses, at the place in the class file (no more than `u64::MAX`) and as file 0:
/// - `Opcode`, at the byte: no instruction has it, or it stands behind wide and has no wide form, or it
///   stands 65535 bytes or more behind the first, where no instruction begins since no code is longer;
/// - `Unsupported`, at the opcode: the profile leaves the instruction out;
/// - `Operand`, at the opcode: the operands pass the end of the code, or name no entry of the wanted kind,
///   or an element type that the profile leaves out;
/// - `SwitchTable`, at the opcode: low is above high, the number of pairs is negative, or the keys don't
///   rise;
/// - `Jump`, at the opcode, where none of these stands anywhere: a target isn't the beginning of an
///   instruction.
///
/// It is the first of these in the code's order, and at one opcode in this order. The opcode of a wide form
/// is wide. Time is linear in the length of the code, which the contract doesn't say.
pub fn decode(alloc: Global, code: &[u8], base: u64, class: &Class<'_>) -> Result<Vec<Ins>, Stop>
    // What is answered is spelled so, each byte of the code, and each jump lands.
    ensures found { IfOk result (λ v. IsCode (pool_of class.now) code.now v.items) }
    // What is spelled so is answered, unless memory runs out.
    ensures only { (instructions : List Ins) → IsCode (pool_of class.now) code.now instructions → Answers (λ v. v.items) result (Ok instructions) }
    // Which refusal it is, and where.
    ensures exact { Answers (λ v. v.items) result (decoded (pool_of class.now) base code.now) }
{
    decoded_of(alloc, code, base, class)
}
