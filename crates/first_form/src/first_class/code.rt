//! The code of the entry (JVMS 6.5).

ghost use Rattle.std.specs.Prelude.{◌≡◌, IfOk, position};
ghost use Rattle.first_form.specs.Code.{is_call, on_ints, op_of, placed, operations_of, operations_in, is_return, returns_at_end, is_lawful_code, is_plain_code};

use crate::first_class::held::runs;
use crate::first_class::{Op, Placed};
use classfile::{Class, Code};
use jcode::{Ins, decode};
use kes_text::{NoMemory, Stop};
use sqlite_items::Items;
use std::alloc::{AllocError, Global};

/// Whether the entry of the constant pool names the method `()I` of the class itself that has this name.
fn is_call(class: &Class<'_>, name: &[u8], index: u16) -> bool
    ensures { result ≡ is_call class.now name.now index }
{
    match class.member(index) {
        Some(member) => member.class == class.name()
            && member.name == name
            && member.descriptor == b"()I".as_slice(),
        None => false,
    }
}

/// An operation on ints, which has a form on longs too.
fn on_ints(wide: bool, op: Op) -> Option<Op>
    ensures { result ≡ on_ints wide op }
{
    if wide { None } else { Some(op) }
}

/// The operation, if the first form has it. A call is of the native method of this name.
fn op_of(class: &Class<'_>, native: &[u8], op: &jcode::Op) -> Option<Op>
    ensures { result ≡ op_of (is_call class.now native.now) op.now }
{
    match op {
        jcode::Op::Const4 { value } => Some(Op::Const(value.cast_unsigned())),
        jcode::Op::LoadI { slot } => Some(Op::Load(*slot)),
        jcode::Op::StoreI { slot } => Some(Op::Store(*slot)),
        jcode::Op::Add { wide } => on_ints(*wide, Op::Add),
        jcode::Op::Sub { wide } => on_ints(*wide, Op::Sub),
        jcode::Op::Mul { wide } => on_ints(*wide, Op::Mul),
        jcode::Op::InvokeStatic { index } if is_call(class, native, *index) => Some(Op::Invoke),
        jcode::Op::Pop => Some(Op::Pop),
        jcode::Op::Return => Some(Op::Return),
        _ => None,
    }
}

fn placed(class: &Class<'_>, native: &[u8], ins: &Ins) -> Option<Placed>
    ensures { result ≡ placed (is_call class.now native.now) ins.now }
{
    Some(Placed {
        pc: ins.pc,
        op: op_of(class, native, &ins.op)?,
    })
}

/// The instructions, if each is of the first form.
fn all_placed(
    alloc: Global,
    class: &Class<'_>,
    native: &[u8],
    code: &[Ins],
) -> Result<Option<Items<Placed>>, NoMemory>
    ensures { IfOk result (λ found. found ≡ operations_of (is_call class.now native.now) code.now) }
{
    let mut operations = Items::new(alloc);
    for ins in code {
        match placed(class, native, ins) {
            Some(operation) => operations.push(operation)?,
            None => return Ok(None),
        }
    }
    Ok(Some(operations))
}

/// The instructions of the code, if each is of the first form and each call is of the native method of
/// this name.
pub fn operations_of(
    alloc: Global,
    class: &Class<'_>,
    native: &[u8],
    code: &Code<'_>,
) -> Result<Option<Items<Placed>>, NoMemory>
    ensures { IfOk result (λ found. found ≡ operations_in class.now native.now code.now) }
{
    match decode(alloc, code.bytes, code.at, class) {
        Ok(instructions) => all_placed(alloc, class, native, instructions.as_slice()),
        Err(Stop::Refused(_)) => Ok(None),
        Err(Stop::NoMemory) => Err(AllocError),
    }
}

fn is_return(operation: Op) -> bool
    ensures { result ≡ is_return operation }
{
    matches!(operation, Op::Return)
}

fn first_return(code: &[Placed]) -> Option<usize>
    ensures { result ≡ position (λ p. is_return p.op) code.now }
{
    code.iter().position(|placed| is_return(placed.op))
}

/// Whether the first return is the last instruction.
fn returns_at_end(code: &[Placed]) -> bool
    ensures { result ≡ returns_at_end code.now }
{
    match first_return(code) {
        Some(place) => place == code.len() - 1,
        None => false,
    }
}

/// Whether the code ends as it must, keeps to its stack, and loads what was stored.
pub fn is_lawful(
    alloc: Global,
    max_stack: u16,
    max_locals: u16,
    code: &[Placed],
) -> Result<bool, NoMemory>
    ensures { IfOk result (λ answer. answer ≡ is_lawful_code max_stack max_locals code.now) }
{
    if returns_at_end(code) {
        runs(alloc, max_stack, max_locals, code)
    } else {
        Ok(false)
    }
}

/// Whether it has no handlers and no frames.
pub fn is_plain(code: &Code<'_>) -> bool
    ensures { result ≡ is_plain_code code.now }
{
    code.handlers == 0 && code.maps.is_none()
}
