//! The operands of instructions but for the switches.

ghost use Rattle.std.specs.Prelude.{◌≡◌, slice_get, Option};
ghost use Rattle.std.specs.Int.{w8, w16, w32};
ghost use Rattle.jcode.specs.Reading.{Gives};
ghost use Rattle.jcode.specs.Operands.{wanted_value, array_shape, immediate_at, local_at, increment_at, branch_at, int_of, long_of, int_constant_at, long_constant_at, stands, entry_at, interface_call_at, array_type_at};
ghost use Rattle.jcode.specs.PoolOf.{pool_of};
ghost use Rattle.jcode.specs.Rows.{local_op, branch_op, named_op, wanted};
ghost use Rattle.jcode.specs.declared.op.Op.TheVariants as op;

use crate::fault::{Fault, Flaw};
use crate::op::Op;
use crate::pool;
use crate::reading::{bytes_behind, i8_of, i16_of, i32_of, u8_of, u16_of};
use crate::row::{Jump, Local, Named, branch_op, local_op, named_op};
use crate::target::target;
use classfile::{Class, Constant, MemberKind};
use jnames::Shape;

/// The operand of bipush (JVMS 6.5).
#[tactic(auto, unfolding(crate::specs::Operands::immediate_at))]
pub fn byte_of(bytes: &[u8]) -> Result<(Op, &[u8]), Flaw>
    ensures { Gives (λ x. (x.0, x.1.now)) result (immediate_at w8 op.Const4 bytes.now) }
{
    let (value, rest) = i8_of(bytes)?;
    Ok((
        Op::Const4 {
            value: i32::from(value),
        },
        rest,
    ))
}

/// The operand of sipush.
#[tactic(auto, unfolding(crate::specs::Operands::immediate_at))]
pub fn short_of(bytes: &[u8]) -> Result<(Op, &[u8]), Flaw>
    ensures { Gives (λ x. (x.0, x.1.now)) result (immediate_at w16 op.Const4 bytes.now) }
{
    let (value, rest) = i16_of(bytes)?;
    Ok((
        Op::Const4 {
            value: i32::from(value),
        },
        rest,
    ))
}

/// The operand of a load or a store: the number of a local variable, of one byte.
#[tactic(auto, unfolding(crate::specs::Operands::local_at))]
pub fn local_of(local: Local, bytes: &[u8]) -> Result<(Op, &[u8]), Flaw>
    ensures { Gives (λ x. (x.0, x.1.now)) result (local_at w8 (local_op local) bytes.now) }
{
    let (slot, rest) = u8_of(bytes)?;
    Ok((local_op(local, u16::from(slot)), rest))
}

/// The same behind wide, of two bytes.
#[tactic(auto, unfolding(crate::specs::Operands::local_at))]
pub fn wide_local_of(local: Local, bytes: &[u8]) -> Result<(Op, &[u8]), Flaw>
    ensures { Gives (λ x. (x.0, x.1.now)) result (local_at w16 (local_op local) bytes.now) }
{
    let (slot, rest) = u16_of(bytes)?;
    Ok((local_op(local, slot), rest))
}

/// The operands of iinc.
#[tactic(auto, unfolding(crate::specs::Operands::increment_at))]
pub fn increment_of(bytes: &[u8]) -> Result<(Op, &[u8]), Flaw>
    ensures { Gives (λ x. (x.0, x.1.now)) result (increment_at w8 bytes.now) }
{
    let (slot, rest) = u8_of(bytes)?;
    let (by, rest) = i8_of(rest)?;
    Ok((
        Op::Inc {
            slot: u16::from(slot),
            by: i16::from(by),
        },
        rest,
    ))
}

/// The operands of iinc behind wide.
#[tactic(auto, unfolding(crate::specs::Operands::increment_at))]
pub fn wide_increment_of(bytes: &[u8]) -> Result<(Op, &[u8]), Flaw>
    ensures { Gives (λ x. (x.0, x.1.now)) result (increment_at w16 bytes.now) }
{
    let (slot, rest) = u16_of(bytes)?;
    let (by, rest) = i16_of(rest)?;
    Ok((Op::Inc { slot, by }, rest))
}

/// The operand of a jump, of two bytes, at `pc`.
#[tactic(auto, unfolding(crate::specs::Operands::branch_at))]
pub fn branch_of(pc: u16, jump: Jump, bytes: &[u8]) -> Result<(Op, &[u8]), Flaw>
    ensures { Gives (λ x. (x.0, x.1.now)) result (branch_at pc w16 (branch_op jump) bytes.now) }
{
    let (far, rest) = i16_of(bytes)?;
    Ok((branch_op(jump, target(pc, i32::from(far))), rest))
}

/// The operand of goto_w at `pc`.
#[tactic(auto, unfolding(crate::specs::Operands::branch_at))]
pub fn far_goto_of(pc: u16, bytes: &[u8]) -> Result<(Op, &[u8]), Flaw>
    ensures { Gives (λ x. (x.0, x.1.now)) result (branch_at pc w32 op.Goto bytes.now) }
{
    let (far, rest) = i32_of(bytes)?;
    Ok((
        Op::Goto {
            to: target(pc, far),
        },
        rest,
    ))
}

fn int_at(class: &Class<'_>, index: u16) -> Result<i32, Flaw>
    ensures { Gives (λ x. x) result (wanted_value (int_of ((pool_of class.now).constant index))) }
{
    match pool::constant(class, index) {
        Some(Constant::Int(value)) => Ok(value),
        _ => Err(Flaw::Fault(Fault::Operand)),
    }
}

fn long_at(class: &Class<'_>, index: u16) -> Result<i64, Flaw>
    ensures { Gives (λ x. x) result (wanted_value (long_of ((pool_of class.now).constant index))) }
{
    match pool::constant(class, index) {
        Some(Constant::Long(value)) => Ok(value),
        _ => Err(Flaw::Fault(Fault::Operand)),
    }
}

/// The operand of ldc, where it names an Integer.
#[tactic(auto, unfolding(crate::specs::Operands::int_constant_at))]
pub fn int_constant_of<'a>(class: &Class<'_>, bytes: &'a [u8]) -> Result<(Op, &'a [u8]), Flaw>
    ensures { Gives (λ x. (x.0, x.1.now)) result (int_constant_at (pool_of class.now) w8 bytes.now) }
{
    let (index, rest) = u8_of(bytes)?;
    let value = int_at(class, u16::from(index))?;
    Ok((Op::Const4 { value }, rest))
}

/// The operand of ldc_w, where it names an Integer.
#[tactic(auto, unfolding(crate::specs::Operands::int_constant_at))]
pub fn wide_int_constant_of<'a>(class: &Class<'_>, bytes: &'a [u8]) -> Result<(Op, &'a [u8]), Flaw>
    ensures { Gives (λ x. (x.0, x.1.now)) result (int_constant_at (pool_of class.now) w16 bytes.now) }
{
    let (index, rest) = u16_of(bytes)?;
    let value = int_at(class, index)?;
    Ok((Op::Const4 { value }, rest))
}

/// The operand of ldc2_w, where it names a Long.
#[tactic(auto, unfolding(crate::specs::Operands::long_constant_at))]
pub fn long_constant_of<'a>(class: &Class<'_>, bytes: &'a [u8]) -> Result<(Op, &'a [u8]), Flaw>
    ensures { Gives (λ x. (x.0, x.1.now)) result (long_constant_at (pool_of class.now) bytes.now) }
{
    let (index, rest) = u16_of(bytes)?;
    let value = long_at(class, index)?;
    Ok((Op::Const8 { value }, rest))
}

/// Whether what the operation names stands at the index.
fn stands(class: &Class<'_>, named: Named, index: u16) -> bool
    ensures { result ≡ stands (pool_of class.now) (wanted named) index }
{
    match named {
        Named::GetStatic | Named::PutStatic | Named::GetField | Named::PutField => {
            pool::is_member(class, MemberKind::Field, index)
        }
        Named::InvokeVirtual | Named::InvokeSpecial | Named::InvokeStatic => {
            pool::is_member(class, MemberKind::Method, index)
        }
        Named::New | Named::NewRefs | Named::CheckCast | Named::InstanceOf => {
            pool::is_class(class, index)
        }
    }
}

/// The operand of an operation on what an entry of the constant pool names, where it is of its kind.
#[tactic(auto, unfolding(crate::specs::Operands::entry_at))]
pub fn entry_of<'a>(
    class: &Class<'_>,
    named: Named,
    bytes: &'a [u8],
) -> Result<(Op, &'a [u8]), Flaw>
    ensures { Gives (λ x. (x.0, x.1.now)) result (entry_at (pool_of class.now) (wanted named) (named_op named) bytes.now) }
{
    let (index, rest) = u16_of(bytes)?;
    if stands(class, named, index) {
        Ok((named_op(named, index), rest))
    } else {
        Err(Flaw::Fault(Fault::Operand))
    }
}

/// The operands of invokeinterface; the last two bytes aren't looked at.
#[tactic(auto, unfolding(crate::specs::Operands::interface_call_at, crate::specs::Operands::entry_at))]
pub fn interface_call_of<'a>(class: &Class<'_>, bytes: &'a [u8]) -> Result<(Op, &'a [u8]), Flaw>
    ensures { Gives (λ x. (x.0, x.1.now)) result (interface_call_at (pool_of class.now) bytes.now) }
{
    let (index, rest) = u16_of(bytes)?;
    if !pool::is_member(class, MemberKind::Interface, index) {
        return Err(Flaw::Fault(Fault::Operand));
    }
    let rest = bytes_behind(rest, 2)?;
    Ok((Op::InvokeInterface { index }, rest))
}

fn array_shape(number: u8) -> Option<Shape>
    ensures { result ≡ array_shape number }
{
    match number {
        4 => Some(Shape::Bool),
        5 => Some(Shape::Char),
        8 => Some(Shape::Byte),
        9 => Some(Shape::Short),
        10 => Some(Shape::Int),
        11 => Some(Shape::Long),
        _ => None,
    }
}

/// The operand of newarray, where it is no float or double.
#[tactic(auto, unfolding(crate::specs::Operands::array_type_at))]
pub fn array_type_of(bytes: &[u8]) -> Result<(Op, &[u8]), Flaw>
    ensures { Gives (λ x. (x.0, x.1.now)) result (array_type_at bytes.now) }
{
    let (number, rest) = u8_of(bytes)?;
    match array_shape(number) {
        Some(shape) => Ok((Op::NewArray { shape }, rest)),
        None => Err(Flaw::Fault(Fault::Operand)),
    }
}
