//! One instruction.

ghost use Rattle.std.specs.Prelude.{◌≡◌, slice_get};
ghost use Rattle.std.specs.Option.{option_map};
ghost use Rattle.jcode.specs.Reading.{Gives};
ghost use Rattle.jcode.specs.Instructions.{wide_operands_at, widened, wide_at, operands_at, formed, instruction_at};
ghost use Rattle.jcode.specs.PoolOf.{pool_of};
ghost use Rattle.jcode.specs.Rows.{form_of};

use crate::fault::{Fault, Flaw};
use crate::op::Op;
use crate::operands::{
    array_type_of, branch_of, byte_of, entry_of, far_goto_of, increment_of, int_constant_of,
    interface_call_of, local_of, long_constant_of, short_of, wide_increment_of,
    wide_int_constant_of, wide_local_of,
};
use crate::row::{Row, local_op, number_op, plain_op};
use crate::switches::{lookup_switch_of, table_switch_of};
use crate::table::row_of;
use classfile::Class;
use std::alloc::Global;

/// The operands behind wide.
fn wide_operands_of(row: Row, bytes: &[u8]) -> Result<(Op, &[u8]), Flaw>
    ensures { Gives (λ x. (x.0, x.1.now)) result (wide_operands_at (form_of row) bytes.now) }
{
    match row {
        Row::OutsideLocal => Err(Flaw::Fault(Fault::Unsupported)),
        Row::Slot(local) => wide_local_of(local, bytes),
        Row::Increment => wide_increment_of(bytes),
        _ => Err(Flaw::Fault(Fault::WideOpcode)),
    }
}

/// The instruction behind wide that has this row.
fn widened(row: Option<Row>, bytes: &[u8]) -> Result<(Op, &[u8]), Flaw>
    ensures { Gives (λ x. (x.0, x.1.now)) result (widened (option_map form_of row) bytes.now) }
{
    match row {
        Some(row) => wide_operands_of(row, bytes),
        None => Err(Flaw::Fault(Fault::WideOpcode)),
    }
}

/// What stands behind wide: an opcode and its wide operands.
#[tactic(auto, unfolding(crate::specs::Instructions::wide_at))]
fn wide_of(bytes: &[u8]) -> Result<(Op, &[u8]), Flaw>
    ensures { Gives (λ x. (x.0, x.1.now)) result (wide_at bytes.now) }
{
    match bytes {
        [] => Err(Flaw::Fault(Fault::Operand)),
        [opcode, rest @ ..] => widened(row_of(*opcode), rest),
    }
}

/// The operation of a row at `pc`, and the bytes behind its operands.
#[tactic(auto, unfolding(crate::specs::Instructions::operands_at))]
fn operands_of<'a>(
    alloc: Global,
    class: &Class<'_>,
    pc: u16,
    row: Row,
    bytes: &'a [u8],
) -> Result<(Op, &'a [u8]), Flaw>
    ensures { Gives (λ x. (x.0, x.1.now)) result (operands_at (pool_of class.now) pc (form_of row) bytes.now) }
{
    match row {
        Row::Outside | Row::OutsideLocal => Err(Flaw::Fault(Fault::Unsupported)),
        Row::Alone(plain) => Ok((plain_op(plain), bytes)),
        Row::Int(value) => Ok((
            Op::Const4 {
                value: i32::from(value),
            },
            bytes,
        )),
        Row::Long(value) => Ok((
            Op::Const8 {
                value: i64::from(value),
            },
            bytes,
        )),
        Row::SlotAt(local, slot) => Ok((local_op(local, u16::from(slot)), bytes)),
        Row::LoadItem(shape) => Ok((Op::ArrayLoad { shape }, bytes)),
        Row::StoreItem(shape) => Ok((Op::ArrayStore { shape }, bytes)),
        Row::Number(operation, wide) => Ok((number_op(operation, wide), bytes)),
        Row::Byte => byte_of(bytes),
        Row::Short => short_of(bytes),
        Row::IntConstant => int_constant_of(class, bytes),
        Row::IntConstantWide => wide_int_constant_of(class, bytes),
        Row::LongConstant => long_constant_of(class, bytes),
        Row::Slot(local) => local_of(local, bytes),
        Row::Increment => increment_of(bytes),
        Row::Branch(jump) => branch_of(pc, jump, bytes),
        Row::FarGoto => far_goto_of(pc, bytes),
        Row::TableSwitch => table_switch_of(alloc, pc, bytes),
        Row::LookupSwitch => lookup_switch_of(alloc, pc, bytes),
        Row::Entry(named) => entry_of(class, named, bytes),
        Row::InvokeInterface => interface_call_of(class, bytes),
        Row::NewArray => array_type_of(bytes),
        Row::Wide => wide_of(bytes),
    }
}

/// The instruction at `pc` with this opcode, and the bytes behind its operands, which `bytes` begins with.
#[tactic(auto, unfolding(crate::specs::Instructions::instruction_at))]
pub fn instruction_of<'a>(
    alloc: Global,
    class: &Class<'_>,
    pc: u16,
    opcode: u8,
    bytes: &'a [u8],
) -> Result<(Op, &'a [u8]), Flaw>
    ensures { Gives (λ x. (x.0, x.1.now)) result (instruction_at (pool_of class.now) pc opcode bytes.now) }
{
    match row_of(opcode) {
        Some(row) => operands_of(alloc, class, pc, row, bytes),
        None => Err(Flaw::Fault(Fault::Opcode)),
    }
}
