//! What the table of instructions has of an opcode.

ghost use Rattle.std.specs.Prelude.{◌≡◌};
ghost use Rattle.jcode.specs.Rows.{plain_op, local_op, number_op, branch_op, named_op, wanted};

use crate::op::{Op, Test};
use jnames::Shape;

/// An instruction that has no operand and no parameter.
#[derive(Clone, Copy)]
pub enum Plain {
    Nop,
    Null,
    Pop,
    Pop2,
    Dup,
    DupX1,
    DupX2,
    Dup2,
    Dup2X1,
    Dup2X2,
    Swap,
    I2L,
    L2I,
    I2B,
    I2C,
    I2S,
    CompareL,
    ReturnI,
    ReturnL,
    ReturnA,
    Return,
    ArrayLength,
    Throw,
}

/// An operation on numbers.
#[derive(Clone, Copy)]
pub enum Arithmetic {
    Add,
    Sub,
    Mul,
    Div,
    Rem,
    Neg,
    Shl,
    Shr,
    Ushr,
    And,
    Or,
    Xor,
}

/// An operation on a local variable.
#[derive(Clone, Copy)]
pub enum Local {
    LoadI,
    LoadL,
    LoadA,
    StoreI,
    StoreL,
    StoreA,
}

/// A jump to one place.
#[derive(Clone, Copy)]
pub enum Jump {
    Zero(Test),
    Int(Test),
    Ref(bool),
    Null(bool),
    Always,
}

/// An operation on what an entry of the constant pool names.
#[derive(Clone, Copy)]
pub enum Named {
    GetStatic,
    PutStatic,
    GetField,
    PutField,
    InvokeVirtual,
    InvokeSpecial,
    InvokeStatic,
    New,
    NewRefs,
    CheckCast,
    InstanceOf,
}

/// How the operands of an opcode are spelled, and which operation it is.
#[derive(Clone, Copy)]
pub enum Row {
    /// No instruction of the profile.
    Outside,
    /// No instruction of the profile, and it may stand behind wide.
    OutsideLocal,
    Alone(Plain),
    /// A constant of int.
    Int(i8),
    /// A constant of long.
    Long(i8),
    /// A local variable whose number the opcode has.
    SlotAt(Local, u8),
    LoadItem(Shape),
    StoreItem(Shape),
    /// The flag says that it is an operation on long.
    Number(Arithmetic, bool),
    Byte,
    Short,
    IntConstant,
    IntConstantWide,
    LongConstant,
    Slot(Local),
    Increment,
    Branch(Jump),
    FarGoto,
    TableSwitch,
    LookupSwitch,
    Entry(Named),
    InvokeInterface,
    NewArray,
    Wide,
}

/// The operation of an instruction that has no operand and no parameter.
pub fn plain_op(plain: Plain) -> Op
    ensures { result ≡ plain_op plain }
{
    match plain {
        Plain::Nop => Op::Nop,
        Plain::Null => Op::Null,
        Plain::Pop => Op::Pop,
        Plain::Pop2 => Op::Pop2,
        Plain::Dup => Op::Dup,
        Plain::DupX1 => Op::DupX1,
        Plain::DupX2 => Op::DupX2,
        Plain::Dup2 => Op::Dup2,
        Plain::Dup2X1 => Op::Dup2X1,
        Plain::Dup2X2 => Op::Dup2X2,
        Plain::Swap => Op::Swap,
        Plain::I2L => Op::I2L,
        Plain::L2I => Op::L2I,
        Plain::I2B => Op::I2B,
        Plain::I2C => Op::I2C,
        Plain::I2S => Op::I2S,
        Plain::CompareL => Op::CompareL,
        Plain::ReturnI => Op::ReturnI,
        Plain::ReturnL => Op::ReturnL,
        Plain::ReturnA => Op::ReturnA,
        Plain::Return => Op::Return,
        Plain::ArrayLength => Op::ArrayLength,
        Plain::Throw => Op::Throw,
    }
}

/// The operation on numbers, on long where it is `wide` and else on int.
pub fn number_op(operation: Arithmetic, wide: bool) -> Op
    ensures { result ≡ number_op operation wide }
{
    match operation {
        Arithmetic::Add => Op::Add { wide },
        Arithmetic::Sub => Op::Sub { wide },
        Arithmetic::Mul => Op::Mul { wide },
        Arithmetic::Div => Op::Div { wide },
        Arithmetic::Rem => Op::Rem { wide },
        Arithmetic::Neg => Op::Neg { wide },
        Arithmetic::Shl => Op::Shl { wide },
        Arithmetic::Shr => Op::Shr { wide },
        Arithmetic::Ushr => Op::Ushr { wide },
        Arithmetic::And => Op::And { wide },
        Arithmetic::Or => Op::Or { wide },
        Arithmetic::Xor => Op::Xor { wide },
    }
}

/// The operation on the local variable with this number.
pub fn local_op(local: Local, slot: u16) -> Op
    ensures { result ≡ local_op local slot }
{
    match local {
        Local::LoadI => Op::LoadI { slot },
        Local::LoadL => Op::LoadL { slot },
        Local::LoadA => Op::LoadA { slot },
        Local::StoreI => Op::StoreI { slot },
        Local::StoreL => Op::StoreL { slot },
        Local::StoreA => Op::StoreA { slot },
    }
}

/// The jump to this place.
pub fn branch_op(jump: Jump, to: u16) -> Op
    ensures { result ≡ branch_op jump to }
{
    match jump {
        Jump::Zero(test) => Op::IfZero { test, to },
        Jump::Int(test) => Op::IfInt { test, to },
        Jump::Ref(equal) => Op::IfRef { equal, to },
        Jump::Null(null) => Op::IfNull { null, to },
        Jump::Always => Op::Goto { to },
    }
}

/// The operation on what the entry at this index of the constant pool names.
pub fn named_op(named: Named, index: u16) -> Op
    ensures { result ≡ named_op named index }
{
    match named {
        Named::GetStatic => Op::GetStatic { index },
        Named::PutStatic => Op::PutStatic { index },
        Named::GetField => Op::GetField { index },
        Named::PutField => Op::PutField { index },
        Named::InvokeVirtual => Op::InvokeVirtual { index },
        Named::InvokeSpecial => Op::InvokeSpecial { index },
        Named::InvokeStatic => Op::InvokeStatic { index },
        Named::New => Op::New { index },
        Named::NewRefs => Op::NewRefs { index },
        Named::CheckCast => Op::CheckCast { index },
        Named::InstanceOf => Op::InstanceOf { index },
    }
}
