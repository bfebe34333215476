//! The instructions by what they take from their frame and leave there.

ghost use Rattle.std.specs.Prelude.{◌≡◌};
ghost use Rattle.b_frame.specs.LocalStep.{kind_of};

use jcode::Op;

/// Instructions of one kind are executed by one table.
#[derive(Clone, Copy)]
pub enum Kind {
    LoadOrStore,
    StackForm,
    OneNumber,
    TwoNumbers,
    Division,
    Branch,
    /// Instructions that work on more than their frame.
    Other,
}

pub fn kind_of(op: &Op) -> Kind
    ensures { result ≡ kind_of op.now }
{
    match op {
        Op::Nop
        | Op::Null
        | Op::Const4 { .. }
        | Op::Const8 { .. }
        | Op::LoadI { .. }
        | Op::LoadL { .. }
        | Op::LoadA { .. }
        | Op::StoreI { .. }
        | Op::StoreL { .. }
        | Op::StoreA { .. }
        | Op::Inc { .. } => Kind::LoadOrStore,
        Op::Pop
        | Op::Pop2
        | Op::Dup
        | Op::DupX1
        | Op::DupX2
        | Op::Dup2
        | Op::Dup2X1
        | Op::Dup2X2
        | Op::Swap => Kind::StackForm,
        Op::Neg { .. } | Op::I2L | Op::L2I | Op::I2B | Op::I2C | Op::I2S => Kind::OneNumber,
        Op::Add { .. }
        | Op::Sub { .. }
        | Op::Mul { .. }
        | Op::Shl { .. }
        | Op::Shr { .. }
        | Op::Ushr { .. }
        | Op::And { .. }
        | Op::Or { .. }
        | Op::Xor { .. }
        | Op::CompareL => Kind::TwoNumbers,
        Op::Div { .. } | Op::Rem { .. } => Kind::Division,
        Op::IfZero { .. }
        | Op::IfInt { .. }
        | Op::IfRef { .. }
        | Op::IfNull { .. }
        | Op::Goto { .. }
        | Op::Switch { .. } => Kind::Branch,
        _ => Kind::Other,
    }
}
