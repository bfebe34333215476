//! The operations by groups, of which each has rules of one kind.

ghost use Rattle.std.specs.Prelude.{◌≡◌};
ghost use Rattle.typing_rules.specs.Groups.{is_load_or_store, is_stack_form, is_on_numbers, is_jump, is_of_member};
ghost use Rattle.typing_rules.specs.Outcome.{falls_through};

use jcode::Op;

/// Whether an operation is nop, a constant, a load, a store or iinc.
pub fn is_load_or_store(op: &Op) -> bool
    ensures { result ≡ is_load_or_store op.now }
{
    match op {
        Op::Nop
        | Op::Null
        | Op::Const4 { .. }
        | Op::Const8 { .. }
        | Op::LoadI { .. }
        | Op::LoadL { .. }
        | Op::LoadA { .. }
        | Op::StoreI { .. }
        | Op::StoreL { .. }
        | Op::StoreA { .. }
        | Op::Inc { .. } => true,
        _ => false,
    }
}

/// Whether an operation is one of the forms of pop, dup and swap.
pub fn is_stack_form(op: &Op) -> bool
    ensures { result ≡ is_stack_form op.now }
{
    match op {
        Op::Pop
        | Op::Pop2
        | Op::Dup
        | Op::DupX1
        | Op::DupX2
        | Op::Dup2
        | Op::Dup2X1
        | Op::Dup2X2
        | Op::Swap => true,
        _ => false,
    }
}

/// Whether an operation is arithmetic, a conversion or lcmp.
pub fn is_on_numbers(op: &Op) -> bool
    ensures { result ≡ is_on_numbers op.now }
{
    match op {
        Op::Add { .. }
        | Op::Sub { .. }
        | Op::Mul { .. }
        | Op::Div { .. }
        | Op::Rem { .. }
        | Op::Neg { .. }
        | Op::Shl { .. }
        | Op::Shr { .. }
        | Op::Ushr { .. }
        | Op::And { .. }
        | Op::Or { .. }
        | Op::Xor { .. }
        | Op::I2L
        | Op::L2I
        | Op::I2B
        | Op::I2C
        | Op::I2S
        | Op::CompareL => true,
        _ => false,
    }
}

/// Whether an operation is a branch, a return or athrow.
pub fn is_jump(op: &Op) -> bool
    ensures { result ≡ is_jump op.now }
{
    match op {
        Op::IfZero { .. }
        | Op::IfInt { .. }
        | Op::IfRef { .. }
        | Op::IfNull { .. }
        | Op::Goto { .. }
        | Op::Switch { .. }
        | Op::ReturnI
        | Op::ReturnL
        | Op::ReturnA
        | Op::Return
        | Op::Throw => true,
        _ => false,
    }
}

/// Whether an operation accesses a field or is a call.
pub fn is_of_member(op: &Op) -> bool
    ensures { result ≡ is_of_member op.now }
{
    match op {
        Op::GetStatic { .. }
        | Op::PutStatic { .. }
        | Op::GetField { .. }
        | Op::PutField { .. }
        | Op::InvokeVirtual { .. }
        | Op::InvokeSpecial { .. }
        | Op::InvokeStatic { .. }
        | Op::InvokeInterface { .. } => true,
        _ => false,
    }
}

/// Whether the next instruction may come behind an operation.
pub fn falls_through(op: &Op) -> bool
    ensures { result ≡ falls_through op.now }
{
    match op {
        Op::Goto { .. }
        | Op::Switch { .. }
        | Op::ReturnI
        | Op::ReturnL
        | Op::ReturnA
        | Op::Return
        | Op::Throw => false,
        _ => true,
    }
}
