use jworld::MethodId;
use osek_core::{Call, FailKind};
use values::Value;

/// How an instruction ends.
#[derive(Clone, Copy, Debug, PartialEq, Eq)]
pub enum Done {
    /// It goes on behind the instruction.
    Next,
    /// It goes on at the instruction at this place of the code, in bytes.
    Jump(u16),
    /// It calls a method on so many of the topmost operands, which are still there.
    Call { method: MethodId, count: usize },
    /// It calls a service of the kernel, whose answer is to stand in place of the topmost operand, a 0.
    Serve(Call),
    /// It leaves the frame, with the answer, if there is one.
    Leave(Option<Value>),
    /// It fails, and all is as it was.
    Fails(FailKind),
    /// It has no meaning, and all is as it was: the operands aren't of the instruction's types, as never in code that was
    /// accepted.
    Undefined,
}
