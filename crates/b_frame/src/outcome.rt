use osek_core::FailKind;

/// How a step on a frame ends.
#[derive(Clone, Copy, Debug, PartialEq, Eq)]
pub enum Outcome {
    /// It goes on behind the instruction.
    Next,
    /// It goes on at the instruction at this place of the code, in bytes.
    Jump(u16),
    /// It fails, and the frame is as it was.
    Fails(FailKind),
    /// It has no meaning, and the frame is as it was: the operands aren't of the instruction's kinds, or the instruction
    /// doesn't work on its frame alone.
    Undefined,
}
