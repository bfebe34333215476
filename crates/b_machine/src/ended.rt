use b_step::Done;

/// How the instruction that came next in a frame ended.
#[derive(Clone, Copy, Debug, PartialEq, Eq)]
pub struct Ended {
    pub done: Done,
    /// The instruction's place in the code, in bytes.
    pub pc: u16,
    /// The number of the instruction that comes then, in the same frame.
    pub next: usize,
}
