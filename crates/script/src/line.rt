use osek_core::Move;

/// A line of a script: so many moves of one kind. Only steps and ticks come more than once in a line.
#[derive(Clone, Copy, Debug, PartialEq, Eq)]
pub struct Line {
    /// From 1 to 10^18.
    pub times: u64,
    pub step: Move,
}
