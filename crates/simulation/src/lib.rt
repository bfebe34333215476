//! What the proof of the headline rests on: a program that is preempted between any two statements follows the bytecode.
#![tactic(auto)]

mod laws;

pub use laws::{bytecode_is_never_stuck, kernel_keeps_tasks};
