//! A frame of running bytecode (JVMS SE 8, 2.6), and what the instructions do that work on their own frame alone
//! (chapter 6).
#![tactic(auto)]

mod arithmetic;
mod conditions;
mod conversions;
mod division;
mod forms;
mod frame;
mod group;
mod jumps;
mod kind;
mod locals;
mod numbers;
mod operands;
mod outcome;
mod pairs;
mod shifts;
mod step;
#[cfg(test)]
mod tests;
mod values_of;
mod worked;

pub use frame::Frame;
pub use operands::Operands;
pub use outcome::Outcome;
pub use worked::{bits, branches, quotients, slots, stack_forms, sums};
