//! What an instruction does, with what its operand names in place of the operand (JVMS SE 8, 5.4.3 and 6.5).
#![tactic(auto)]

mod action;
mod calls;
mod instruction;
mod known;
#[cfg(test)]
mod tests;
mod types;

pub use action::Action;
pub use instruction::action_of;
pub use known::{Counts, is_declared};
