//! The bytecode machine: what an application does and shows, move by move.
#![tactic(auto)]

mod actor;
mod beginning;
mod ended;
mod finishing;
mod frames;
mod leaving;
mod machine;
mod numbers;
mod program;
mod running;
mod serving;
mod shared;
mod stepping;

pub use machine::{Bm, Shown};
pub use program::Program;
