//! The first form of input: what a configuration and a class of it say, and the program, tables and map that are made of
//! them.
#![tactic(auto)]

mod built;
mod config;
mod counts;
mod emission;
mod first_class;
mod fitting;

pub use built::Built;
pub use config::FirstConfig;
pub use counts::{FIRST_SUMMARY, Summary};
pub use emission::emit;
pub use first_class::{FirstClass, Op, Placed};
pub use fitting::{FirstInput, first_input};
