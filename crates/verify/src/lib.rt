//! The type checker of Java bytecode (JVMS SE 8, 4.10.1.6): the frame before each instruction of a method, or the
//! first fault.
#![tactic(auto)]

mod checker;
mod fact;
mod law;
mod maps;
mod steps;
mod walk;

pub use checker::verify;
pub use fact::{Fact, Slot};
pub use law::{frames_are_within, jumps_land, what_is_found_is_well_typed};
