//! The application that an input is, as a run takes it, and the names by which its events are shown.
#![tactic(auto)]

mod methods;
mod program;
mod starts;

pub use program::{names_of_run, program_of};
