//! From the bytes of class files, a configuration and a script to the lines of the run, for tests of whole runs.
#![tactic(auto)]

mod running;

pub use running::{entry_lines, lines};
