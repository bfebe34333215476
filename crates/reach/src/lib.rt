//! What is reached in an application: methods, each in its domain, their calls, and the order of the initialisers.
#![tactic(auto)]

mod calls;
mod entries;
mod faults;
mod instructions;
mod methods;
mod pairs;
mod reached;
#[cfg(test)]
mod samples;
mod starts;
#[cfg(test)]
mod tests;
mod typings;

pub use call_graph::CallPlace;
pub use reached::{Reached, reach};
