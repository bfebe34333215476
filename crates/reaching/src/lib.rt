//! The pairs of a domain and a method that are reached from roots, in the order in which they are mentioned.
#![tactic(auto)]

mod explored;
mod graph;
mod law;
mod pair;
mod pairs;
#[cfg(test)]
mod tests;

pub use explored::{MOST, explore};
pub use graph::{Graph, Mention};
pub use law::reached_is_the_least_closed_set;
pub use pair::Pair;
pub use pairs::Pairs;
