//! Calls between pairs, by the pairs' numbers: what is reached along them, and which calls lie on a cycle.
#![tactic(auto)]

mod call_place;
mod components;
mod cycles;
mod law;
mod numbers;
mod ranks;
mod search;
#[cfg(test)]
mod tests;
mod worked;

pub use call_place::CallPlace;
pub use cycles::Cycles;
pub use law::reached_numbers_are_meant;
pub use numbers::Numbers;
pub use search::reached_from;
pub use worked::small_graph;
