//! The code of a method as a run takes it: what each instruction does, and where a jump leads.
#![tactic(auto)]

mod method;
mod places;
#[cfg(test)]
mod tests;
mod worked;

pub use method::MethodCode;
pub use places::Places;
pub use worked::places_of_a_switch;
