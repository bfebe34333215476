//! The names by which scripts and event lines speak of an application's objects and methods.
#![tactic(auto)]

mod methods;
mod objects;
#[cfg(test)]
mod tests;
mod worked;

pub use methods::method_names;
pub use objects::names;
pub use script::Names;
pub use worked::names_of_small_world;
