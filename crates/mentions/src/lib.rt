//! What an instruction mentions in a domain: initialisers of classes and targets of calls; and the rules of the profile
//! that it has to keep.
#![tactic(auto)]

mod binding;
mod called;
mod calls;
mod initialising;
mod instruction;
mod mapped;
mod setting;
mod targets;
#[cfg(test)]
mod tests;

pub use binding::{Binding, Bindings};
pub use called::Called;
pub use calls::special_target;
pub use initialising::is_initialiser;
pub use instruction::mentioned;
pub use setting::Setting;
pub use targets::{Targets, has_code, targets_of};
