//! What the operand of an instruction names in a world (JVMS SE 8, 5.4.3): a class, a field or a method.
#![tactic(auto)]

mod fields;
mod floats;
mod keys;
mod known;
mod methods;
mod named;
mod objects;
mod operand;
#[cfg(test)]
mod tests;

pub use keys::method_key;
pub use named::{Named, Wanted};
pub use objects::has_objects;
pub use operand::linked;
