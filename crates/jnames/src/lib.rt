//! Names of Java classes and members, and their descriptors (JVMS SE 8, 4.2 and 4.3).
#![tactic(auto)]

mod bytes;
mod descriptor;
mod keys;
mod law;
mod name;
mod param;
mod shape;
mod slots;
#[cfg(test)]
mod tests;
mod types;

pub use descriptor::{DescFault, Descriptor};
pub use keys::{FieldKey, MethodKey};
pub use law::descriptors_read_what_is_spelled;
pub use name::Name;
pub use param::Param;
pub use shape::{Shape, width};
pub use slots::{is_field_descriptor, method_slots};
