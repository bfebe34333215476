//! The objects and the static fields of one domain (JVMS SE 8, 2.5.3 and 2.7), in running bytecode.
#![tactic(auto)]

mod fault;
mod fields;
mod heap;
mod kind;
mod object;
mod places;
mod shapes;
mod statics;
mod subtypes;
mod sums;
mod tables;
#[cfg(test)]
mod tests;
mod types;
mod worked;

pub use fault::HeapFail;
pub use fields::Fields;
pub use heap::Heap;
pub use kind::Kind;
pub use shapes::shape_of;
pub use statics::Statics;
pub use types::{is_instance, is_of, may_hold};
pub use worked::{fields_stand, objects_cost, objects_have_types, objects_keep};
