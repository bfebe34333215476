//! The rules of the instructions of Java bytecode (JVMS SE 8, 4.10.1.9): what each makes of the types of slots
//! and operands before it.
#![tactic(auto)]

mod arrays;
mod environment;
mod group;
mod instructions;
mod locals;
mod members;
mod numbers;
mod operations;
mod returned;
mod returns;
mod rules;
mod stack_forms;
mod starts;
mod transition;
mod worked;

pub use environment::{Environment, environment_of};
pub use group::Group;
pub use operations::falls_through;
pub use returned::Returned;
pub use rules::outcome;
pub use starts::Starts;
pub use worked::{uninitialised_objects, values_of_two_places};
