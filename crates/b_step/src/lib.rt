//! What one instruction makes of the values of its frame and of its domain (JVMS SE 8, 6.5).
#![tactic(auto)]

mod arrays;
mod calls;
mod domain;
mod done;
mod fields;
mod instruction;
mod objects;
mod receivers;
mod services;
#[cfg(test)]
mod tests;
mod worked;

pub use domain::Domain;
pub use done::Done;
pub use instruction::execute;
pub use worked::{instructions_fail, services_take_numbers};
