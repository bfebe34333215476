//! The names of a configuration bound to the members of a world.
#![tactic(auto)]

mod bases;
mod binding;
#[cfg(test)]
mod blinker;
mod bound;
mod cells;
mod classes;
mod devices;
mod entries;
mod mapped;
mod methods;
mod named;
mod natives;
mod noting;
mod objects;
mod pairs;
mod parents;
mod places;
mod portals;
mod rooms;
#[cfg(test)]
mod tests;
mod worked;

pub use binding::bind;
pub use bound::Bound;
pub use worked::{named_members, natives_refused, objects_placed, portals_matched};
