//! Reads the objects of an application from OIL 2.5.
#![tactic(auto)]

mod alarms;
mod forms;
mod law;
mod objects;
mod pieces;
mod reading;
mod scan;
mod tasks;
mod worked;

pub use law::{printed_tables_come_back, what_is_said_is_read};
pub use reading::read_oil;
pub use worked::{first_faults, objects_are_read, pieces_are_read};
