//! The frames of a method's code: the one at its start, and those of its StackMapTable (JVMS SE 8, 4.7.4).
#![tactic(auto)]

mod frame;
mod frames;
mod items;
mod rest;
mod start;
mod table;
mod vtype;
mod worked;

pub use frame::{Declared, Frame};
pub use frames::read_frames;
pub use start::start_frame;
pub use vtype::VType;
pub use worked::{
    chopped_and_appended, frame_forms, start_frames, tables_refused, verification_types,
};
