//! A script that is replayed on the bytecode: each event's line is put on an output as soon as the event is shown.
#![tactic(auto)]

mod ending;
mod law;
mod putting;
mod replaying;

pub use ending::Ending;
pub use law::nobody_acts_again;
pub use replaying::{replay, trace};
