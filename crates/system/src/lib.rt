//! The system that a run keeps: the kernel before and after its start, and who acts.
#![tactic(auto)]

mod lost;
mod system;
mod worked;

pub use lost::lost_alarms;
pub use osek_model::Answer;
pub use system::System;
pub use worked::system_of_one_task;
