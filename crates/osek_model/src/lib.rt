//! The whole kernel: tasks, resources and events over `Core`, counters and alarms over `Time`.
#![tactic(auto)]

mod kernel;
mod law;
mod plan;

pub use kernel::{Answer, Kernel};
pub use law::kernel_stays_dispatched;
