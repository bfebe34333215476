//! Counters and alarms: OSEK/VDX OS 2.2.3, section 9.
#![tactic(auto)]

mod time;

pub use time::Time;
