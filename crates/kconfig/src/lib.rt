//! The configuration of an application, read line by line from its text, and the kernel's tables of it.
#![tactic(auto)]

mod alarms;
mod config;
mod devices;
mod kernel_tables;
mod methods;
mod reader;
mod reading;
mod service_words;
mod task_masks;
mod task_rows;
mod tasks;
mod word_set;
mod words;
mod worked;

pub use config::{
    AlarmLine, CellLine, Config, CounterLine, DeviceLine, DevicesLine, DomainLine, KesoLine,
    NameLine, NativeLine, ObjectLine, PortalLine, Service, StartLine, TaskLine, UseLine, WaitLine,
};
pub use kernel_tables::tables;
pub use osek_core::Action;
pub use reading::read_config;
pub use worked::tables_of_two_tasks;
