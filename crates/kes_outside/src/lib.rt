//! Files and sinks: what a program reads and writes, and when that may fail.
#![tactic(auto)]

mod calls;
mod count;
mod files;
mod host_files;
mod host_sink;
mod mem_files;
mod mem_sink;
mod sink;
mod streams;

pub use files::{FileFault, Files, ReadStop};
pub use host_files::{HostFiles, MOST_BYTES};
pub use host_sink::HostSink;
pub use mem_files::MemFiles;
pub use mem_sink::MemSink;
pub use sink::{Sink, SinkFault};
