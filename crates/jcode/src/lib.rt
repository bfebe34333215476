//! The instructions of a method's code, read by one table of opcodes.
#![tactic(auto)]

mod code;
mod decoding;
mod fault;
mod instruction;
mod jumps;
mod op;
mod operands;
mod pool;
mod reading;
mod refused;
mod row;
mod switches;
mod table;
mod target;
mod worked;

pub use decoding::decode;
pub use op::{Ins, Op, Test};
pub use worked::{first_faults, spellings, switch_tables};
