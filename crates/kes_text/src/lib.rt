//! Refusals and the lines that tell of them, names as they are shown, and a cursor over bytes.
#![tactic(auto)]

mod complaint;
mod cursor;
mod decimal;
mod refusal;
mod shown;
#[cfg(test)]
mod tests;

pub use complaint::{Complaint, complaint_line, no_memory_line, refusal_line};
pub use cursor::Cursor;
pub use decimal::append_decimal;
pub use refusal::{Kind, NoMemory, Refusal, Stop};
pub use shown::escape;
