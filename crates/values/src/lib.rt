//! Values of running bytecode (JVMS SE 8, 2.2 to 2.4): what locals, operands, fields and items hold.
#![tactic(auto)]

mod keeping;
#[cfg(test)]
mod tests;
mod value;
mod worked;

pub use keeping::{kept, zero};
pub use value::Value;
pub use worked::{values_at_first, values_kept};
