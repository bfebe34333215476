//! The typing of a method of a world: its code is decoded, the frames that it declares are read, and the code is
//! checked against them.
#![tactic(auto)]

mod method;

pub use method::{Typed, type_method};
