//! Verification types and the states of a method's code: the types of slots and operands (JVMS SE 8, 4.10.1.2
//! and 4.10.1.4), and which may stand where others are wanted.
#![tactic(auto)]

mod assignable;
mod frame;
mod operands;
mod slots;
mod state;
mod states;
mod uninit;
mod vtype;
mod worked;

pub use assignable::{
    is_assignable, is_reference, is_slot_assignable, is_subclass_there, reference_in,
};
pub use frame::{frame_of, is_within, state_of};
pub use operands::Operands;
pub use slots::{copied_at, stored};
pub use state::TypeState;
pub use states::is_state_assignable;
pub use uninit::{instead_in, is_among, object_made};
pub use vtype::is_wide;
pub use worked::{frames_and_states, halves_of_longs, objects_made, types_of_arrays};
