//! The kernel's data, and the definitions of what the bytecode does under it.
#![tactic(auto)]

mod call;
mod control;
mod event;
mod moves;
mod scheduler;
mod tables;
mod worked;

pub use call::Call;
pub use control::{TaskControl, TaskState};
pub use event::{Event, FailKind, Place, Who};
pub use moves::{Move, PokeBytes};
pub use scheduler::Core;
pub use tables::{
    Action, AlarmRow, CounterRow, CounterRule, Name, Start, Tables, TaskRow, TaskRule,
};
pub use worked::{
    activation_is_lost, held_at_end_fails, initialisers_run_first, ints_wrap,
    preempted_stays_first, reads_tell, released_gives_way, schedule_gives_way, set_event_wakes,
    stored_example,
};
