//! What happens to a system, line by line as a script has it, and the lines that tell what a run shows.
#![tactic(auto)]

mod event_words;
mod fail_kind;
mod hex;
mod law;
mod line;
mod names;
mod reading;
mod writing;

pub use event_words::event_line;
pub use fail_kind::fail_kind_name;
pub use law::{scripts_are_read_in_form, small_scripts, written_scripts_keep_their_moves};
pub use line::Line;
pub use names::Names;
pub use osek_core::{Event, FailKind, Move, Place, PokeBytes, Who};
pub use reading::read_script;
pub use writing::write_script;
