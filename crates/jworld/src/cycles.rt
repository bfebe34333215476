//! Classes that stand above themselves.

ghost use Rattle.std.specs.Prelude.{◌≡◌};
ghost use Rattle.jworld.specs.Above.{TellsAbove};
ghost use Rattle.jworld.specs.Faults.{first_of_files, cycle_fault};

use crate::classes::Classes;
use crate::closure::Closure;
use kes_text::{Kind, Refusal};

/// The first file whose class stands above itself.
pub fn cycle_fault(classes: &Classes<'_>, above: &Closure) -> Option<Refusal>
    requires { TellsAbove classes.now above.now }
    ensures { result ≡ first_of_files cycle_fault classes.now }
{
    let files = classes.files();
    for i in 0..files.len() {
        let file = i as u32;
        if above.has(4 + file, 4 + file) {
            let kind = Kind::SuperCycle;
            return Some(Refusal { file, kind, at: 0 });
        }
    }
    None
}
