//! Faults at lines.

ghost use Rattle.std.specs.Prelude.{◌≡◌};
ghost use Rattle.kes_text.specs.declared.refusal.Stop.TheVariants.{Refused};
ghost use Rattle.text_words.specs.Said.{check};

use kes_text::{Kind, Refusal, Stop};

/// The text is refused at a line.
pub fn refusal(kind: Kind, line: u64) -> Stop
    ensures { result ≡ Refused (record { file = 0; kind = kind; at = line }) }
{
    Stop::Refused(Refusal {
        file: 0,
        kind,
        at: line,
    })
}

/// The fault stands at the line where the test fails.
pub fn check(test: bool, kind: Kind, line: u64) -> Result<(), Stop>
    ensures { result ≡ check test kind line }
{
    if test {
        Ok(())
    } else {
        Err(refusal(kind, line))
    }
}
