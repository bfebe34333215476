//! Reading a text line by line.

ghost use Rattle.std.specs.Prelude.{◌≡◌, ◌≤◌, IfOk};
ghost use Rattle.kes_text.specs.declared.refusal.Stop.TheVariants.{Refused};
ghost use Rattle.oil_in.specs.Scan.{Answers, next, fixed, within, number_between};
ghost use Rattle.oil_in.specs.Pieces.{behind};

use crate::forms::number_line;
use crate::pieces::{Number, behind};
use kes_text::{Kind, Refusal, Stop};
use std::marker::Model;

/// The bytes that are left, and the number of the line that begins there.
#[derive(Drop)]
pub struct Scan<'a> {
    text: &'a [u8],
    line: u64,
}

impl<'a> Model for Scan<'a> {
    ghost use Rattle.oil_in.specs.Scan as spec;

    ghost Value = { spec.Scan };

    ghost view = { λ s. record { text = s.text.now; line = s.line } };
}

impl<'a> Scan<'a> {
    /// The front of the text.
    pub fn new(text: &'a [u8]) -> Scan<'a>
        ensures { result ≡ record { text = text.now; line = 1 } }
    {
        Scan { text, line: 1 }
    }

    /// The bytes that are left.
    pub fn text(&self) -> &'a [u8]
        ensures { result.now ≡ self.now.text }
    {
        self.text
    }

    /// The scan at the next line, where `rest` is what is behind this one.
    pub fn next(&self, rest: &'a [u8]) -> Scan<'a>
        ensures { result ≡ next self.now rest.now }
    {
        Scan {
            text: rest,
            line: self.line.saturating_add(1),
        }
    }

    /// The text is refused at this line.
    pub fn refused(&self, kind: Kind) -> Stop
        ensures { result ≡ Refused (record { file = 0; kind = kind; at = self.now.line }) }
    {
        Stop::Refused(Refusal {
            file: 0,
            kind,
            at: self.line,
        })
    }

    /// The scan behind a line that must stand here.
    pub fn fixed(self, text: &str) -> Result<Scan<'a>, Stop>
        ensures { Answers (λ x. x) result (fixed (behind text.now self.entry.text) self.entry) }
    {
        match behind(text, self.text()) {
            Some(rest) => Ok(self.next(rest)),
            None => Err(self.refused(Kind::Syntax)),
        }
    }

    /// The number of an attribute, which must be from `low` to `high`.
    #[tactic(auto, unfolding(crate::specs::Scan::number_between))]
    pub fn number(self, front: &str, low: u32, high: u32) -> Result<(u32, Scan<'a>), Stop>
        ensures read { Answers (λ x. x) result (number_between front.now low high self.entry) }
        ensures most { IfOk result (λ x. x.0 ≤ high) }
    {
        let Some((number, rest)) = number_line(front, self.text()) else {
            return Err(self.refused(Kind::Syntax));
        };
        match within(number, low, high) {
            Some(number) => Ok((number, self.next(rest))),
            None => Err(self.refused(Kind::Range)),
        }
    }
}

/// The number, if it is within its bounds.
fn within(number: Number, low: u32, high: u32) -> Option<u32>
    ensures { result ≡ within low high number }
{
    match number {
        Number::Value(number) if u64::from(low) <= number && number <= u64::from(high) => {
            Some(number as u32)
        }
        _ => None,
    }
}
