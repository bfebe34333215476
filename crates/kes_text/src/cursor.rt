ghost use Rattle.std.specs.Prelude.{◌≡◌, ◌<◌, ◌≤◌, ◌↔◌, [], ◌∷◌, length, take, IsTrue, IsSome, IfSome, OnSome, IfNone, MatchOption};
ghost use Rattle.std.specs.List.{position};
ghost use Rattle.kes_text.specs.Lines.{is_line_feed, lines};
ghost use Rattle.kes_text.specs.Reading.{rest, moved, next_line, behind_line};

use std::marker::Model;

/// A place in an input that is read from front to back.
#[derive(Drop)]
pub struct Cursor<'a> {
    input: &'a [u8],
    place: usize,
}

impl<'a> Model for Cursor<'a> {
    ghost use Rattle.std.specs.Prelude.{length, ◌≤◌};
    ghost use Rattle.kes_text.specs.Reading.{Reading};

    ghost Value = { Reading };

    ghost view = { λ c. record { input = c.input.now; place = c.place } };

    ghost invariant = { λ c. c.place ≤ length c.input.now };
}

impl<'a> Cursor<'a> {
    /// A cursor at the front of the bytes.
    pub fn new(bytes: &'a [u8]) -> Cursor<'a>
        ensures { result ≡ record { input = bytes.now; place = 0 } }
    {
        Cursor {
            input: bytes,
            place: 0,
        }
    }

    /// How many bytes have been passed over.
    pub fn at(&self) -> u64
        ensures place { result ≡ self.now.place }
        ensures within { self.now.place ≤ length self.now.input }
    {
        self.place as u64
    }

    /// Whether no byte is left.
    pub fn is_at_end(&self) -> bool
        ensures { IsTrue result ↔ (self.now.place ≡ length self.now.input) }
    {
        self.place == self.input.len()
    }

    /// The bytes that are left.
    pub fn rest(&self) -> &'a [u8]
        ensures { result.now ≡ rest self.now }
    {
        &self.input[self.place..]
    }

    /// The next `n` bytes, or None where fewer are left.
    pub fn take(&mut self, n: usize) -> Option<&'a [u8]>
        ensures enough { IsSome result ↔ (n ≤ length (rest self.old)) }
        ensures piece { IfSome result (λ piece. piece.now ≡ take n (rest self.old)) }
        ensures after { OnSome result (self.new ≡ moved self.old n) }
        ensures short { IfNone result (self.new ≡ self.old) }
    {
        let piece = self.rest().get(..n)?;
        self.place += n;
        Some(piece)
    }

    /// The bytes before the next line feed, which is passed over with them, or all that are left where
    /// no line feed follows. None where no byte is left.
    pub fn line(&mut self) -> Option<&'a [u8]>
        ensures more { IsSome result ↔ (self.old.place < length self.old.input) }
        ensures piece { IfSome result (λ line. line.now ≡ next_line self.old) }
        ensures after { OnSome result (self.new ≡ behind_line self.old) }
        ensures end { IfNone result (self.new ≡ self.old) }

        // The calls answer the lines of what is left, in their order.
        ensures lines { MatchOption result
            (lines (rest self.old) ≡ [])
            (λ line. lines (rest self.old) ≡ line.now ∷ lines (rest self.new)) }
    {
        let rest = self.rest();
        if rest.is_empty() {
            return None;
        }
        let length = first_line_feed(rest).unwrap_or(rest.len());
        let line = &rest[..length];
        self.place = self.input.len().min(self.place + line.len() + 1);
        Some(line)
    }
}

/// Where the first line feed is.
fn first_line_feed(bytes: &[u8]) -> Option<usize>
    ensures { result ≡ position is_line_feed bytes.now }
{
    bytes.iter().position(|byte| *byte == b'\n')
}
