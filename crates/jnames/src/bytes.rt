ghost use Rattle.std.specs.Prelude.{◌≡◌, ◌==◌, if◌then◌else◌, drop, length, position, take_while, IfOk};
ghost use Rattle.jnames.specs.Bytes.{begins_with, up_to, before};

use crate::name::Name;
use std::alloc::{AllocError, Global};
use std::marker::Model;

/// Bytes of a descriptor, which contracts see as their list.
#[derive(Drop)]
pub struct Bytes<'a> {
    slice: &'a [u8],
}

impl<'a> Model for Bytes<'a> {
    ghost use Rattle.std.specs.Prelude.{ℕ, List};

    ghost Value = { List ℕ };

    ghost view = { λ b. b.slice.now };
}

impl<'a> Bytes<'a> {
    pub fn new(slice: &'a [u8]) -> Bytes<'a>
        ensures { result ≡ slice.now }
    {
        Bytes { slice }
    }

    pub fn as_slice(&self) -> &'a [u8]
        ensures { result.now ≡ self.now }
    {
        self.slice
    }

    pub fn is_empty(&self) -> bool
        ensures { result ≡ (length self.now == 0) }
    {
        self.slice.is_empty()
    }

    pub fn begins_with(&self, byte: u8) -> bool
        ensures { result ≡ begins_with byte self.now }
    {
        match self.slice {
            [first, ..] => *first == byte,
            [] => false,
        }
    }

    /// The bytes behind the byte at the front.
    pub fn behind(&self, byte: u8) -> Option<Bytes<'a>>
        ensures { result ≡ (if begins_with byte self.now then Some (drop 1 self.now) else None) }
    {
        match self.slice {
            [first, rest @ ..] if *first == byte => Some(Bytes { slice: rest }),
            _ => None,
        }
    }

    /// How many of the byte stand at the front.
    pub fn count_front(&self, byte: u8) -> usize
        ensures { result ≡ length (take_while (λ b. b == byte) self.now) }
    {
        self.slice.iter().take_while(|b| **b == byte).count()
    }

    /// The bytes behind the first `count`, or behind all where there are fewer.
    pub fn skip(&self, count: usize) -> Bytes<'a>
        ensures { result ≡ drop count self.now }
    {
        let slice = self.slice;
        let count = count.min(slice.len());
        Bytes {
            slice: &slice[count..],
        }
    }

    /// The bytes before those of `rest`, which are as many of the last.
    pub fn before(&self, rest: &Bytes<'a>) -> Bytes<'a>
        ensures { result ≡ before self.now rest.now }
    {
        let slice = self.slice;
        let count = slice.len().saturating_sub(rest.slice.len());
        Bytes {
            slice: &slice[..count],
        }
    }

    /// The bytes before the first `byte`, and those behind it.
    pub fn split_once(&self, byte: u8) -> Option<(Bytes<'a>, Bytes<'a>)>
        ensures { result ≡ up_to byte self.now }
    {
        let slice = self.slice;
        let place = place_of(slice, byte)?;
        let front = &slice[..place];
        let rest = &slice[place + 1..];
        Some((Bytes { slice: front }, Bytes { slice: rest }))
    }

    /// A name of the same bytes.
    pub fn to_name(&self, alloc: Global) -> Result<Name, AllocError>
        ensures { IfOk result (λ name. name ≡ self.now) }
    {
        Ok(Name::new(Vec::from_slice(alloc, self.slice)?))
    }
}

fn place_of(bytes: &[u8], byte: u8) -> Option<usize>
    ensures { result ≡ position (λ b. b == byte) bytes.now }
{
    bytes.iter().position(|b| *b == byte)
}
