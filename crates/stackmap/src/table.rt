//! A table that is read from the front.

ghost use Rattle.std.specs.Prelude.{◌≡◌, []};
ghost use Rattle.std.specs.Int.{w8, w16};
ghost use Rattle.kes_text.specs.declared.refusal.Kind.TheVariants as kind;
ghost use Rattle.kes_text.specs.declared.refusal.Stop.TheVariants.{Refused};
ghost use Rattle.stackmap.specs.Places.{place, number_at};

use crate::rest::Rest;
use classfile::Class;
use kes_text::{Kind, Refusal, Stop};
use std::marker::Model;

/// A table's place in the class file, its length in bytes, and its class.
#[derive(Drop)]
pub struct Table<'c, 'a> {
    pub base: u64,
    pub size: usize,
    pub class: &'c Class<'a>,
}

impl<'c, 'a> Model for Table<'c, 'a> {
    ghost use Rattle.stackmap.specs.Places as places;

    ghost Value = { places.Table };

    ghost view = { λ t. record { base = t.base; size = t.size; class = t.class.now } };
}

impl<'c, 'a> Table<'c, 'a> {
    /// Where in the class file the bytes begin that are left.
    pub fn place(&self, rest: &Rest<'_>) -> u64
        ensures { result ≡ place self.now rest.now }
    {
        let read = self.size.saturating_sub(rest.len());
        self.base.saturating_add(read as u64)
    }

    /// The table is refused where these bytes begin.
    pub fn refused(&self, kind: Kind, rest: &Rest<'_>) -> Stop
        ensures { result ≡ Refused (record { file = 0; kind = kind; at = place self.now rest.now }) }
    {
        Stop::Refused(Refusal {
            file: 0,
            kind,
            at: self.place(rest),
        })
    }

    /// The table is refused at its end.
    pub fn unended(&self) -> Stop
        ensures { result ≡ Refused (record { file = 0; kind = kind.FrameEnd; at = place self.now [] }) }
    {
        self.refused(Kind::FrameEnd, &Rest::new(&[]))
    }

    /// An unsigned number of one byte, and the bytes behind it.
    pub fn u8<'b>(&self, rest: &Rest<'b>) -> Result<(u8, Rest<'b>), Stop>
        ensures { result ≡ number_at self.now w8 rest.now }
    {
        let bytes = rest.get();
        if bytes.is_empty() {
            return Err(self.unended());
        }
        let (front, behind) = bytes.split_at(1);
        let number = u8::from_be_bytes([front[0]]);
        Ok((number, Rest::new(behind)))
    }

    /// An unsigned number of two bytes, the highest first, and the bytes behind it.
    pub fn u16<'b>(&self, rest: &Rest<'b>) -> Result<(u16, Rest<'b>), Stop>
        ensures { result ≡ number_at self.now w16 rest.now }
    {
        let bytes = rest.get();
        if bytes.len() < 2 {
            return Err(self.unended());
        }
        let (front, behind) = bytes.split_at(2);
        let number = u16::from_be_bytes([front[0], front[1]]);
        Ok((number, Rest::new(behind)))
    }
}
