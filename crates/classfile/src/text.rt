ghost use Rattle.std.specs.Prelude.{◌≡◌, ◌==◌, is_some, bytes_eq};
ghost use Rattle.jnames.specs.Bytes.{begins_with};
ghost use Rattle.jnames.specs.Descriptors.{field_of, method_slots};

use std::marker::Model;

/// A text of the constant pool, which contracts see as its bytes. What descriptor it is is found once, so
/// that many entries may name one long text.
#[derive(Drop)]
pub struct Text<'a> {
    bytes: &'a [u8],
    is_field: bool,
    slots: Option<u16>,
}

impl<'a> Model for Text<'a> {
    ghost use Rattle.std.specs.Prelude.{ℕ, List, ◌≡◌, is_some};
    ghost use Rattle.jnames.specs.Descriptors.{field_of, method_slots};

    ghost Value = { List ℕ };

    ghost view = { λ t. t.bytes.now };

    ghost invariant = { λ t. (t.is_field ≡ is_some (field_of t.bytes.now)) × (t.slots ≡ method_slots t.bytes.now) };
}

impl<'a> Text<'a> {
    pub fn new(bytes: &'a [u8]) -> Text<'a>
        ensures { result ≡ bytes.now }
    {
        let is_field = jnames::is_field_descriptor(bytes);
        let slots = jnames::method_slots(bytes);
        Text {
            bytes,
            is_field,
            slots,
        }
    }

    pub fn as_slice(&self) -> &'a [u8]
        ensures { result.now ≡ self.now }
    {
        self.bytes
    }

    pub fn is(&self, expected: &[u8]) -> bool
        ensures { result ≡ bytes_eq self.now expected.now }
    {
        self.bytes == expected
    }

    pub fn begins_with(&self, byte: u8) -> bool
        ensures { result ≡ begins_with byte self.now }
    {
        match self.bytes {
            [first, ..] => *first == byte,
            [] => false,
        }
    }

    pub fn is_field_descriptor(&self) -> bool
        ensures { result ≡ is_some (field_of self.now) }
    {
        self.is_field
    }

    /// The slots of a method descriptor's parameters.
    pub fn method_slots(&self) -> Option<u16>
        ensures { result ≡ method_slots self.now }
    {
        self.slots
    }
}
