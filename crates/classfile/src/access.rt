ghost use Rattle.std.specs.Prelude.{⊤, [], ◌∷◌, codes};

use bitflags::{Flag, Flags};

/// Access flags of a class, a field or a method (JVMS SE 8, tables 4.1-A, 4.5-A and 4.6-A). Bits that
/// have no name here are kept.
#[derive(Clone, Copy, PartialEq, Eq, Debug)]
pub struct Access {
    pub bits: u16,
}

impl Access {
    pub const PUBLIC: Access = Access { bits: 0x0001 };

    pub const PRIVATE: Access = Access { bits: 0x0002 };

    pub const PROTECTED: Access = Access { bits: 0x0004 };

    pub const STATIC: Access = Access { bits: 0x0008 };

    pub const FINAL: Access = Access { bits: 0x0010 };

    pub const SYNCHRONIZED: Access = Access { bits: 0x0020 };

    pub const NATIVE: Access = Access { bits: 0x0100 };

    pub const INTERFACE: Access = Access { bits: 0x0200 };

    pub const ABSTRACT: Access = Access { bits: 0x0400 };

    const FLAGS: &'static [Flag<Access>] = &[
        Flag {
            name: "PUBLIC",
            value: Access::PUBLIC,
        },
        Flag {
            name: "PRIVATE",
            value: Access::PRIVATE,
        },
        Flag {
            name: "PROTECTED",
            value: Access::PROTECTED,
        },
        Flag {
            name: "STATIC",
            value: Access::STATIC,
        },
        Flag {
            name: "FINAL",
            value: Access::FINAL,
        },
        Flag {
            name: "SYNCHRONIZED",
            value: Access::SYNCHRONIZED,
        },
        Flag {
            name: "NATIVE",
            value: Access::NATIVE,
        },
        Flag {
            name: "INTERFACE",
            value: Access::INTERFACE,
        },
        Flag {
            name: "ABSTRACT",
            value: Access::ABSTRACT,
        },
    ];
}

impl Flags for Access {
    type Bits = u16;

    ghost exact = { ⊤ };

    ghost table = { (codes "PUBLIC", 1) ∷ (codes "PRIVATE", 2) ∷ (codes "PROTECTED", 4) ∷ (codes "STATIC", 8) ∷ (codes "FINAL", 16) ∷ (codes "SYNCHRONIZED", 32) ∷ (codes "NATIVE", 256) ∷ (codes "INTERFACE", 512) ∷ (codes "ABSTRACT", 1024) ∷ [] };

    ghost set_of = { λ a. a.bits };

    fn flags<'a>() -> &'a [Flag<Access>] {
        Access::FLAGS
    }

    fn bits(&self) -> u16 {
        self.bits
    }

    fn from_bits_retain(bits: u16) -> Access {
        Access { bits }
    }
}
