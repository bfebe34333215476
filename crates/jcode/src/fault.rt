//! Why an instruction can't be read.

ghost use Rattle.std.specs.Prelude.{◌≡◌};
ghost use Rattle.jcode.specs.declared.fault.Flaw.TheVariants as flaws;

use std::alloc::{AllocError, AllocFailed};

/// What is wrong with an instruction, each at the place of its opcode but for `WideOpcode`.
#[derive(Clone, Copy)]
pub enum Fault {
    /// No instruction has the opcode.
    Opcode,
    /// What stands behind wide has no wide form; this is at the byte behind wide.
    WideOpcode,
    /// The instruction isn't of the profile.
    Unsupported,
    /// The operands pass the end of the code, or name nothing of the wanted kind.
    Operand,
    /// The bounds or the keys of a switch don't rise, or the number of its pairs is negative.
    SwitchTable,
}

/// Why nothing was read.
#[derive(Drop)]
pub enum Flaw {
    NoMemory,
    Fault(Fault),
}

impl From<AllocError> for Flaw {
    ghost from_gives = { λ _ flaw. flaw ≡ flaws.NoMemory };

    fn from(_error: AllocError) -> Flaw {
        Flaw::NoMemory
    }
}

impl<T: Drop> From<AllocFailed<T>> for Flaw {
    ghost from_gives = { λ _ flaw. flaw ≡ flaws.NoMemory };

    fn from(_error: AllocFailed<T>) -> Flaw {
        Flaw::NoMemory
    }
}
