ghost use Rattle.std.specs.Prelude.{◌≡◌, ℕ, ◌≤◌, ◌++◌, List, Option, Some, Err, IfSome, OnOk, take};
ghost use Rattle.kes_outside.specs.Count.{Rose};

use std::alloc::Global;
use thiserror::Error;

/// Why a piece was not taken.
#[derive(Clone, Copy, Debug, PartialEq, Eq, Error)]
pub enum SinkFault {
    /// A fault, which has been counted. The piece's first bytes may have been taken.
    #[error("the piece was not taken whole")]
    Failed,
    /// No byte of the piece was taken.
    #[error("out of memory")]
    NoMemory,
}

/// Where a program's output goes.
pub trait Sink {
    /// The bytes that it has taken, or None where they are not told.
    ghost taken: { Self → Option (List ℕ) };

    /// How many calls have failed. It stands still at the last number of 64 bits.
    ghost faults: { Self → ℕ };

    /// Takes the whole piece.
    fn put(&mut self, alloc: Global, bytes: &[u8]) -> Result<(), SinkFault>
        ensures ok { OnOk result (IfSome (taken self.old) (λ before. taken self.new ≡ Some (before ++ bytes.now))) }

        // A failed call may have taken the piece's first bytes.
        ensures prefix { result ≡ Err SinkFault.Failed → IfSome (taken self.old) (λ before. (n : ℕ) × (taken self.new ≡ Some (before ++ take n bytes.now))) }
        ensures failed { result ≡ Err SinkFault.Failed → Rose (faults self.old) (faults self.new) }
        ensures no_memory { result ≡ Err SinkFault.NoMemory → taken self.new ≡ taken self.old }
        ensures count { faults self.old ≤ faults self.new };
}
