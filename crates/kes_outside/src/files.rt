ghost use Rattle.std.specs.Prelude.{◌≡◌, ℕ, ◌≤◌, Option, Some, None, Err, IfOk, IfSome, IsSomeAnd, OnOk};
ghost use Rattle.std.specs.FinMap.{get, insert};
ghost use Rattle.kes_outside.specs.Contents.{Contents, OthersStay};
ghost use Rattle.kes_outside.specs.Count.{Rose};

use std::alloc::Global;
use thiserror::Error;

/// Why a file was not read.
#[derive(Clone, Copy, Debug, PartialEq, Eq, Error)]
pub enum ReadStop {
    /// There is no such file. Only files whose contents are told answer this.
    #[error("there is no such file")]
    Missing,
    /// A fault, which has been counted.
    #[error("the file cannot be read")]
    Failed,
    #[error("out of memory")]
    NoMemory,
}

/// Why a file was not written.
#[derive(Clone, Copy, Debug, PartialEq, Eq, Error)]
pub enum FileFault {
    /// A fault, which has been counted. The file may hold anything, or be gone.
    #[error("the file cannot be written")]
    Failed,
    /// No file has changed.
    #[error("out of memory")]
    NoMemory,
}

/// Files by name.
pub trait Files {
    /// What each file holds, or None where nothing is told.
    ghost contents: { Self → Option Contents };

    /// How many calls have failed. It stands still at the last number of 64 bits.
    ghost faults: { Self → ℕ };

    /// The bytes of the named file, to its end.
    fn read(&mut self, alloc: Global, name: &str) -> Result<Vec<u8>, ReadStop>
        ensures ok { IfOk result (λ bytes. IfSome (contents self.old) (λ files. get files name.now ≡ Some bytes.items)) }
        ensures files { contents self.new ≡ contents self.old }

        // Missing comes only where it is told that there is no such file, and counts as no fault.
        ensures missing { result ≡ Err ReadStop.Missing → IsSomeAnd (contents self.old) (λ files. get files name.now ≡ None) }
        ensures missing_is_no_fault { result ≡ Err ReadStop.Missing → faults self.new ≡ faults self.old }
        ensures failed { result ≡ Err ReadStop.Failed → Rose (faults self.old) (faults self.new) }
        ensures count { faults self.old ≤ faults self.new };

    /// Makes the named file hold these bytes and no others.
    fn write(&mut self, alloc: Global, name: &str, bytes: &[u8]) -> Result<(), FileFault>
        ensures ok { OnOk result (IfSome (contents self.old) (λ files. contents self.new ≡ Some (insert files name.now bytes.now))) }

        // After a failed write nothing is told of the named file, and the others stand.
        ensures others { result ≡ Err FileFault.Failed → IfSome (contents self.old) (λ files. IsSomeAnd (contents self.new) (OthersStay name.now files)) }
        ensures failed { result ≡ Err FileFault.Failed → Rose (faults self.old) (faults self.new) }
        ensures no_memory { result ≡ Err FileFault.NoMemory → contents self.new ≡ contents self.old }
        ensures count { faults self.old ≤ faults self.new };
}
