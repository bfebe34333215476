use std::alloc::AllocError;

/// Why there is no new object.
#[derive(Clone, Copy, Debug, PartialEq, Eq)]
pub enum HeapFail {
    /// The object takes more than what is left of the heap.
    HeapFull,
    NoMemory,
}

impl From<AllocError> for HeapFail {
    ghost use Rattle.std.specs.Prelude.{◌≡◌};
    ghost use Rattle.b_heap.specs.declared.fault.HeapFail.TheVariants as fail;

    ghost from_gives = { λ _ e. e ≡ fail.NoMemory };

    fn from(_error: AllocError) -> HeapFail {
        HeapFail::NoMemory
    }
}
