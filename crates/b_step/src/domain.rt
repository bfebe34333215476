//! A domain.

ghost use Rattle.std.specs.Prelude.{◌≡◌, IfOk};
ghost use Rattle.b_step.specs.Domain.{first_domain};

use b_heap::{Fields, Heap, Statics};
use kes_text::NoMemory;
use std::alloc::Global;

/// What a domain has: its objects, and its static fields.
#[derive(Drop)]
pub struct Domain {
    pub heap: Heap,
    pub statics: Statics,
}

impl Domain {
    /// A domain at first, with a heap of so many bytes: no object, and what static fields hold at first.
    pub fn new(alloc: Global, fields: &Fields<'_>, limit: u32) -> Result<Domain, NoMemory>
        ensures { IfOk result (λ domain. domain ≡ first_domain fields.now limit) }
    {
        Ok(Domain {
            heap: Heap::new(alloc, limit),
            statics: Statics::new(alloc, fields)?,
        })
    }
}
