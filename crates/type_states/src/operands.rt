//! The operands of a frame.

ghost use Rattle.std.specs.Prelude.{◌≡◌, [], ◌∷◌, ◌++◌, reverse, MatchOption, OnOk, IfOk};

use crate::vtype::all_copied;
use kes_text::NoMemory;
use sqlite_items::Items;
use stackmap::VType;
use std::alloc::Global;
use std::marker::Model;

/// The types of the operands, the last of which is the topmost. Contracts see them from the top.
#[derive(Drop)]
pub struct Operands {
    types: Items<VType>,
}

impl Model for Operands {
    ghost use Rattle.std.specs.Prelude.{List, reverse};
    ghost use Rattle.stackmap.specs.declared.vtype.VType.{VType};

    ghost Value = { List VType };

    ghost view = { λ o. reverse o.types };
}

impl Operands {
    pub fn new(alloc: Global) -> Operands
        ensures { result ≡ [] }
    {
        Operands {
            types: Items::new(alloc),
        }
    }

    /// The operands of a frame's stack, the last of which is the topmost.
    pub fn of(types: Items<VType>) -> Operands
        ensures { result ≡ reverse types }
    {
        Operands { types }
    }

    /// The stack of a frame with these operands.
    pub fn into_stack(self) -> Items<VType>
        ensures { reverse result ≡ self }
    {
        let Operands { types } = self;
        types
    }

    /// The types, the last of which is the topmost.
    pub fn stack(&self) -> &[VType]
        ensures { reverse result.now ≡ self.now }
    {
        self.types.as_slice()
    }

    /// One more on the top.
    pub fn push(&mut self, top: VType) -> Result<(), NoMemory>
        ensures { OnOk result (self.new ≡ top ∷ self.old) }
    {
        self.types.push(top)?;
        Ok(())
    }

    /// The topmost, taken away.
    pub fn pop(&mut self) -> Option<VType>
        ensures { MatchOption result ((self.old ≡ []) × (self.new ≡ [])) (λ top. self.old ≡ top ∷ self.new) }
    {
        self.types.pop()
    }

    /// All of these on the top, in their order.
    pub fn append(&mut self, tops: Operands) -> Result<(), NoMemory>
        ensures { OnOk result (self.new ≡ tops ++ self.old) }
    {
        let Operands { types } = tops;
        self.types.append(types)
    }

    /// The same operands again.
    pub fn copied(&self, alloc: Global) -> Result<Operands, NoMemory>
        ensures { IfOk result (λ made. made ≡ self.now) }
    {
        let types = all_copied(alloc, self.types.as_slice())?;
        Ok(Operands { types })
    }
}
