//! What is looked at.

ghost use Rattle.std.specs.Prelude.{◌≡◌, IfOk};
ghost use Rattle.mentions.specs.Bindings.{binding_of};
ghost use Rattle.mentions.specs.Initialisers.{initialisers};
ghost use Rattle.mentions.specs.Mapped.{is_mapped};

use crate::binding::{Binding, Bindings};
use crate::initialising::{find_all, initialisers};
use crate::mapped::Mapped;
use jworld::{ClassId, MethodId, World};
use kbind::Bound;
use kes_text::NoMemory;
use reaching::Pair;
use sqlite_items::Items;
use std::alloc::Global;
use std::marker::Model;

/// A configuration that is bound to a world of classes, with what is looked up often.
#[derive(Drop)]
pub struct Setting<'s, 'w> {
    pub world: &'s World<'w>,
    pub bound: &'s Bound,
    bindings: Bindings,
    mapped: Mapped,
    initialisers: Items<Option<MethodId>>,
}

impl<'s, 'w> Model for Setting<'s, 'w> {
    ghost use Rattle.std.specs.Prelude.{◌≡◌, ℕ, map};
    ghost use Rattle.std.specs.List.{range_with_len};
    ghost use Rattle.jworld.specs.declared.ids.MethodId.{MethodId as Id};
    ghost use Rattle.jworld.specs.Classes.{count};
    ghost use Rattle.mentions.specs.Setting.{Setting as Looked};
    ghost use Rattle.mentions.specs.Bindings.{bound_as, binding_of};
    ghost use Rattle.mentions.specs.Mapped.{is_among, is_mapped};
    ghost use Rattle.mentions.specs.Initialisers.{initialiser_of};

    ghost Value = { Looked };

    ghost view = { λ s. record { files = s.world.now; bound = s.bound.now } };

    ghost invariant = { λ s. ((id : Id) → bound_as id s.bindings ≡ binding_of s.bound.now id)
        × ((n : ℕ) → is_among n s.mapped ≡ is_mapped s.bound.now n)
        × (s.initialisers ≡ map (initialiser_of s.world.now) (range_with_len 0 (count s.world.now))) };
}

impl<'s, 'w> Setting<'s, 'w> {
    pub fn new(
        alloc: Global,
        world: &'s World<'w>,
        bound: &'s Bound,
    ) -> Result<Setting<'s, 'w>, NoMemory>
        ensures { IfOk result (λ s. s ≡ record { files = world.now; bound = bound.now }) }
    {
        Ok(Setting {
            world,
            bound,
            bindings: Bindings::of(alloc, bound)?,
            mapped: Mapped::of(alloc, bound)?,
            initialisers: find_all(alloc, world)?,
        })
    }

    /// What a native method is bound to.
    pub fn binding(&self, id: MethodId) -> Option<Binding>
        ensures { result ≡ binding_of self.now.bound id }
    {
        self.bindings.get(id)
    }

    /// Whether a class has cells.
    pub fn is_mapped(&self, class: ClassId) -> bool
        ensures { result ≡ is_mapped self.now.bound class.n }
    {
        self.mapped.has(class)
    }

    /// The initialisers of a class and its superclasses in a domain, that of the superclass first.
    pub fn initialisers(
        &self,
        alloc: Global,
        domain: u32,
        class: ClassId,
    ) -> Result<Items<Pair>, NoMemory>
        ensures { IfOk result (λ pairs. pairs ≡ initialisers self.now.files domain class.n) }
    {
        initialisers(
            alloc,
            self.world,
            self.initialisers.as_slice(),
            domain,
            class,
        )
    }
}
