//! The bases of objects.

ghost use Rattle.std.specs.Prelude.{◌≡◌, ◌==◌, ◌&&◌, ◌||◌, [], ℕ, List, OnOk, bytes_eq, not, Some};
ghost use Rattle.kbind.specs.Bases.{taken_at, by_another, is_taken, HasTaken};

use kes_text::NoMemory;
use std::alloc::Global;
use std::collections::HashMap;
use std::marker::Model;

/// The CLASS of the first object at a base, and whether one of another CLASS stands there as well.
#[derive(Clone, Copy)]
pub struct Taken<'t> {
    pub class: &'t [u8],
    pub shared: bool,
}

/// Bases that objects have taken.
#[derive(Drop)]
pub struct Bases<'t> {
    bases: HashMap<u64, Taken<'t>>,
}

impl<'t> Model for Bases<'t> {
    ghost use Rattle.kbind.specs.Bases as spec;

    ghost Value = { spec.Bases };

    ghost view = { λ b. b.bases.entries };
}

/// Whether another CLASS has taken the base.
fn by_another(taken: Option<Taken<'_>>, class: &[u8]) -> bool
    ensures { result ≡ by_another taken.entry class.now }
{
    match taken {
        Some(taken) => taken.shared || taken.class != class,
        None => false,
    }
}

/// A base that a CLASS takes as well.
fn with_class<'t>(taken: Option<Taken<'t>>, class: &'t [u8]) -> Taken<'t>
    ensures { (word : List ℕ) → by_another (Some result) word ≡ (not (bytes_eq class.now word) || by_another taken.entry word) }
{
    let shared = by_another(taken, class);
    match taken {
        Some(taken) => Taken {
            class: taken.class,
            shared,
        },
        None => Taken { class, shared },
    }
}

impl<'t> Bases<'t> {
    pub fn new(alloc: Global) -> Bases<'t>
        ensures { result ≡ [] }
    {
        Bases {
            bases: HashMap::new(alloc),
        }
    }

    fn get(&self, base: u64) -> Option<Taken<'t>>
        ensures { result ≡ taken_at self.now base }
    {
        self.bases.get(&base).copied()
    }

    fn set(&mut self, base: u64, taken: Taken<'t>) -> Result<(), NoMemory>
        ensures { OnOk result (HasTaken base taken.entry self.old self.new) }
    {
        self.bases.insert(base, taken)?;
        Ok(())
    }

    /// Whether an object of another CLASS has the base.
    pub fn is_taken(&self, base: u64, class: &[u8]) -> bool
        ensures { result ≡ is_taken self.now base class.now }
    {
        by_another(self.get(base), class)
    }

    /// An object of a CLASS has a base.
    pub fn add(&mut self, base: u64, class: &'t [u8]) -> Result<(), NoMemory>
        ensures { OnOk result ((other : ℕ) (word : List ℕ) → is_taken self.new other word ≡ ((base == other && not (bytes_eq class.now word)) || is_taken self.old other word)) }
    {
        let taken = self.get(base);
        self.set(base, with_class(taken, class))
    }
}
