//! Pairs of texts.

ghost use Rattle.std.specs.Prelude.{◌≡◌, ◌||◌, ℕ, List, [], OnOk};
ghost use Rattle.kbind.specs.Pairs.{is_pair, is_among};

use indexmap::IndexSet;
use kes_text::NoMemory;
use std::alloc::Global;
use std::marker::Model;

/// Pairs of texts, which are found in a time that hardly grows with their number. Contracts see their list.
#[derive(Drop)]
pub struct Pairs<'t> {
    set: IndexSet<(&'t [u8], Vec<u8>)>,
}

impl<'t> Model for Pairs<'t> {
    ghost use Rattle.std.specs.Prelude.{ℕ, List, map};

    ghost Value = { List (List ℕ × List ℕ) };

    ghost view = { λ p. map (λ pair. (pair.0.now, pair.1.items)) p.set.keys };
}

impl<'t> Pairs<'t> {
    pub fn new(alloc: Global) -> Pairs<'t>
        ensures { result ≡ [] }
    {
        Pairs {
            set: IndexSet::new(alloc),
        }
    }

    pub fn insert(&mut self, first: &'t [u8], second: Vec<u8>) -> Result<(), NoMemory>
        ensures { OnOk result ((a b : List ℕ) → is_among a b self.new ≡ (is_pair a b (first.now, second.items) || is_among a b self.old)) }
    {
        self.set.insert((first, second))?;
        Ok(())
    }

    pub fn has(&self, first: &'t [u8], second: Vec<u8>) -> bool
        ensures { result ≡ is_among first.now second.items self.now }
    {
        self.set.contains(&(first, second))
    }
}
