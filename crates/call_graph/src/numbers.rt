//! Numbers, each once.

ghost use Rattle.std.specs.Prelude.{◌≡◌, ◌==◌, [], nat_eq, slice_get, OnOk};
ghost use Rattle.std.specs.List.{list_any};
ghost use Rattle.indexmap.specs.IndexSet.{insert_key};

use indexmap::IndexSet;
use kes_text::NoMemory;
use std::alloc::Global;
use std::marker::Model;

/// Numbers, each once and in the order in which they came, which are found in a time that hardly grows with how many
/// they are. Contracts see their list.
#[derive(Drop)]
pub struct Numbers {
    set: IndexSet<u32>,
}

impl Model for Numbers {
    ghost use Rattle.std.specs.Prelude.{ℕ, List};

    ghost Value = { List ℕ };

    ghost view = { λ numbers. numbers.set.keys };
}

impl Numbers {
    pub fn new(alloc: Global) -> Numbers
        ensures { result ≡ [] }
    {
        Numbers {
            set: IndexSet::new(alloc),
        }
    }

    /// The number at a place.
    pub fn get(&self, place: usize) -> Option<u32>
        ensures { result ≡ slice_get self.now place }
    {
        self.set.get_index(place).copied()
    }

    /// Whether a number is there.
    pub fn has(&self, number: u32) -> bool
        ensures { result ≡ list_any (λ other. number == other) self.now }
    {
        self.set.contains(&number)
    }

    /// Puts a number behind the others, if it isn't there yet.
    pub fn add(&mut self, number: u32) -> Result<(), NoMemory>
        ensures { OnOk result (self.new ≡ insert_key nat_eq self.old number) }
    {
        self.set.insert(number)?;
        Ok(())
    }
}
