//! The names of classes, numbered in their order.

ghost use Rattle.std.specs.Prelude.{◌≡◌, ◌++◌, [], ◌∷◌, not, position, bytes_eq, slice_index_or, if◌then◌else◌, IfOk};
ghost use Rattle.std.specs.List.{list_any};
ghost use Rattle.jworld.specs.Classes.{built_in};

use indexmap::IndexSet;
use kes_text::NoMemory;
use std::alloc::Global;
use std::marker::Model;

/// The classes that every world has, each but the first below the one before it.
const BUILT_IN: [&[u8]; 4] = [
    b"java/lang/Object",
    b"java/lang/Throwable",
    b"java/lang/Exception",
    b"java/lang/RuntimeException",
];

/// Names of which no two are the same, which contracts see as their list.
#[derive(Drop)]
pub struct Names<'a> {
    set: IndexSet<&'a [u8]>,
}

impl<'a> Model for Names<'a> {
    ghost use Rattle.std.specs.Prelude.{ℕ, List, map};

    ghost Value = { List (List ℕ) };

    ghost view = { λ n. map (λ name. name.now) n.set.keys };
}

impl<'a> Names<'a> {
    fn new(alloc: Global) -> Names<'a>
        ensures { result ≡ [] }
    {
        Names {
            set: IndexSet::new(alloc),
        }
    }

    /// The names of the built-in classes.
    pub fn built_in(alloc: Global) -> Result<Names<'a>, NoMemory>
        ensures { IfOk result (λ names. names ≡ built_in) }
    {
        let mut names = Names::new(alloc);
        for name in BUILT_IN {
            names.insert(name)?;
        }
        Ok(names)
    }

    /// One more name, unless it is there; whether it is new.
    pub fn insert(&mut self, name: &'a [u8]) -> Result<bool, NoMemory>
        ensures added { IfOk result (λ added. added ≡ not (list_any (bytes_eq name.now) self.old)) }
        ensures names { IfOk result (λ added. self.new ≡ (if added then self.old ++ name.now ∷ [] else self.old)) }
    {
        Ok(self.set.insert(name)?)
    }

    /// The number of a name.
    pub fn number(&self, name: &[u8]) -> Option<usize>
        ensures { result ≡ position (bytes_eq name.now) self.now }
    {
        self.set.get_index_of(name)
    }

    /// The name of a number; no bytes where there is none.
    pub fn get(&self, number: usize) -> &'a [u8]
        ensures { result.now ≡ slice_index_or self.now number [] }
    {
        match self.set.get_index(number) {
            Some(name) => name,
            None => &[],
        }
    }
}
