//! Pairs, each once.

ghost use Rattle.std.specs.Prelude.{◌≡◌, [], length, position, slice_get, OnOk, OnErr};
ghost use Rattle.std.specs.List.{list_any};
ghost use Rattle.reaching.specs.Order.{is_same, add, add_all};

use crate::pair::Pair;
use indexmap::IndexSet;
use jworld::{ClassId, MethodId};
use kes_text::NoMemory;
use std::alloc::Global;
use std::marker::Model;

/// Pairs, each once and in the order in which they came, which are found in a time that hardly grows with their
/// number. Contracts see their list.
#[derive(Drop)]
pub struct Pairs {
    set: IndexSet<(u32, u32, u16)>,
}

impl Model for Pairs {
    ghost use Rattle.std.specs.Prelude.{List, map};
    ghost use Rattle.reaching.specs.Order.{pair_of};
    ghost use Rattle.reaching.specs.declared.pair.Pair.{Pair as Method};

    ghost Value = { List Method };

    ghost view = { λ p. map pair_of p.set.keys };
}

impl Pairs {
    pub fn new(alloc: Global) -> Pairs
        ensures { result ≡ [] }
    {
        Pairs {
            set: IndexSet::new(alloc),
        }
    }

    /// The pair at a place.
    pub fn get(&self, place: usize) -> Option<Pair>
        ensures { result ≡ slice_get self.now place }
    {
        let (domain, class, n) = *self.set.get_index(place)?;
        let class = ClassId { n: class };
        let method = MethodId { class, n };
        Some(Pair { domain, method })
    }

    /// Whether a pair is there.
    pub fn has(&self, pair: Pair) -> bool
        ensures { result ≡ list_any (is_same pair) self.now }
    {
        self.set
            .contains(&(pair.domain, pair.method.class.n, pair.method.n))
    }

    /// The place of a pair.
    pub fn number(&self, pair: Pair) -> Option<usize>
        ensures { result ≡ position (is_same pair) self.now }
    {
        self.set
            .get_index_of(&(pair.domain, pair.method.class.n, pair.method.n))
    }

    /// How many pairs there are.
    pub fn len(&self) -> usize
        ensures { result ≡ length self.now }
    {
        self.set.len()
    }

    /// Puts a pair behind the others, if it isn't there yet.
    pub fn add(&mut self, pair: Pair) -> Result<(), NoMemory>
        ensures { OnOk result (self.new ≡ add self.old pair) }
    {
        self.set
            .insert((pair.domain, pair.method.class.n, pair.method.n))?;
        Ok(())
    }

    /// Puts each of these behind the others.
    pub fn add_all(&mut self, pairs: &[Pair]) -> Result<(), NoMemory>
        ensures { OnOk result (self.new ≡ add_all self.old pairs.now) }
    {
        for pair in pairs {
            self.add(*pair)?;
        }
        Ok(())
    }
}
