//! Shown names of members, each with the first place at which it stands.

ghost use Rattle.std.specs.Prelude.{◌≡◌, [], IfOk, OnOk};
ghost use Rattle.kbind.specs.Named.{seen_in, seen_of, AddsName};

use jworld::ClassId;
use kes_text::NoMemory;
use std::alloc::Global;
use std::collections::BTreeMap;
use std::marker::Model;

/// Where a name stands first, and whether it stands again.
#[derive(Clone, Copy)]
pub struct Seen {
    pub place: u16,
    pub again: bool,
}

/// Names that were seen, which are found in a time that hardly grows with their number.
#[derive(Drop)]
pub struct Named {
    names: BTreeMap<Vec<u8>, Seen>,
}

impl Model for Named {
    ghost use Rattle.std.specs.Prelude.{map};
    ghost use Rattle.kbind.specs.Named as spec;

    ghost Value = { spec.Names };

    ghost view = { λ n. map (λ e. (e.0.items, e.1)) n.names.entries };
}

impl Named {
    pub fn new(alloc: Global) -> Named
        ensures { result ≡ [] }
    {
        Named {
            names: BTreeMap::new(alloc),
        }
    }

    /// What was seen of a name.
    pub fn seen(&self, name: &[u8]) -> Option<Seen>
        ensures { result ≡ seen_in self.now name.now }
    {
        self.names.get(name).copied()
    }

    /// A place before those of the names that were seen has this name.
    pub fn add(&mut self, name: Vec<u8>, place: u16) -> Result<(), NoMemory>
        ensures { OnOk result (AddsName name.items place self.old self.new) }
    {
        let again = self.seen(name.as_slice()).is_some();
        self.names.insert(name, Seen { place, again })?;
        Ok(())
    }
}

/// What was seen of a name in a class, by tables of which each class has one.
pub fn seen_of(tables: &[Named], name: &[u8], class: ClassId) -> Option<Seen>
    ensures { result ≡ seen_of tables.now name.now class.n }
{
    tables.get(class.n as usize)?.seen(name)
}
