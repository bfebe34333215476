//! Places by name and descriptor.

ghost use Rattle.std.specs.Prelude.{◌≡◌, [], OnOk};
ghost use Rattle.jworld.specs.Keyed.{place_of, HasText, place_in, HasPlace};

use kes_text::NoMemory;
use std::alloc::Global;
use std::collections::BTreeMap;
use std::marker::Model;

/// Texts that have a place.
#[derive(Drop)]
struct Places<'a> {
    places: BTreeMap<&'a [u8], usize>,
}

impl<'a> Model for Places<'a> {
    ghost use Rattle.std.specs.Prelude.{map};
    ghost use Rattle.jworld.specs.Keyed as spec;

    ghost Value = { spec.Places };

    ghost view = { λ p. map (λ e. (e.0.now, e.1)) p.places.entries };
}

impl<'a> Places<'a> {
    fn new(alloc: Global) -> Places<'a>
        ensures { result ≡ [] }
    {
        Places {
            places: BTreeMap::new(alloc),
        }
    }

    fn get(&self, text: &[u8]) -> Option<usize>
        ensures { result ≡ place_of self.now text.now }
    {
        self.places.get(text).copied()
    }

    fn set(&mut self, text: &'a [u8], place: usize) -> Result<(), NoMemory>
        ensures { OnOk result (HasText text.now place self.old self.new) }
    {
        self.places.insert(text, place)?;
        Ok(())
    }
}

/// Places that are found by a name and a descriptor, in a time that hardly grows with their number.
#[derive(Drop)]
pub struct Keyed<'a> {
    names: BTreeMap<&'a [u8], Places<'a>>,
}

impl<'a> Model for Keyed<'a> {
    ghost use Rattle.std.specs.Prelude.{map};
    ghost use Rattle.jworld.specs.Keyed as spec;

    ghost Value = { spec.Keyed };

    ghost view = { λ k. map (λ e. (e.0.now, e.1)) k.names.entries };
}

impl<'a> Keyed<'a> {
    pub fn new(alloc: Global) -> Keyed<'a>
        ensures { result ≡ [] }
    {
        Keyed {
            names: BTreeMap::new(alloc),
        }
    }

    /// The place of a name and a descriptor.
    pub fn get(&self, name: &[u8], descriptor: &[u8]) -> Option<usize>
        ensures { result ≡ place_in self.now name.now descriptor.now }
    {
        match self.names.get(name) {
            Some(places) => places.get(descriptor),
            None => None,
        }
    }

    /// A place for a name and a descriptor, instead of the one that they may have.
    pub fn set(
        &mut self,
        alloc: Global,
        name: &'a [u8],
        descriptor: &'a [u8],
        place: usize,
    ) -> Result<(), NoMemory>
        ensures { OnOk result (HasPlace name.now descriptor.now place self.old self.new) }
    {
        let mut places = self.names.remove(&name).unwrap_or(Places::new(alloc));
        places.set(descriptor, place)?;
        self.names.insert(name, places)?;
        Ok(())
    }
}
