//! Texts by the place at which each stands first.

ghost use Rattle.std.specs.Prelude.{◌≡◌, ◌<◌, [], IfOk, IfSome, map, position, bytes_eq, length};
ghost use Rattle.kbind.specs.Places.{place_in, HasPlace, AreFirst};

use kes_text::NoMemory;
use std::alloc::Global;
use std::collections::BTreeMap;
use std::marker::Model;

/// Texts that have a place.
#[derive(Drop)]
struct Places<'t> {
    places: BTreeMap<&'t [u8], usize>,
}

impl<'t> Model for Places<'t> {
    ghost use Rattle.std.specs.Prelude.{map};
    ghost use Rattle.kbind.specs.Places as spec;

    ghost Value = { spec.Places };

    ghost view = { λ p. map (λ e. (e.0.now, e.1)) p.places.entries };
}

impl<'t> Places<'t> {
    fn new(alloc: Global) -> Places<'t>
        ensures { result ≡ [] }
    {
        Places {
            places: BTreeMap::new(alloc),
        }
    }

    fn get(&self, text: &'t [u8]) -> Option<usize>
        ensures { result ≡ place_in self.now text.now }
    {
        self.places.get(&text).copied()
    }

    fn set(&mut self, text: &'t [u8], place: usize) -> Result<(), NoMemory>
        ensures { IfOk result (λ _. HasPlace text.now place self.old self.new) }
    {
        self.places.insert(text, place)?;
        Ok(())
    }
}

/// Texts in their order, of which the first that equals another text is found in a time that hardly grows with
/// their number. Contracts see the list of the texts.
#[derive(Drop)]
pub struct Index<'t> {
    texts: Vec<&'t [u8]>,
    places: Places<'t>,
}

impl<'t> Model for Index<'t> {
    ghost use Rattle.std.specs.Prelude.{ℕ, List, map};
    ghost use Rattle.kbind.specs.Places.{AreFirst};

    ghost Value = { List (List ℕ) };

    ghost view = { λ i. map (λ text. text.now) i.texts.items };

    ghost invariant = { λ i. AreFirst i.places 0 (map (λ text. text.now) i.texts.items) };
}

/// The first place of each text: from the last place to the first, so that an earlier one takes the place of a
/// later one.
fn first_places<'t>(alloc: Global, texts: &[&'t [u8]]) -> Result<Places<'t>, NoMemory>
    ensures { IfOk result (λ places. AreFirst places 0 (map (λ text. text.now) texts.now)) }
{
    let mut places = Places::new(alloc);
    for place in (0..texts.len()).rev() {
        places.set(texts[place], place)?;
    }
    Ok(places)
}

impl<'t> Index<'t> {
    pub fn of(alloc: Global, texts: Vec<&'t [u8]>) -> Result<Index<'t>, NoMemory>
        ensures { IfOk result (λ index. index ≡ map (λ text. text.now) texts.entry.items) }
    {
        let places = first_places(alloc, texts.as_slice())?;
        Ok(Index { texts, places })
    }

    /// The first place at which a text stands.
    pub fn first(&self, text: &'t [u8]) -> Option<usize>
        ensures place { result ≡ position (bytes_eq text.now) self.now }
        ensures within { IfSome result (λ place. place < length self.now) }
    {
        self.places.get(text)
    }
}
