//! Words that stand already.

ghost use Rattle.std.specs.Prelude.{◌≡◌, ◌||◌, ℕ, List, [], OnOk, bytes_eq};
ghost use Rattle.std.specs.List.{list_any};

use kes_text::NoMemory;
use std::alloc::Global;
use std::collections::HashSet;
use std::marker::Model;

/// A set of words of a text. Contracts see which words are in it.
#[derive(Drop)]
pub struct WordSet<'a> {
    words: HashSet<&'a [u8]>,
}

impl<'a> Model for WordSet<'a> {
    ghost use Rattle.std.specs.Prelude.{ℕ, List, map};

    ghost Value = { List (List ℕ) };

    ghost view = { λ s. map (λ word. word.now) s.words.keys };
}

impl<'a> WordSet<'a> {
    pub fn new(alloc: Global) -> WordSet<'a>
        ensures { result ≡ [] }
    {
        WordSet {
            words: HashSet::new(alloc),
        }
    }

    pub fn contains(&self, word: &'a [u8]) -> bool
        ensures { result ≡ list_any (bytes_eq word.now) self.now }
    {
        self.words.contains(&word)
    }

    /// One more word.
    pub fn insert(&mut self, word: &'a [u8]) -> Result<(), NoMemory>
        ensures { OnOk result ((key : List ℕ) → list_any (bytes_eq key) self.new ≡ (bytes_eq key word.now || list_any (bytes_eq key) self.old)) }
    {
        let _ = self.words.insert(word)?;
        Ok(())
    }
}
