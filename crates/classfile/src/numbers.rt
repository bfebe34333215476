//! A number for each text of a constant pool, so that members are told apart in a time that doesn't grow
//! with the length of what they are called.

ghost use Rattle.std.specs.Prelude.{◌≡◌, [], IfOk, unwrap_or};
ghost use Rattle.classfile.specs.Pool.{utf8_text};
ghost use Rattle.classfile.specs.Numbers.{number_in, HasNumber, IsNumbered, IsNumbering, number_at};

use crate::pool::{Entry, Pool};
use kes_text::NoMemory;
use std::alloc::Global;
use std::collections::BTreeMap;
use std::marker::Model;

/// Texts that have a number.
#[derive(Drop)]
struct Known<'a> {
    numbers: BTreeMap<&'a [u8], usize>,
}

impl<'a> Model for Known<'a> {
    ghost use Rattle.std.specs.Prelude.{map};
    ghost use Rattle.classfile.specs.Numbers as spec;

    ghost Value = { spec.Known };

    ghost view = { λ k. map (λ e. (e.0.now, e.1)) k.numbers.entries };
}

impl<'a> Known<'a> {
    fn new(alloc: Global) -> Known<'a>
        ensures { result ≡ [] }
    {
        Known {
            numbers: BTreeMap::new(alloc),
        }
    }

    fn get(&self, text: &'a [u8]) -> Option<usize>
        ensures { result ≡ number_in self.now text.now }
    {
        self.numbers.get(&text).copied()
    }

    fn set(&mut self, text: &'a [u8], number: usize) -> Result<(), NoMemory>
        ensures { IfOk result (λ _. HasNumber text.now number self.old self.new) }
    {
        self.numbers.insert(text, number)?;
        Ok(())
    }

    /// The number of an entry's text, which is `fresh` if it had none. That of another entry says nothing.
    fn number_of(&mut self, entry: &Entry<'a>, fresh: usize) -> Result<usize, NoMemory>
        ensures { IfOk result (λ number. IsNumbered (utf8_text entry.now) fresh number self.old self.new) }
    {
        let Entry::Utf8(text) = entry else {
            return Ok(fresh);
        };
        let number = self.get(text.as_slice()).unwrap_or(fresh);
        self.set(text.as_slice(), number)?;
        Ok(number)
    }
}

/// The numbers of the entries of a constant pool, which contracts see as their list.
#[derive(Drop)]
pub struct Numbers {
    numbers: Vec<usize>,
}

impl Model for Numbers {
    ghost use Rattle.std.specs.Prelude.{ℕ, List};

    ghost Value = { List ℕ };

    ghost view = { λ n. n.numbers.items };
}

impl Numbers {
    /// Each text's number is that of the first entry that has it.
    pub fn of(alloc: Global, pool: &Pool<'_>) -> Result<Numbers, NoMemory>
        ensures { IfOk result (λ numbers. IsNumbering pool.now numbers) }
    {
        let mut known = Known::new(alloc);
        let mut numbers = Vec::new(alloc);
        for entry in pool.entries() {
            let number = known.number_of(entry, numbers.len())?;
            numbers.push(number)?;
        }
        Ok(Numbers { numbers })
    }

    /// The number of an entry's text.
    pub fn get(&self, index: u16) -> usize
        ensures { result ≡ number_at self.now index }
    {
        let place = usize::from(index.saturating_sub(1));
        self.numbers.get(place).copied().unwrap_or(0)
    }
}
