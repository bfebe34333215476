//! A set of numbers, as bits of words.

ghost use Rattle.std.specs.Prelude.{◌≡◌, ◌==◌, ◌&&◌, ◌||◌, ◌<◌, ◌≤◌, ◌*◌, ◌/◌, ℕ, false, length, IfOk};
ghost use Rattle.jworld.specs.Row.{has_bit};

use kes_text::NoMemory;
use std::alloc::Global;
use std::marker::Model;

/// One more number.
fn set_bit(words: &mut [u64], number: u32)
    requires { number / 64 < length words.old }
    ensures { (j : ℕ) → has_bit words.new j ≡ (has_bit words.old j || j == number) }
{
    words[number as usize / 64] |= 1 << (number % 64);
}

/// The numbers of other words too.
fn join_words(words: &mut [u64], more: &[u64])
    requires { length more.now ≡ length words.old }
    ensures { (j : ℕ) → has_bit words.new j ≡ (has_bit words.old j || has_bit more.now j) }
{
    for (at, word) in more.iter().enumerate() {
        words[at] |= *word;
    }
}

/// A set of numbers below a bound, which contracts see as words of 64 bits.
#[derive(Drop)]
pub struct Row {
    words: Vec<u64>,
}

impl Model for Row {
    ghost use Rattle.std.specs.Prelude.{ℕ, List};

    ghost Value = { List ℕ };

    ghost view = { λ row. row.words.items };
}

impl Row {
    /// No number, with room for so many words.
    pub fn new(alloc: Global, words: usize) -> Result<Row, NoMemory>
        ensures room { IfOk result (λ row. length row ≡ words) }
        ensures none { IfOk result (λ row. (j : ℕ) → has_bit row j ≡ false) }
    {
        let words = vec![in alloc; 0u64; words]?;
        Ok(Row { words })
    }

    /// Whether a number is among them.
    pub fn has(&self, number: u32) -> bool
        ensures { result ≡ has_bit self.now number }
    {
        let word = self.words.get(number as usize / 64).copied().unwrap_or(0);
        (word >> (number % 64)) & 1 == 1
    }

    /// One more number.
    pub fn insert(&mut self, number: u32)
        requires { number / 64 < length self.old }
        ensures room { length self.new ≡ length self.old }
        ensures bits { (j : ℕ) → has_bit self.new j ≡ (has_bit self.old j || j == number) }
    {
        set_bit(&mut self.words, number);
    }

    /// The numbers of another row too.
    pub fn join(&mut self, other: &Row)
        requires { length other.now ≡ length self.old }
        ensures room { length self.new ≡ length self.old }
        ensures bits { (j : ℕ) → has_bit self.new j ≡ (has_bit self.old j || has_bit other.now j) }
    {
        join_words(&mut self.words, &other.words);
    }

    /// The same numbers again.
    pub fn copy(&self, alloc: Global) -> Result<Row, NoMemory>
        ensures { IfOk result (λ row. row ≡ self.now) }
    {
        let words = Vec::from_slice(alloc, &self.words)?;
        Ok(Row { words })
    }
}
