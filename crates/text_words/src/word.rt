//! The words of a line.

ghost use Rattle.std.specs.Prelude.{◌≡◌, IfOk, map};
ghost use Rattle.std.specs.Str.{bytes_eq};
ghost use Rattle.text_words.specs.TextLines.{words};
ghost use Rattle.text_words.specs.Words.{is_either};

use kes_text::NoMemory;
use std::alloc::Global;

/// The words of a line, which one or more spaces separate.
pub fn words(alloc: Global, line: &[u8]) -> Result<Vec<&[u8]>, NoMemory>
    ensures { IfOk result (λ found. map (λ word. word.now) found.items ≡ words line.now) }
{
    line.split(|byte| *byte == b' ')
        .filter(|word| 0 < word.len())
        .collect(alloc)
}

/// Whether it is this word.
pub fn is_word(word: &[u8], expected: &str) -> bool
    ensures { result ≡ bytes_eq word.now expected.now }
{
    word == expected.as_bytes()
}

/// Whether it is one of these words.
pub fn is_either(first: &str, second: &str, word: &[u8]) -> bool
    ensures { result ≡ is_either first.now second.now word.now }
{
    is_word(word, first) || is_word(word, second)
}
