//! Texts that people write, line by line: their lines that say something, the words of a line, and numbers.
#![tactic(auto)]

mod line;
mod number;
mod said;
#[cfg(test)]
mod tests;
mod word;

pub use line::{TextLine, TextLines, text_lines};
pub use number::{Number, are_both_numbers, digit, number_of};
pub use said::{check, refusal};
pub use word::{is_either, is_word, words};
