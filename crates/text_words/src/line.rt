//! The lines of a text.

ghost use Rattle.std.specs.Prelude.{◌≡◌, ◌+◌, ◌<◌, ◌≤◌, ◌∷◌, ◌++◌, [], map, length, IfOk, OnOk, OnSome, MatchOption};
ghost use Rattle.kes_text.specs.Lines.{lines};
ghost use Rattle.kes_text.specs.Reading.{rest};
ghost use Rattle.text_words.specs.TextLines.{without_returns, is_skipped, ends_in_return, chomp, spoken, all_lines, spoken_lines};

use kes_text::{Cursor, NoMemory};
use std::alloc::Global;

/// A line that says something, and its number from 1.
#[derive(Clone, Copy)]
pub struct TextLine<'a> {
    pub number: u64,
    pub text: &'a [u8],
}

/// The lines of a text that say something, and the number behind that of its last line.
#[derive(Drop)]
pub struct TextLines<'a> {
    pub lines: Vec<TextLine<'a>>,
    pub end: u64,
}

/// Whether the line is blank or a comment.
fn is_skipped(line: &[u8]) -> bool
    ensures { result ≡ is_skipped line.now }
{
    for byte in line {
        if *byte != b' ' {
            return *byte == b'#';
        }
    }
    true
}

/// Whether the line's last byte is a carriage return.
fn ends_in_return(line: &[u8]) -> bool
    ensures { result ≡ ends_in_return line.now }
{
    0 < line.len() && line[line.len() - 1] == b'\r'
}

/// The line without a carriage return at its end.
fn chomped(line: &[u8]) -> &[u8]
    ensures { result.now ≡ chomp line.now }
{
    if ends_in_return(line) {
        &line[..line.len().saturating_sub(1)]
    } else {
        line
    }
}

/// The next line, without the carriage return before its line feed.
fn next_line<'a>(cursor: &mut Cursor<'a>) -> Option<&'a [u8]>
    ensures lines { MatchOption result
        (lines (without_returns (rest cursor.old)) ≡ [])
        (λ line. lines (without_returns (rest cursor.old)) ≡ line.now ∷ lines (without_returns (rest cursor.new))) }
    ensures input { cursor.new.input ≡ cursor.old.input }
    ensures further { OnSome result (cursor.old.place < cursor.new.place) }
    ensures within { cursor.new.place ≤ length cursor.new.input }
{
    let before = cursor.at();
    let line = cursor.line()?;
    let passed = cursor.at() - before;
    if passed > line.len() as u64 {
        Some(chomped(line))
    } else {
        Some(line)
    }
}

/// One line more, if it says something.
fn keep<'a>(lines: &mut Vec<TextLine<'a>>, line: TextLine<'a>) -> Result<(), NoMemory>
    ensures { OnOk result (map (λ x. (x.number, x.text.now)) lines.new.items ≡ map (λ x. (x.number, x.text.now)) lines.old.items ++ spoken (line.entry.number, line.entry.text.now)) }
{
    if is_skipped(line.text) {
        return Ok(());
    }
    lines.push(line)?;
    Ok(())
}

/// The lines of a text that say something.
pub fn text_lines(alloc: Global, text: &[u8]) -> Result<TextLines<'_>, NoMemory>
    ensures lines { IfOk result (λ found. map (λ line. (line.number, line.text.now)) found.lines.items ≡ spoken_lines text.now) }
    ensures end { IfOk result (λ found. found.end ≡ length (all_lines text.now) + 1) }
{
    let mut cursor = Cursor::new(text);
    let mut lines = Vec::new(alloc);
    let mut number = 1;
    while let Some(text) = next_line(&mut cursor) {
        keep(&mut lines, TextLine { number, text })?;
        number += 1;
    }
    Ok(TextLines { lines, end: number })
}
