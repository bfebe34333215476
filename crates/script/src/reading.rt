//! A script, read line by line.

ghost use Rattle.std.specs.Prelude.{◌≡◌, ◌≤◌, ◌<◌, ◌^◌, length, map, IfOk, IfSome};
ghost use Rattle.std.specs.List.{position};
ghost use Rattle.std.specs.Str.{bytes_eq};
ghost use Rattle.kes_text.specs.Answers.{OrNoMemory, Answers};
ghost use Rattle.script.specs.Names.{AreFew};
ghost use Rattle.script.specs.Reading.{counted, times_of, run_line, tick_line, ends_within, poked, poke_line, line_by, line_of, with_line, next_said, script_of};

use crate::hex::{is_hex, poke_bytes};
use crate::line::Line;
use crate::names::Names;
use kes_text::{Kind, Stop};
use osek_core::Move;
use sqlite_items::Items;
use std::alloc::Global;
use std::marker::Model;
use text_words::{Number, TextLine, check, is_word, number_of, refusal, text_lines, words};

const MOST_TIMES: u64 = 1_000_000_000_000_000_000;

/// A count of moves.
fn counted(line: u64, number: Number) -> Result<u64, Stop>
    ensures { result ≡ counted line number }
{
    check(number.is_number(), Kind::Syntax, line)?;
    check(number.within(1, MOST_TIMES), Kind::Range, line)?;
    Ok(number.value())
}

/// The count at the end of a line.
fn times_of(line: u64, words: &[&[u8]]) -> Result<u64, Stop>
    ensures { result ≡ times_of line (map (λ word. word.now) words.now) }
{
    match words {
        [] => Ok(1),
        [word] => counted(line, number_of(word)),
        _ => Err(refusal(Kind::Syntax, line)),
    }
}

/// `run [N]`
fn run_line(line: u64, words: &[&[u8]]) -> Result<Line, Stop>
    ensures { result ≡ run_line line (map (λ word. word.now) words.now) }
{
    let times = times_of(line, words)?;
    Ok(Line {
        times,
        step: Move::Run,
    })
}

/// The place of the counter of this name.
fn counter_place(names: &Names, name: &[u8]) -> Option<usize>
    ensures place { result ≡ position (bytes_eq name.now) names.now.counters }
    ensures within { IfSome result (λ place. place < length names.now.counters) }
{
    names
        .counters
        .as_slice()
        .iter()
        .position(|counter| name == counter.as_slice())
}

/// `tick COUNTER [N]`
fn tick_line(names: &Names, line: u64, words: &[&[u8]]) -> Result<Line, Stop>
    requires { AreFew names.now }
    ensures { result ≡ tick_line names.now line (map (λ word. word.now) words.now) }
{
    let [counter, others @ ..] = words else {
        return Err(refusal(Kind::Syntax, line));
    };
    let times = times_of(line, others)?;
    match counter_place(names, counter) {
        Some(place) => Ok(Line {
            times,
            step: Move::Tick(place as u32),
        }),
        None => Err(refusal(Kind::Unknown, line)),
    }
}

/// Whether so many bytes from there on end within the device bytes.
fn ends_within(devices: u32, at: Number, size: u8) -> bool
    ensures { result ≡ ends_within devices at size }
{
    let devices = u64::from(devices);
    at.within(0, devices) && at.value() + u64::from(size) <= devices
}

fn poked(names: &Names, line: u64, at: Number, hex: &[u8]) -> Result<Line, Stop>
    ensures { result ≡ poked names.now line at hex.now }
{
    let has_form = at.is_number() && is_hex(hex);
    check(has_form, Kind::Syntax, line)?;
    let bytes = poke_bytes(hex);
    let fits = ends_within(names.devices, at, bytes.len);
    check(fits, Kind::Range, line)?;
    Ok(Line {
        times: 1,
        step: Move::Poke {
            at: at.value() as u32,
            bytes,
        },
    })
}

/// `poke AT HEX`
fn poke_line(names: &Names, line: u64, words: &[&[u8]]) -> Result<Line, Stop>
    ensures { result ≡ poke_line names.now line (map (λ word. word.now) words.now) }
{
    let [at, others @ ..] = words else {
        return Err(refusal(Kind::Syntax, line));
    };
    match others {
        [] => Err(refusal(Kind::Syntax, line)),
        [hex] => poked(names, line, number_of(at), hex),
        _ => Err(refusal(Kind::Syntax, line)),
    }
}

fn line_by(names: &Names, line: u64, first: &[u8], others: &[&[u8]]) -> Result<Line, Stop>
    requires { AreFew names.now }
    ensures { result ≡ line_by names.now line first.now (map (λ word. word.now) others.now) }
{
    if is_word(first, "run") {
        run_line(line, others)
    } else if is_word(first, "tick") {
        tick_line(names, line, others)
    } else if is_word(first, "poke") {
        poke_line(names, line, others)
    } else {
        Err(refusal(Kind::Syntax, line))
    }
}

/// What a line says.
#[tactic(auto, unfolding(crate::specs::Reading::line_of))]
fn line_of(names: &Names, line: u64, words: &[&[u8]]) -> Result<Line, Stop>
    requires { AreFew names.now }
    ensures { result ≡ line_of names.now line (map (λ word. word.now) words.now) }
{
    match words {
        [first, others @ ..] => line_by(names, line, first, others),
        [] => Err(refusal(Kind::Syntax, line)),
    }
}

/// The lines so far, and for how many moves they stand.
#[derive(Drop)]
struct Said {
    lines: Vec<Line>,
    moves: u64,
}

impl Model for Said {
    ghost use Rattle.script.specs.Reading.{Said};

    ghost Value = { Said };

    ghost view = { λ s. record { lines = s.lines.items; moves = s.moves } };
}

/// One line more, while the moves are no more than `most`.
fn with_line(said: Said, most: u64, number: u64, line: Line) -> Result<Said, Stop>
    requires { said.moves ≤ most }
    ensures says { OrNoMemory result (with_line most number said line) }
    ensures few { IfOk result (λ said. said.moves ≤ most) }
{
    let mut said = said;
    if line.times > most - said.moves {
        return Err(refusal(Kind::TooMany, number));
    }
    said.lines.push(line)?;
    said.moves += line.times;
    Ok(said)
}

/// One line more of the text.
fn next_said(
    alloc: Global,
    names: &Names,
    most: u64,
    said: Said,
    next: TextLine<'_>,
) -> Result<Said, Stop>
    requires few { said.moves ≤ most }
    requires counters { AreFew names.now }
    ensures says { OrNoMemory result (next_said names.now most said (next.entry.number, next.entry.text.now)) }
    ensures few { IfOk result (λ said. said.moves ≤ most) }
{
    let words = words(alloc, next.text)?;
    let line = line_of(names, next.number, words.as_slice())?;
    with_line(said, most, next.number, line)
}

/// The script that the text is, or its first fault.
///
/// A refusal is at the first line that shows Syntax, Range, Unknown or TooMany, and of its faults the first in
/// this order; it has 0 for its file, which the caller sets. TooMany is shown by the first line with which the
/// moves of all lines are more than `most`. Time and memory are in proportion to the text's length.
///
/// What is answered is a function of the text, the names and `most`: no text has two readings.
pub fn read_script(alloc: Global, text: &[u8], names: &Names, most: u64) -> Result<Vec<Line>, Stop>
    requires { AreFew names.now }
    ensures { Answers (λ lines. lines.items) result (script_of names.now most text.now) }
{
    let found = text_lines(alloc, text)?;
    let mut said = Said {
        lines: Vec::new(alloc),
        moves: 0,
    };
    for next in &found.lines {
        said = next_said(alloc, names, most, said, *next)?;
    }
    Ok(said.lines)
}
