//! The text of a script.

ghost use Rattle.std.specs.Prelude.{◌≡◌, ◌++◌, decimal, OnOk, IfOk};
ghost use Rattle.std.specs.List.{flat_map};
ghost use Rattle.osek_core.specs.declared.moves.Move.TheVariants.{Tick, Poke};
ghost use Rattle.script.specs.InForm.{AreInForm};
ghost use Rattle.script.specs.ReadsBack.{ReadsBack};
ghost use Rattle.script.specs.Writing.{summed, both, joined_from, step_text, line_text, script_text};

use crate::hex::append_hex;
use crate::line::Line;
use crate::names::{Names, name_at};
use kes_text::{NoMemory, append_decimal};
use osek_core::{Move, PokeBytes};
use std::alloc::Global;

const MOST_TIMES: u64 = 1_000_000_000_000_000_000;

/// One line for both counts, where they are no more than 10^18 moves.
fn summed(first: u64, second: u64, step: Move) -> Option<Line>
    ensures { result ≡ summed first second step }
{
    let times = first.checked_add(second)?;
    if times <= MOST_TIMES {
        Some(Line { times, step })
    } else {
        None
    }
}

/// Two lines of steps, or of ticks of one counter, as one.
fn both(first: Line, second: Line) -> Option<Line>
    ensures { result ≡ both first.times second.times first.step second.step }
{
    match (first.step, second.step) {
        (Move::Run, Move::Run) => summed(first.times, second.times, Move::Run),
        (Move::Tick(one), Move::Tick(other)) if one == other => {
            summed(first.times, second.times, Move::Tick(one))
        }
        _ => None,
    }
}

fn append_count(out: &mut Vec<u8>, word: &[u8], times: u64) -> Result<(), NoMemory>
    ensures { OnOk result (out.new.items ≡ out.old.items ++ word.now ++ decimal times) }
{
    out.extend_from_slice(word)?;
    append_decimal(out, times)
}

fn append_tick(out: &mut Vec<u8>, names: &Names, times: u64, counter: u32) -> Result<(), NoMemory>
    ensures { OnOk result (out.new.items ≡ out.old.items ++ step_text names.now times (Tick counter)) }
{
    out.extend_from_slice(b"tick ")?;
    out.extend_from_slice(name_at(names.counters.as_slice(), counter))?;
    append_count(out, b" ", times)
}

fn append_poke(out: &mut Vec<u8>, names: &Names, at: u32, bytes: PokeBytes) -> Result<(), NoMemory>
    ensures { OnOk result (out.new.items ≡ out.old.items ++ step_text names.now 1 (Poke at bytes)) }
{
    append_count(out, b"poke ", u64::from(at))?;
    out.extend_from_slice(b" ")?;
    let poked = bytes
        .bytes
        .get(..usize::from(bytes.len))
        .unwrap_or(&bytes.bytes);
    append_hex(out, poked)
}

fn append_step(out: &mut Vec<u8>, names: &Names, line: Line) -> Result<(), NoMemory>
    ensures { OnOk result (out.new.items ≡ out.old.items ++ step_text names.now line.times line.step) }
{
    match line.step {
        Move::Run => append_count(out, b"run ", line.times),
        Move::Tick(counter) => append_tick(out, names, line.times, counter),
        Move::Poke { at, bytes } => append_poke(out, names, at, bytes),
    }
}

fn append_line(out: &mut Vec<u8>, names: &Names, line: Line) -> Result<(), NoMemory>
    ensures { OnOk result (out.new.items ≡ out.old.items ++ line_text names.now line) }
{
    append_step(out, names, line)?;
    out.extend_from_slice(b"\n")
}

/// The lines from the one that is being written on.
fn append_joined(
    out: &mut Vec<u8>,
    names: &Names,
    first: Line,
    others: &[Line],
) -> Result<(), NoMemory>
    ensures { OnOk result (out.new.items ≡ out.old.items ++ flat_map (line_text names.now) (joined_from first others.now)) }
{
    let mut last = first;
    for next in others {
        match both(last, *next) {
            Some(one) => last = one,
            None => {
                append_line(out, names, last)?;
                last = *next;
            }
        }
    }
    append_line(out, names, last)
}

/// The text of a script. A line is added to the one that was written just before it where both are steps, or
/// both ticks of one counter, and their counts are no more than 10^18 in all. The count always stands there.
///
/// In form are lines with counts from 1 to 10^18, of which only steps and ticks have more than 1, ticks of counters
/// that are there, and pokes of one to eight bytes that end within the device bytes. Names are in form where each
/// counter has a name of its own of bytes above the blank, as the names of a configuration are. The text of such
/// lines and names gives the joined lines again where it is read with room for their moves.
pub fn write_script(alloc: Global, lines: &[Line], names: &Names) -> Result<Vec<u8>, NoMemory>
    ensures text { IfOk result (λ text. text.items ≡ script_text names.now lines.now) }

    // Where lines and names are in form, the text has one reading, the joined lines.
    ensures back { AreInForm names.now lines.now → IfOk result (λ text. ReadsBack names.now lines.now text.items) }
{
    let mut out = Vec::new(alloc);
    if let [first, others @ ..] = lines {
        append_joined(&mut out, names, *first, others)?;
    }
    Ok(out)
}
