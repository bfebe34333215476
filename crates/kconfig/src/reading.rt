//! Reading a configuration.

ghost use Rattle.std.specs.Prelude.{◌≡◌, ◌++◌, map, IfOk, OnOk, slice_index_or, []};
ghost use Rattle.text_words.specs.Said.{OrNoMemory};
ghost use Rattle.kconfig.specs.Limits.{IsSmall, Fits, IsKey};
ghost use Rattle.kconfig.specs.Sound.{IsSound};
ghost use Rattle.text_words.specs.TextLines.{words};
ghost use Rattle.kconfig.specs.Reading.{line_by, line_of, behind_line, wait_words, waits_of, config_from, config_of};

use crate::alarms::{alarm_line, start_line};
use crate::config::{Config, Line};
use crate::devices::{
    cell_line, counter_line, devices_line, domain_line, keso_line, name_line, object_line,
};
use crate::methods::{device_line, native_line, portal_line};
use crate::reader::{Reader, WaitWords};
use crate::tasks::{task_line, use_line, wait_line};
use kes_text::{Kind, NoMemory, Stop};
use std::alloc::Global;
use text_words::{TextLine, is_word, refusal, text_lines, words};

const MOST_EVENTS: usize = 31;

const MOST_RESOURCES: usize = 32;

/// What a line behind the first says by its first word and the others.
#[tactic(auto, unfolding(crate::specs::Reading::line_by))]
fn line_by<'a>(
    alloc: Global,
    before: &Reader<'a>,
    n: u64,
    first: &[u8],
    words: &[&'a [u8]],
) -> Result<Line, Stop>
    ensures says { OrNoMemory result (line_by before.now n first.now (map (λ word. word.now) words.now)) }
    ensures fits { IfOk result (λ line. Fits before.now.config line) }
    ensures key { IfOk result (λ line. IsKey line (slice_index_or (map (λ word. word.now) words.now) 0 [])) }
{
    let config = before.config();
    if is_word(first, "devices") {
        Ok(Line::Devices(devices_line(before, n, words)?))
    } else if is_word(first, "domain") {
        Ok(Line::Domain(domain_line(alloc, before, n, words)?))
    } else if is_word(first, "counter") {
        Ok(Line::Counter(counter_line(alloc, before, n, words)?))
    } else if is_word(first, "event") {
        let events = config.events.as_slice();
        Ok(Line::Event(name_line(alloc, events, MOST_EVENTS, n, words)?))
    } else if is_word(first, "resource") {
        let resources = config.resources.as_slice();
        Ok(Line::Resource(name_line(alloc, resources, MOST_RESOURCES, n, words)?))
    } else if is_word(first, "task") {
        Ok(Line::Task(task_line(alloc, before, n, words)?))
    } else if is_word(first, "use") {
        Ok(Line::Use(use_line(before, n, words)?))
    } else if is_word(first, "wait") {
        Ok(Line::Wait(wait_line(before, n, words)?))
    } else if is_word(first, "alarm") {
        Ok(Line::Alarm(alarm_line(alloc, before, n, words)?))
    } else if is_word(first, "start") {
        Ok(Line::Start(start_line(before, n, words)?))
    } else if is_word(first, "native") {
        Ok(Line::Native(native_line(alloc, before, n, words)?))
    } else if is_word(first, "cell") {
        Ok(Line::Cell(cell_line(alloc, before, n, words)?))
    } else if is_word(first, "object") {
        Ok(Line::Object(object_line(alloc, before, n, words)?))
    } else if is_word(first, "device") {
        Ok(Line::Device(device_line(alloc, before, n, words)?))
    } else if is_word(first, "portal") {
        Ok(Line::Portal(portal_line(alloc, before, n, words)?))
    } else {
        Err(refusal(Kind::Syntax, n))
    }
}

/// What the words of a line say.
fn line_of<'a>(alloc: Global, before: &Reader<'a>, n: u64, words: &[&'a [u8]]) -> Result<Line, Stop>
    ensures says { OrNoMemory result (line_of before.now n (map (λ word. word.now) words.now)) }
    ensures fits { IfOk result (λ line. Fits before.now.config line) }
    ensures key { IfOk result (λ line. IsKey line (slice_index_or (map (λ word. word.now) words.now) 1 [])) }
{
    let [first, others @ ..] = words else {
        return Err(refusal(Kind::Syntax, n));
    };
    line_by(alloc, before, n, first, others)
}

/// The second word, and none where there is none.
fn second<'a>(words: &[&'a [u8]]) -> &'a [u8]
    ensures { result.now ≡ slice_index_or (map (λ word. word.now) words.now) 1 [] }
{
    match words {
        [_, word, ..] => word,
        _ => &[],
    }
}

/// One line more.
fn add_line<'a>(alloc: Global, reader: Reader<'a>, next: TextLine<'a>) -> Result<Reader<'a>, Stop>
    ensures { OrNoMemory result (behind_line reader.entry next.entry.number (words next.entry.text.now)) }
{
    let words = words(alloc, next.text)?;
    let line = line_of(alloc, &reader, next.number, words.as_slice())?;
    let reader = reader.add(line, second(words.as_slice()))?;
    Ok(reader)
}

/// The task and the event of one line more, if it is a `wait` line.
fn note_wait<'a>(waits: &mut Vec<WaitWords<'a>>, words: &[&'a [u8]]) -> Result<(), NoMemory>
    ensures { OnOk result (map (λ x. (x.task.now, x.event.now)) waits.new.items ≡ map (λ x. (x.task.now, x.event.now)) waits.old.items ++ wait_words (map (λ word. word.now) words.now)) }
{
    let [first, task, event] = words else {
        return Ok(());
    };
    if is_word(first, "wait") {
        waits.push(WaitWords { task, event })?;
        return Ok(());
    }
    Ok(())
}

/// The task and the event of each `wait` line, whatever they are.
fn waits_of<'a>(alloc: Global, lines: &[TextLine<'a>]) -> Result<Vec<WaitWords<'a>>, NoMemory>
    ensures { IfOk result (λ waits. map (λ x. (x.task.now, x.event.now)) waits.items ≡ waits_of (map (λ line. (line.number, line.text.now)) lines.now)) }
{
    let mut waits = Vec::new(alloc);
    for line in lines {
        let words = words(alloc, line.text)?;
        note_wait(&mut waits, words.as_slice())?;
    }
    Ok(waits)
}

/// The configuration of the first line and the others.
fn config_with<'a>(
    alloc: Global,
    first: &TextLine<'a>,
    others: &[TextLine<'a>],
) -> Result<Config, Stop>
    ensures says { OrNoMemory result (config_from (first.now.number, first.now.text.now) (map (λ line. (line.number, line.text.now)) others.now)) }
    ensures small { IfOk result IsSmall }
{
    let words = words(alloc, first.text)?;
    let keso = keso_line(first.number, words.as_slice())?;
    let mut reader = Reader::new(alloc, keso, waits_of(alloc, others)?);
    for next in others {
        reader = add_line(alloc, reader, *next)?;
    }
    Ok(reader.into_config())
}

/// The configuration that the text is, or its first fault.
///
/// A refusal is at the first line that shows Syntax, Range, Room, Twice or Unknown, and of its faults the
/// first in this order; it has 0 for its file, which the caller sets. A text without a first line is Syntax
/// at the number of its lines plus 1. Memory is in proportion to the text's length, and so is time where its
/// METHODs and cells weren't chosen to collide in a hash table.
pub fn read_config(alloc: Global, text: &[u8]) -> Result<Config, Stop>
    ensures says { OrNoMemory result (config_of text.now) }
    ensures small { IfOk result IsSmall }
    ensures sound { IfOk result IsSound }
{
    let found = text_lines(alloc, text)?;
    match found.lines.as_slice() {
        [first, others @ ..] => config_with(alloc, first, others),
        [] => Err(refusal(Kind::Syntax, found.end)),
    }
}
