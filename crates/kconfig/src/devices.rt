//! The lines of devices, domains, counters, events, resources, cells and objects.

ghost use Rattle.std.specs.Prelude.{◌≡◌, ◌<◌, ◌≤◌, map, length, IfOk, OnOk, IfSome, slice_index_or, []};
ghost use Rattle.text_words.specs.Said.{OrNoMemory};
ghost use Rattle.kconfig.specs.Limits.{IsCounterSmall};
ghost use Rattle.kconfig.specs.Devices.{keso_form, keso_line, is_multiple_within, devices_said, are_devices_words, devices_line, domain_said, domain_line, are_numbers, counter_fits, counter_said, are_counter_words, counter_line, name_said, name_line, width_of, is_cell_place, cell_said, are_cell_words, cell_line, object_said, are_object_words, object_line};

use crate::config::{
    CellLine, CounterLine, DevicesLine, DomainLine, KesoLine, NameLine, ObjectLine,
};
use crate::reader::{Reader, named};
use crate::words::{is_field, is_name, is_shown_name};
use kes_text::{Kind, Stop};
use sqlite_items::Items;
use std::alloc::Global;
use text_words::{Number, are_both_numbers, check, is_either, is_word, number_of, refusal};

const MOST_DOMAINS: usize = 16;

const MOST_COUNTERS: usize = 8;

const MOST_OBJECTS: usize = 64;

const LARGEST_HEAP: u64 = 8_388_608;

const LARGEST_BASE: u64 = 0xFFFF_FFFF;

const LARGEST_SIZE: u64 = 65_536;

const LARGEST_COUNTER: u64 = 2_147_483_647;

fn keso_form(keso: &[u8], version: &[u8], order: &[u8], which: &[u8]) -> bool
    ensures { result ≡ keso_form keso.now version.now order.now which.now }
{
    is_word(keso, "keso")
        && is_word(version, "1")
        && is_word(order, "order")
        && is_either("little", "big", which)
}

/// The first line: `keso 1 order little|big`.
pub fn keso_line(line: u64, words: &[&[u8]]) -> Result<KesoLine, Stop>
    ensures { result ≡ keso_line line (map (λ word. word.now) words.now) }
{
    let [keso, version, order, which] = words else {
        return Err(refusal(Kind::Syntax, line));
    };
    check(keso_form(keso, version, order, which), Kind::Syntax, line)?;
    let big = is_word(which, "big");
    Ok(KesoLine { line, big })
}

/// Whether it is a multiple of 8 up to the greatest.
fn is_multiple_within(greatest: u64, number: Number) -> bool
    ensures { result ≡ is_multiple_within greatest number }
{
    number.within(0, greatest) && number.value() % 8 == 0
}

#[tactic(auto, unfolding(crate::specs::Devices::devices_said))]
fn devices_said(
    before: &Reader<'_>,
    line: u64,
    base: Number,
    size: Number,
) -> Result<DevicesLine, Stop>
    ensures { result ≡ devices_said before.now line base size }
{
    check(are_both_numbers(base, size), Kind::Syntax, line)?;
    check(is_multiple_within(LARGEST_BASE, base), Kind::Range, line)?;
    check(is_multiple_within(LARGEST_SIZE, size), Kind::Range, line)?;
    check(before.config().devices.line == 0, Kind::Room, line)?;
    Ok(DevicesLine {
        line,
        base: base.value(),
        size: size.value(),
    })
}

fn are_devices_words(base_word: &[u8], size_word: &[u8]) -> bool
    ensures { result ≡ are_devices_words base_word.now size_word.now }
{
    is_word(base_word, "base") && is_word(size_word, "size")
}

/// `devices base N size N`
pub fn devices_line(before: &Reader<'_>, line: u64, words: &[&[u8]]) -> Result<DevicesLine, Stop>
    ensures { result ≡ devices_line before.now line (map (λ word. word.now) words.now) }
{
    let [base_word, base, size_word, size] = words else {
        return Err(refusal(Kind::Syntax, line));
    };
    if !are_devices_words(base_word, size_word) {
        return Err(refusal(Kind::Syntax, line));
    }
    devices_said(before, line, number_of(base), number_of(size))
}

#[tactic(auto, unfolding(crate::specs::Devices::domain_said))]
fn domain_said(
    alloc: Global,
    before: &Reader<'_>,
    line: u64,
    name: &[u8],
    heap: Number,
) -> Result<DomainLine, Stop>
    ensures says { OrNoMemory result (domain_said before.now line name.now heap) }
    ensures room { OnOk result (length before.now.config.domains < 16) }
{
    check(is_name(name), Kind::Syntax, line)?;
    check(heap.is_number(), Kind::Syntax, line)?;
    check(is_multiple_within(LARGEST_HEAP, heap), Kind::Range, line)?;
    let count = before.config().domains.len();
    check(count < MOST_DOMAINS, Kind::Room, line)?;
    check(before.domain_named(name).is_none(), Kind::Twice, line)?;
    let name = Items::from_slice(alloc, name)?;
    let heap = heap.value();
    Ok(DomainLine { line, name, heap })
}

/// `domain D heap N`
pub fn domain_line(
    alloc: Global,
    before: &Reader<'_>,
    line: u64,
    words: &[&[u8]],
) -> Result<DomainLine, Stop>
    ensures says { OrNoMemory result (domain_line before.now line (map (λ word. word.now) words.now)) }
    ensures room { OnOk result (length before.now.config.domains < 16) }
{
    let [name, heap_word, heap] = words else {
        return Err(refusal(Kind::Syntax, line));
    };
    if !is_word(heap_word, "heap") {
        return Err(refusal(Kind::Syntax, line));
    }
    domain_said(alloc, before, line, name, number_of(heap))
}

fn are_numbers(max: Number, base: Number, min: Number) -> bool
    ensures { result ≡ are_numbers max base min }
{
    max.is_number() && base.is_number() && min.is_number()
}

/// Whether the numbers of a counter are within their bounds.
fn counter_fits(max: Number, base: Number, min: Number) -> bool
    ensures { result ≡ counter_fits max base min }
{
    max.within(1, LARGEST_COUNTER) && base.within(1, 65_535) && min.within(1, max.value())
}

#[tactic(auto, unfolding(crate::specs::Devices::counter_said))]
fn counter_said(
    alloc: Global,
    before: &Reader<'_>,
    line: u64,
    name: &[u8],
    max: Number,
    base: Number,
    min: Number,
) -> Result<CounterLine, Stop>
    ensures says { OrNoMemory result (counter_said before.now line name.now max base min) }
    ensures room { OnOk result (length before.now.config.counters < 8) }
    ensures small { IfOk result IsCounterSmall }
{
    check(is_name(name), Kind::Syntax, line)?;
    check(are_numbers(max, base, min), Kind::Syntax, line)?;
    check(counter_fits(max, base, min), Kind::Range, line)?;
    let count = before.config().counters.len();
    check(count < MOST_COUNTERS, Kind::Room, line)?;
    check(before.counter_named(name).is_none(), Kind::Twice, line)?;
    Ok(CounterLine {
        line,
        name: Items::from_slice(alloc, name)?,
        max: max.value(),
        base: base.value(),
        min: min.value(),
    })
}

fn are_counter_words(max_word: &[u8], base_word: &[u8], min_word: &[u8]) -> bool
    ensures { result ≡ are_counter_words max_word.now base_word.now min_word.now }
{
    is_word(max_word, "max") && is_word(base_word, "base") && is_word(min_word, "min")
}

/// `counter C max N base N min N`
pub fn counter_line(
    alloc: Global,
    before: &Reader<'_>,
    line: u64,
    words: &[&[u8]],
) -> Result<CounterLine, Stop>
    ensures says { OrNoMemory result (counter_line before.now line (map (λ word. word.now) words.now)) }
    ensures room { OnOk result (length before.now.config.counters < 8) }
    ensures small { IfOk result IsCounterSmall }
{
    let [name, max_word, max, base_word, base, min_word, min] = words else {
        return Err(refusal(Kind::Syntax, line));
    };
    if !are_counter_words(max_word, base_word, min_word) {
        return Err(refusal(Kind::Syntax, line));
    }
    let (max, base, min) = (number_of(max), number_of(base), number_of(min));
    counter_said(alloc, before, line, name, max, base, min)
}

#[tactic(auto, unfolding(crate::specs::Devices::name_said))]
fn name_said(
    alloc: Global,
    lines: &[NameLine],
    most: usize,
    line: u64,
    name: &[u8],
) -> Result<NameLine, Stop>
    requires { length lines.now ≤ 64 }
    ensures says { OrNoMemory result (name_said lines.now most line name.now) }
    ensures room { OnOk result (length lines.now < most) }
{
    check(is_name(name), Kind::Syntax, line)?;
    check(lines.len() < most, Kind::Room, line)?;
    check(named(lines, name).is_none(), Kind::Twice, line)?;
    let name = Items::from_slice(alloc, name)?;
    Ok(NameLine { line, name })
}

/// `event E` or `resource R`, where at most so many may stand.
pub fn name_line(
    alloc: Global,
    lines: &[NameLine],
    most: usize,
    line: u64,
    words: &[&[u8]],
) -> Result<NameLine, Stop>
    requires { length lines.now ≤ 64 }
    ensures says { OrNoMemory result (name_line lines.now most line (map (λ word. word.now) words.now)) }
    ensures room { OnOk result (length lines.now < most) }
{
    let [name] = words else {
        return Err(refusal(Kind::Syntax, line));
    };
    name_said(alloc, lines, most, line, name)
}

/// The width of a cell, in bytes.
fn width_of(word: &[u8]) -> Option<u64>
    ensures width { result ≡ width_of word.now }
    ensures some { IfSome result (λ width. 1 ≤ width) }
{
    if is_word(word, "1") {
        Some(1)
    } else if is_word(word, "2") {
        Some(2)
    } else if is_word(word, "4") {
        Some(4)
    } else if is_word(word, "8") {
        Some(8)
    } else {
        None
    }
}

/// Whether it is a multiple of the width up to 65,535.
fn is_cell_place(width: u64, at: Number) -> bool
    requires { 1 ≤ width }
    ensures { result ≡ is_cell_place width at }
{
    at.within(0, 65_535) && at.value() % width == 0
}

#[tactic(auto, unfolding(crate::specs::Devices::cell_said))]
fn cell_said<'a>(
    alloc: Global,
    before: &Reader<'a>,
    line: u64,
    field: &'a [u8],
    at: Number,
    width: Option<u64>,
) -> Result<CellLine, Stop>
    requires { IfSome width (λ width. 1 ≤ width) }
    ensures says { OrNoMemory result (cell_said before.now line field.now at width) }
    ensures key { IfOk result (λ cell. cell.field ≡ field.now) }
{
    check(is_field(field), Kind::Syntax, line)?;
    check(at.is_number(), Kind::Syntax, line)?;
    let Some(width) = width else {
        return Err(refusal(Kind::Syntax, line));
    };
    check(is_cell_place(width, at), Kind::Range, line)?;
    check(!before.has_cell(field), Kind::Twice, line)?;
    let field = Items::from_slice(alloc, field)?;
    let at = at.value();
    Ok(CellLine {
        line,
        field,
        at,
        width,
    })
}

fn are_cell_words(at_word: &[u8], width_word: &[u8]) -> bool
    ensures { result ≡ are_cell_words at_word.now width_word.now }
{
    is_word(at_word, "at") && is_word(width_word, "width")
}

/// `cell CLASS.FIELD at N width 1|2|4|8`
pub fn cell_line<'a>(
    alloc: Global,
    before: &Reader<'a>,
    line: u64,
    words: &[&'a [u8]],
) -> Result<CellLine, Stop>
    ensures says { OrNoMemory result (cell_line before.now line (map (λ word. word.now) words.now)) }
    ensures key { IfOk result (λ cell. cell.field ≡ slice_index_or (map (λ word. word.now) words.now) 0 []) }
{
    let [field, at_word, at, width_word, width] = words else {
        return Err(refusal(Kind::Syntax, line));
    };
    if !are_cell_words(at_word, width_word) {
        return Err(refusal(Kind::Syntax, line));
    }
    cell_said(alloc, before, line, field, number_of(at), width_of(width))
}

#[tactic(auto, unfolding(crate::specs::Devices::object_said))]
fn object_said(
    alloc: Global,
    before: &Reader<'_>,
    line: u64,
    name: &[u8],
    class: &[u8],
    base: Number,
) -> Result<ObjectLine, Stop>
    ensures says { OrNoMemory result (object_said before.now line name.now class.now base) }
    ensures room { OnOk result (length before.now.config.objects < 64) }
{
    check(is_name(name), Kind::Syntax, line)?;
    check(is_shown_name(class), Kind::Syntax, line)?;
    check(base.is_number(), Kind::Syntax, line)?;
    check(is_multiple_within(u64::MAX, base), Kind::Range, line)?;
    let count = before.config().objects.len();
    check(count < MOST_OBJECTS, Kind::Room, line)?;
    check(before.object_named(name).is_none(), Kind::Twice, line)?;
    Ok(ObjectLine {
        line,
        name: Items::from_slice(alloc, name)?,
        class: Items::from_slice(alloc, class)?,
        base: base.value(),
    })
}

fn are_object_words(class_word: &[u8], base_word: &[u8]) -> bool
    ensures { result ≡ are_object_words class_word.now base_word.now }
{
    is_word(class_word, "class") && is_word(base_word, "base")
}

/// `object O class CLASS base N`
pub fn object_line(
    alloc: Global,
    before: &Reader<'_>,
    line: u64,
    words: &[&[u8]],
) -> Result<ObjectLine, Stop>
    ensures says { OrNoMemory result (object_line before.now line (map (λ word. word.now) words.now)) }
    ensures room { OnOk result (length before.now.config.objects < 64) }
{
    let [name, class_word, class, base_word, base] = words else {
        return Err(refusal(Kind::Syntax, line));
    };
    if !are_object_words(class_word, base_word) {
        return Err(refusal(Kind::Syntax, line));
    }
    object_said(alloc, before, line, name, class, number_of(base))
}
