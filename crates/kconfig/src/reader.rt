//! What the lines so far say, and look-ups in it.

ghost use Rattle.std.specs.Prelude.{◌≡◌, ◌≤◌, ◌<◌, ◌&&◌, ◌||◌, ℕ, List, [], IfSome, IfOk, length, map, bytes_eq};
ghost use Rattle.std.specs.List.{position, list_any};
ghost use Rattle.kconfig.specs.Config.{Before, first_config, with_line, after};
ghost use Rattle.kconfig.specs.Names.{named, domain_named, counter_named, task_named, alarm_named, object_named, is_bound, has_cell, binds, places};
ghost use Rattle.kconfig.specs.Alarms.{is_waited};
ghost use Rattle.kconfig.specs.Limits.{IsSmall, Fits, IsKey};

use crate::config::{
    AlarmLine, Config, CounterLine, DevicesLine, DomainLine, KesoLine, Line, NameLine, ObjectLine,
    TaskLine,
};
use crate::word_set::WordSet;
use kes_text::NoMemory;
use sqlite_items::Items;
use std::alloc::Global;
use std::marker::Model;

/// The words of a task and of an event for which it waits.
#[derive(Clone, Copy)]
pub struct WaitWords<'a> {
    pub task: &'a [u8],
    pub event: &'a [u8],
}

/// The configuration of the lines so far, and what the whole text says of waiting.
#[derive(Drop)]
pub struct Reader<'a> {
    config: Config,
    waits: Vec<WaitWords<'a>>,
    /// The METHODs of native, device and portal lines.
    methods: WordSet<'a>,
    /// The CLASS.FIELDs of cell lines.
    fields: WordSet<'a>,
}

impl<'a> Model for Reader<'a> {
    ghost use Rattle.std.specs.Prelude.{map};
    ghost use Rattle.kconfig.specs.Config.{Before};
    ghost use Rattle.kconfig.specs.Kept.{Keeps};

    ghost Value = { Before };

    ghost view = { λ r. record { config = r.config; waits = map (λ x. (x.task.now, x.event.now)) r.waits.items } };

    ghost invariant = { λ r. Keeps r.config r.methods r.fields };
}

/// Whether the task and the event are among these.
fn is_among(waits: &[WaitWords<'_>], task: &[u8], event: &[u8]) -> bool
    ensures { result ≡ list_any (λ x. bytes_eq x.task.now task.now && bytes_eq x.event.now event.now) waits.now }
{
    waits.iter().any(|x| x.task == task && x.event == event)
}

/// The place of a name among lines.
pub fn named(lines: &[NameLine], name: &[u8]) -> Option<u32>
    requires { length lines.now ≤ 64 }
    ensures place { result ≡ named lines.now name.now }
    ensures within { IfSome result (λ place. place < length lines.now) }
{
    place(name_place(lines, name), lines.len())
}

/// A place below the length of a list.
fn place(found: Option<usize>, length: usize) -> Option<u32>
    requires small { length ≤ 256 }
    requires within { IfSome found (λ at. at < length) }
    ensures same { result ≡ found }
    ensures within { IfSome result (λ at. at < length) }
{
    match found {
        Some(at) => Some(at as u32),
        None => None,
    }
}

fn name_place(lines: &[NameLine], name: &[u8]) -> Option<usize>
    ensures place { result ≡ position (λ x. bytes_eq x.name name.now) lines.now }
    ensures within { IfSome result (λ place. place < length lines.now) }
{
    lines.iter().position(|x| x.name.as_slice() == name)
}

fn domain_place(lines: &[DomainLine], name: &[u8]) -> Option<usize>
    ensures place { result ≡ position (λ x. bytes_eq x.name name.now) lines.now }
    ensures within { IfSome result (λ place. place < length lines.now) }
{
    lines.iter().position(|x| x.name.as_slice() == name)
}

fn counter_place(lines: &[CounterLine], name: &[u8]) -> Option<usize>
    ensures place { result ≡ position (λ x. bytes_eq x.name name.now) lines.now }
    ensures within { IfSome result (λ place. place < length lines.now) }
{
    lines.iter().position(|x| x.name.as_slice() == name)
}

fn task_place(lines: &[TaskLine], name: &[u8]) -> Option<usize>
    ensures place { result ≡ position (λ x. bytes_eq x.name name.now) lines.now }
    ensures within { IfSome result (λ place. place < length lines.now) }
{
    lines.iter().position(|x| x.name.as_slice() == name)
}

fn alarm_place(lines: &[AlarmLine], name: &[u8]) -> Option<usize>
    ensures place { result ≡ position (λ x. bytes_eq x.name name.now) lines.now }
    ensures within { IfSome result (λ place. place < length lines.now) }
{
    lines.iter().position(|x| x.name.as_slice() == name)
}

fn object_place(lines: &[ObjectLine], name: &[u8]) -> Option<usize>
    ensures place { result ≡ position (λ x. bytes_eq x.name name.now) lines.now }
    ensures within { IfSome result (λ place. place < length lines.now) }
{
    lines.iter().position(|x| x.name.as_slice() == name)
}

impl<'a> Reader<'a> {
    /// Behind the first line, of a text whose `wait` lines have these words.
    pub fn new(alloc: Global, keso: KesoLine, waits: Vec<WaitWords<'a>>) -> Reader<'a>
        ensures { result ≡ record { config = first_config keso; waits = map (λ x. (x.task.now, x.event.now)) waits.entry.items } }
    {
        Reader {
            config: Config {
                keso,
                devices: DevicesLine {
                    line: 0,
                    base: 0,
                    size: 0,
                },
                domains: Items::new(alloc),
                counters: Items::new(alloc),
                events: Items::new(alloc),
                resources: Items::new(alloc),
                tasks: Items::new(alloc),
                uses: Items::new(alloc),
                waits: Items::new(alloc),
                alarms: Items::new(alloc),
                starts: Items::new(alloc),
                natives: Items::new(alloc),
                cells: Items::new(alloc),
                objects: Items::new(alloc),
                device_methods: Items::new(alloc),
                portals: Items::new(alloc),
            },
            waits,
            methods: WordSet::new(alloc),
            fields: WordSet::new(alloc),
        }
    }

    pub fn config(&self) -> &Config
        ensures same { result.now ≡ self.now.config }
        ensures small { IsSmall result.now }
    {
        &self.config
    }

    pub fn into_config(self) -> Config
        ensures same { result ≡ self.entry.config }
        ensures small { IsSmall result }
    {
        self.config
    }

    pub fn domain_named(&self, name: &[u8]) -> Option<u32>
        ensures { result ≡ domain_named self.now.config name.now }
    {
        let lines = self.config.domains.as_slice();
        place(domain_place(lines, name), lines.len())
    }

    pub fn counter_named(&self, name: &[u8]) -> Option<u32>
        ensures { result ≡ counter_named self.now.config name.now }
    {
        let lines = self.config.counters.as_slice();
        place(counter_place(lines, name), lines.len())
    }

    pub fn event_named(&self, name: &[u8]) -> Option<u32>
        ensures { result ≡ named self.now.config.events name.now }
    {
        named(self.config.events.as_slice(), name)
    }

    pub fn resource_named(&self, name: &[u8]) -> Option<u32>
        ensures { result ≡ named self.now.config.resources name.now }
    {
        named(self.config.resources.as_slice(), name)
    }

    pub fn task_named(&self, name: &[u8]) -> Option<u32>
        ensures { result ≡ task_named self.now.config name.now }
    {
        let lines = self.config.tasks.as_slice();
        place(task_place(lines, name), lines.len())
    }

    pub fn alarm_named(&self, name: &[u8]) -> Option<u32>
        ensures { result ≡ alarm_named self.now.config name.now }
    {
        let lines = self.config.alarms.as_slice();
        place(alarm_place(lines, name), lines.len())
    }

    pub fn object_named(&self, name: &[u8]) -> Option<u32>
        ensures { result ≡ object_named self.now.config name.now }
    {
        let lines = self.config.objects.as_slice();
        place(object_place(lines, name), lines.len())
    }

    /// Whether a native, device or portal line has this METHOD.
    pub fn is_bound(&self, method: &'a [u8]) -> bool
        ensures { result ≡ is_bound self.now.config method.now }
    {
        self.methods.contains(method)
    }

    /// Whether a cell line has this CLASS.FIELD.
    pub fn has_cell(&self, field: &'a [u8]) -> bool
        ensures { result ≡ has_cell self.now.config field.now }
    {
        self.fields.contains(field)
    }

    /// Whether a line of the text says that the task waits for the event.
    pub fn is_waited(&self, task: &[u8], event: &[u8]) -> bool
        ensures { result ≡ is_waited self.now.waits task.now event.now }
    {
        let waits = self.waits.as_slice();
        is_among(waits, task, event)
    }

    /// One line more; `key` is its METHOD or CLASS.FIELD, where it has one.
    pub fn add(self, line: Line, key: &'a [u8]) -> Result<Reader<'a>, NoMemory>
        requires fits { Fits self.config line }
        requires key { IsKey line key.now }
        ensures { IfOk result (λ reader. reader ≡ after self.entry line) }
    {
        let Reader {
            config,
            waits,
            methods,
            fields,
        } = self;
        let methods = with_method(methods, &line, key)?;
        let fields = with_field(fields, &line, key)?;
        let config = with_line(config, line)?;
        Ok(Reader {
            config,
            waits,
            methods,
            fields,
        })
    }
}

/// The METHODs with that of a line, where it has one.
fn with_method<'a>(
    mut methods: WordSet<'a>,
    line: &Line,
    key: &'a [u8],
) -> Result<WordSet<'a>, NoMemory>
    requires { IsKey line.now key.now }
    ensures { IfOk result (λ found. (word : List ℕ) → list_any (bytes_eq word) found ≡ (binds line.now word || list_any (bytes_eq word) methods.entry)) }
{
    match line {
        Line::Native(_) | Line::Device(_) | Line::Portal(_) => {
            methods.insert(key)?;
            Ok(methods)
        }
        _ => Ok(methods),
    }
}

/// The CLASS.FIELDs with that of a line, where it has one.
fn with_field<'a>(
    mut fields: WordSet<'a>,
    line: &Line,
    key: &'a [u8],
) -> Result<WordSet<'a>, NoMemory>
    requires { IsKey line.now key.now }
    ensures { IfOk result (λ found. (word : List ℕ) → list_any (bytes_eq word) found ≡ (places line.now word || list_any (bytes_eq word) fields.entry)) }
{
    match line {
        Line::Cell(_) => {
            fields.insert(key)?;
            Ok(fields)
        }
        _ => Ok(fields),
    }
}

/// The configuration with one line more.
fn with_line(mut config: Config, line: Line) -> Result<Config, NoMemory>
    ensures { IfOk result (λ found. found ≡ with_line config line) }
{
    match line {
        Line::Devices(line) => config.devices = line,
        Line::Domain(line) => config.domains.push(line)?,
        Line::Counter(line) => config.counters.push(line)?,
        Line::Event(line) => config.events.push(line)?,
        Line::Resource(line) => config.resources.push(line)?,
        Line::Task(line) => config.tasks.push(line)?,
        Line::Use(line) => config.uses.push(line)?,
        Line::Wait(line) => config.waits.push(line)?,
        Line::Alarm(line) => config.alarms.push(line)?,
        Line::Start(line) => config.starts.push(line)?,
        Line::Native(line) => config.natives.push(line)?,
        Line::Cell(line) => config.cells.push(line)?,
        Line::Object(line) => config.objects.push(line)?,
        Line::Device(line) => config.device_methods.push(line)?,
        Line::Portal(line) => config.portals.push(line)?,
    }
    Ok(config)
}
