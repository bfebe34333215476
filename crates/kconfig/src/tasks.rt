//! The lines of tasks, and of their resources and events.

ghost use Rattle.std.specs.Prelude.{◌≡◌, ◌<◌, map, length, IfOk, OnOk};
ghost use Rattle.text_words.specs.Said.{OrNoMemory};
ghost use Rattle.kconfig.specs.Limits.{IsTaskSmall};
ghost use Rattle.kconfig.specs.Tasks.{are_task_words, are_choice_words, task_form, task_fits, task_said, task_choices, task_line, use_stands, use_said, use_line, may_wait, wait_stands, wait_said, wait_line};

use crate::config::{Config, TaskLine, UseLine, WaitLine};
use crate::reader::Reader;
use crate::words::{is_entry, is_name};
use kes_text::{Kind, Stop};
use sqlite_items::Items;
use std::alloc::Global;
use text_words::{Number, check, is_either, is_word, number_of, refusal};

const MOST_TASKS: usize = 64;

fn are_task_words(domain: &[u8], prio: &[u8], acts: &[u8]) -> bool
    ensures { result ≡ are_task_words domain.now prio.now acts.now }
{
    is_word(domain, "domain") && is_word(prio, "prio") && is_word(acts, "acts")
}

fn are_choice_words(auto: &[u8], sched: &[u8], entry: &[u8]) -> bool
    ensures { result ≡ are_choice_words auto.now sched.now entry.now }
{
    is_word(auto, "auto") && is_word(sched, "sched") && is_word(entry, "entry")
}

/// Whether these have the form of the words that vary, but for the domain.
fn task_form(
    name: &[u8],
    prio: Number,
    acts: Number,
    auto: &[u8],
    sched: &[u8],
    entry: &[u8],
) -> bool
    ensures { result ≡ task_form name.now prio acts auto.now sched.now entry.now }
{
    is_name(name)
        && prio.is_number()
        && acts.is_number()
        && is_either("yes", "no", auto)
        && is_either("full", "non", sched)
        && is_entry(entry)
}

fn task_fits(prio: Number, acts: Number) -> bool
    ensures { result ≡ task_fits prio acts }
{
    prio.within(0, 63) && acts.within(1, 15)
}

#[tactic(auto, unfolding(crate::specs::Tasks::task_said))]
fn task_said(
    alloc: Global,
    before: &Reader<'_>,
    line: u64,
    name: &[u8],
    domain: &[u8],
    prio: Number,
    acts: Number,
    auto: &[u8],
    sched: &[u8],
    entry: &[u8],
) -> Result<TaskLine, Stop>
    ensures says { OrNoMemory result (task_said before.now line name.now domain.now prio acts auto.now sched.now entry.now) }
    ensures room { OnOk result (length before.now.config.tasks < 64) }
    ensures small { IfOk result IsTaskSmall }
{
    let has_form = task_form(name, prio, acts, auto, sched, entry);
    check(has_form, Kind::Syntax, line)?;
    check(task_fits(prio, acts), Kind::Range, line)?;
    let count = before.config().tasks.len();
    check(count < MOST_TASKS, Kind::Room, line)?;
    check(before.task_named(name).is_none(), Kind::Twice, line)?;
    let Some(domain) = before.domain_named(domain) else {
        return Err(refusal(Kind::Unknown, line));
    };
    Ok(TaskLine {
        line,
        name: Items::from_slice(alloc, name)?,
        domain,
        prio: prio.value(),
        acts: acts.value(),
        auto: is_word(auto, "yes"),
        full: is_word(sched, "full"),
        entry: Items::from_slice(alloc, entry)?,
    })
}

/// `.. auto yes|no sched full|non entry CLASS.NAME`
#[tactic(auto, unfolding(crate::specs::Tasks::task_choices))]
fn task_choices(
    alloc: Global,
    before: &Reader<'_>,
    line: u64,
    name: &[u8],
    domain: &[u8],
    prio: Number,
    acts: Number,
    words: &[&[u8]],
) -> Result<TaskLine, Stop>
    ensures says { OrNoMemory result (task_choices before.now line name.now domain.now prio acts (map (λ word. word.now) words.now)) }
    ensures room { OnOk result (length before.now.config.tasks < 64) }
    ensures small { IfOk result IsTaskSmall }
{
    let [auto_word, auto, sched_word, sched, entry_word, entry] = words else {
        return Err(refusal(Kind::Syntax, line));
    };
    if !are_choice_words(auto_word, sched_word, entry_word) {
        return Err(refusal(Kind::Syntax, line));
    }
    task_said(
        alloc, before, line, name, domain, prio, acts, auto, sched, entry,
    )
}

/// `task T domain D prio N acts N auto yes|no sched full|non entry CLASS.NAME`
pub fn task_line(
    alloc: Global,
    before: &Reader<'_>,
    line: u64,
    words: &[&[u8]],
) -> Result<TaskLine, Stop>
    ensures says { OrNoMemory result (task_line before.now line (map (λ word. word.now) words.now)) }
    ensures room { OnOk result (length before.now.config.tasks < 64) }
    ensures small { IfOk result IsTaskSmall }
{
    let [name, w1, domain, w2, prio, w3, acts, others @ ..] = words else {
        return Err(refusal(Kind::Syntax, line));
    };
    if !are_task_words(w1, w2, w3) {
        return Err(refusal(Kind::Syntax, line));
    }
    let (prio, acts) = (number_of(prio), number_of(acts));
    task_choices(alloc, before, line, name, domain, prio, acts, others)
}

/// Whether a line says that the task uses the resource.
fn use_stands(lines: &[UseLine], task: u32, resource: u32) -> bool
    ensures { result ≡ use_stands lines.now task resource }
{
    lines
        .iter()
        .any(|x| x.task == task && x.resource == resource)
}

#[tactic(auto, unfolding(crate::specs::Tasks::use_said))]
fn use_said(before: &Reader<'_>, line: u64, task: &[u8], resource: &[u8]) -> Result<UseLine, Stop>
    ensures { result ≡ use_said before.now line task.now resource.now }
{
    let Some(task) = before.task_named(task) else {
        return Err(refusal(Kind::Unknown, line));
    };
    let Some(resource) = before.resource_named(resource) else {
        return Err(refusal(Kind::Unknown, line));
    };
    let stands = use_stands(before.config().uses.as_slice(), task, resource);
    check(!stands, Kind::Twice, line)?;
    Ok(UseLine {
        line,
        task,
        resource,
    })
}

/// `use T R`
pub fn use_line(before: &Reader<'_>, line: u64, words: &[&[u8]]) -> Result<UseLine, Stop>
    ensures { result ≡ use_line before.now line (map (λ word. word.now) words.now) }
{
    let [task, resource] = words else {
        return Err(refusal(Kind::Syntax, line));
    };
    use_said(before, line, task, resource)
}

/// Whether a task that may be declared has one activation.
fn may_wait(config: &Config, task: Option<u32>) -> bool
    ensures { result ≡ may_wait config.now task }
{
    let Some(task) = task else {
        return true;
    };
    match config.tasks.get(task as usize) {
        Some(task) => task.acts <= 1,
        None => true,
    }
}

/// Whether a line says that the task waits for the event.
fn wait_stands(lines: &[WaitLine], task: u32, event: u32) -> bool
    ensures { result ≡ wait_stands lines.now task event }
{
    lines.iter().any(|x| x.task == task && x.event == event)
}

#[tactic(auto, unfolding(crate::specs::Tasks::wait_said))]
fn wait_said(before: &Reader<'_>, line: u64, task: &[u8], event: &[u8]) -> Result<WaitLine, Stop>
    ensures { result ≡ wait_said before.now line task.now event.now }
{
    let found = before.task_named(task);
    check(may_wait(before.config(), found), Kind::Range, line)?;
    let Some(task) = found else {
        return Err(refusal(Kind::Unknown, line));
    };
    let Some(event) = before.event_named(event) else {
        return Err(refusal(Kind::Unknown, line));
    };
    let stands = wait_stands(before.config().waits.as_slice(), task, event);
    check(!stands, Kind::Twice, line)?;
    Ok(WaitLine { line, task, event })
}

/// `wait T E`
pub fn wait_line(before: &Reader<'_>, line: u64, words: &[&[u8]]) -> Result<WaitLine, Stop>
    ensures { result ≡ wait_line before.now line (map (λ word. word.now) words.now) }
{
    let [task, event] = words else {
        return Err(refusal(Kind::Syntax, line));
    };
    wait_said(before, line, task, event)
}
