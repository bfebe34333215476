//! The lines of native methods, devices and portals.

ghost use Rattle.std.specs.Prelude.{◌≡◌, ◌<◌, ◌≤◌, ◌&&◌, map, length, IfOk, OnOk, slice_index_or, []};
ghost use Rattle.text_words.specs.Said.{OrNoMemory};
ghost use Rattle.kconfig.specs.Names.{named, task_named, alarm_named};
ghost use Rattle.kconfig.specs.Methods.{joined, each_once, is_event_list, mask_with, mask_named, is_bare, takes, is_set_event, has_form, bare_service, task_service, resource_service, alarm_service, event_service, service_with, set_event, service_named, native_said, native_line, device_said, device_line, portal_said, are_portal_words, portal_line};

use crate::config::{DeviceLine, NameLine, NativeLine, PortalLine, Service};
use crate::reader::{Reader, named};
use crate::service_words::{ServiceWord, service_word};
use crate::word_set::WordSet;
use crate::words::is_method;
use kes_text::{Kind, NoMemory, Stop};
use sqlite_items::Items;
use std::alloc::Global;
use text_words::{Number, check, is_word, number_of, refusal};

const MOST_PORTALS: usize = 256;

const LARGEST_LIMIT: u64 = 256;

/// The words that `+` joins.
fn joined(alloc: Global, word: &[u8]) -> Result<Vec<&[u8]>, NoMemory>
    ensures { IfOk result (λ names. map (λ name. name.now) names.items ≡ joined word.now) }
{
    word.split(|byte| *byte == b'+').collect(alloc)
}

/// Whether no name is empty, and none stands among those before it.
fn each_once(alloc: Global, names: &[&[u8]]) -> Result<bool, NoMemory>
    ensures { IfOk result (λ found. found ≡ each_once [] (map (λ name. name.now) names.now)) }
{
    let mut earlier = WordSet::new(alloc);
    for name in names {
        if name.is_empty() {
            return Ok(false);
        }
        if earlier.contains(name) {
            return Ok(false);
        }
        earlier.insert(name)?;
    }
    Ok(true)
}

/// Whether it is one or more events joined by `+`, each once.
fn is_event_list(alloc: Global, word: &[u8]) -> Result<bool, NoMemory>
    ensures { IfOk result (λ found. found ≡ is_event_list word.now) }
{
    let names = joined(alloc, word)?;
    each_once(alloc, names.as_slice())
}

/// The mask of these events; None where one is undeclared.
fn mask_of(events: &[NameLine], names: &[&[u8]]) -> Option<u32>
    requires { length events.now ≤ 31 }
    ensures { result ≡ mask_with events.now 0 (map (λ name. name.now) names.now) }
{
    let mut mask = 0u32;
    for name in names {
        let Some(event) = named(events, name) else {
            return None;
        };
        mask |= 1 << event;
    }
    Some(mask)
}

/// The mask of events joined by `+`; None where one is undeclared.
fn mask_named(alloc: Global, events: &[NameLine], word: &[u8]) -> Result<Option<u32>, NoMemory>
    requires { length events.now ≤ 31 }
    ensures { IfOk result (λ found. found ≡ mask_named events.now word.now) }
{
    let names = joined(alloc, word)?;
    Ok(mask_of(events, names.as_slice()))
}

fn takes(alloc: Global, word: ServiceWord, argument: &[u8]) -> Result<bool, NoMemory>
    ensures { IfOk result (λ found. found ≡ takes word argument.now) }
{
    match word {
        ServiceWord::TerminateTask | ServiceWord::Schedule | ServiceWord::SetEvent => Ok(false),
        ServiceWord::ClearEvent | ServiceWord::WaitEvent => is_event_list(alloc, argument),
        _ => Ok(true),
    }
}

/// Whether the service is that of a task and these events.
fn takes_events(alloc: Global, word: ServiceWord, events: &[u8]) -> Result<bool, NoMemory>
    ensures { IfOk result (λ found. found ≡ (is_set_event word && is_event_list events.now)) }
{
    match word {
        ServiceWord::SetEvent => is_event_list(alloc, events),
        _ => Ok(false),
    }
}

/// Whether these may be the arguments of the service.
fn has_form(alloc: Global, word: ServiceWord, arguments: &[&[u8]]) -> Result<bool, NoMemory>
    ensures { IfOk result (λ found. found ≡ has_form word (map (λ word. word.now) arguments.now)) }
{
    match arguments {
        [] => Ok(is_bare(word)),
        [argument] => takes(alloc, word, argument),
        [_, events] => takes_events(alloc, word, events),
        _ => Ok(false),
    }
}

/// Whether the service takes no argument.
fn is_bare(word: ServiceWord) -> bool
    ensures { result ≡ is_bare word }
{
    matches!(word, ServiceWord::TerminateTask | ServiceWord::Schedule)
}

/// A service without arguments.
fn bare_service(word: ServiceWord) -> Option<Service>
    ensures { result ≡ bare_service word }
{
    match word {
        ServiceWord::TerminateTask => Some(Service::TerminateTask),
        ServiceWord::Schedule => Some(Service::Schedule),
        _ => None,
    }
}

/// A service of a task; None where it is undeclared.
fn task_service(before: &Reader<'_>, word: ServiceWord, name: &[u8]) -> Option<Service>
    ensures { result ≡ task_service word (task_named before.now.config name.now) }
{
    let task = before.task_named(name)?;
    match word {
        ServiceWord::ActivateTask => Some(Service::ActivateTask { task }),
        ServiceWord::ChainTask => Some(Service::ChainTask { task }),
        ServiceWord::GetEvent => Some(Service::GetEvent { task }),
        _ => None,
    }
}

/// A service of a resource; None where it is undeclared.
fn resource_service(before: &Reader<'_>, word: ServiceWord, name: &[u8]) -> Option<Service>
    ensures { result ≡ resource_service word (named before.now.config.resources name.now) }
{
    let resource = before.resource_named(name)?;
    match word {
        ServiceWord::GetResource => Some(Service::GetResource { resource }),
        ServiceWord::ReleaseResource => Some(Service::ReleaseResource { resource }),
        _ => None,
    }
}

/// A service of an alarm; None where it is undeclared.
fn alarm_service(before: &Reader<'_>, word: ServiceWord, name: &[u8]) -> Option<Service>
    ensures { result ≡ alarm_service word (alarm_named before.now.config name.now) }
{
    let alarm = before.alarm_named(name)?;
    match word {
        ServiceWord::SetRelAlarm => Some(Service::SetRelAlarm { alarm }),
        ServiceWord::SetAbsAlarm => Some(Service::SetAbsAlarm { alarm }),
        ServiceWord::CancelAlarm => Some(Service::CancelAlarm { alarm }),
        ServiceWord::GetAlarm => Some(Service::GetAlarm { alarm }),
        _ => None,
    }
}

/// A service of events alone.
fn event_service(word: ServiceWord, mask: Option<u32>) -> Option<Service>
    ensures { result ≡ event_service word mask }
{
    let mask = mask?;
    match word {
        ServiceWord::ClearEvent => Some(Service::ClearEvent { mask }),
        ServiceWord::WaitEvent => Some(Service::WaitEvent { mask }),
        _ => None,
    }
}

/// A service with one argument; None where it names something undeclared.
fn service_with(
    alloc: Global,
    before: &Reader<'_>,
    word: ServiceWord,
    name: &[u8],
) -> Result<Option<Service>, NoMemory>
    ensures { IfOk result (λ found. found ≡ service_with before.now.config word name.now) }
{
    match word {
        ServiceWord::ActivateTask | ServiceWord::ChainTask | ServiceWord::GetEvent => {
            Ok(task_service(before, word, name))
        }
        ServiceWord::GetResource | ServiceWord::ReleaseResource => {
            Ok(resource_service(before, word, name))
        }
        ServiceWord::ClearEvent | ServiceWord::WaitEvent => {
            let mask = mask_named(alloc, before.config().events.as_slice(), name)?;
            Ok(event_service(word, mask))
        }
        _ => Ok(alarm_service(before, word, name)),
    }
}

/// `SetEvent T E+E`
fn set_event(task: Option<u32>, mask: Option<u32>) -> Option<Service>
    ensures { result ≡ set_event task mask }
{
    match (task, mask) {
        (Some(task), Some(mask)) => Some(Service::SetEvent { task, mask }),
        _ => None,
    }
}

/// What the method calls; None where a name is undeclared.
fn service_named(
    alloc: Global,
    before: &Reader<'_>,
    word: ServiceWord,
    arguments: &[&[u8]],
) -> Result<Option<Service>, NoMemory>
    ensures { IfOk result (λ found. found ≡ service_named before.now.config word (map (λ word. word.now) arguments.now)) }
{
    match arguments {
        [] => Ok(bare_service(word)),
        [argument] => service_with(alloc, before, word, argument),
        [task, events] => {
            let mask = mask_named(alloc, before.config().events.as_slice(), events)?;
            Ok(set_event(before.task_named(task), mask))
        }
        _ => Ok(None),
    }
}

#[tactic(auto, unfolding(crate::specs::Methods::native_said))]
fn native_said<'a>(
    alloc: Global,
    before: &Reader<'a>,
    line: u64,
    method: &'a [u8],
    name: &[u8],
    arguments: &[&[u8]],
) -> Result<NativeLine, Stop>
    ensures says { OrNoMemory result (native_said before.now line method.now name.now (map (λ word. word.now) arguments.now)) }
    ensures key { IfOk result (λ native. native.method ≡ method.now) }
{
    let Some(word) = service_word(name) else {
        return Err(refusal(Kind::Syntax, line));
    };
    check(is_method(method), Kind::Syntax, line)?;
    let has_form = has_form(alloc, word, arguments)?;
    check(has_form, Kind::Syntax, line)?;
    check(!before.is_bound(method), Kind::Twice, line)?;
    let Some(service) = service_named(alloc, before, word, arguments)? else {
        return Err(refusal(Kind::Unknown, line));
    };
    let method = Items::from_slice(alloc, method)?;
    Ok(NativeLine {
        line,
        method,
        service,
    })
}

/// `native METHOD SERVICE ARGS`
pub fn native_line<'a>(
    alloc: Global,
    before: &Reader<'a>,
    line: u64,
    words: &[&'a [u8]],
) -> Result<NativeLine, Stop>
    ensures says { OrNoMemory result (native_line before.now line (map (λ word. word.now) words.now)) }
    ensures key { IfOk result (λ native. native.method ≡ slice_index_or (map (λ word. word.now) words.now) 0 []) }
{
    let [method, name, arguments @ ..] = words else {
        return Err(refusal(Kind::Syntax, line));
    };
    native_said(alloc, before, line, method, name, arguments)
}

#[tactic(auto, unfolding(crate::specs::Methods::device_said))]
fn device_said<'a>(
    alloc: Global,
    before: &Reader<'a>,
    line: u64,
    method: &'a [u8],
    object: &[u8],
) -> Result<DeviceLine, Stop>
    ensures says { OrNoMemory result (device_said before.now line method.now object.now) }
    ensures key { IfOk result (λ device. device.method ≡ method.now) }
{
    check(is_method(method), Kind::Syntax, line)?;
    check(!before.is_bound(method), Kind::Twice, line)?;
    let Some(object) = before.object_named(object) else {
        return Err(refusal(Kind::Unknown, line));
    };
    let method = Items::from_slice(alloc, method)?;
    Ok(DeviceLine {
        line,
        method,
        object,
    })
}

/// `device METHOD O`
pub fn device_line<'a>(
    alloc: Global,
    before: &Reader<'a>,
    line: u64,
    words: &[&'a [u8]],
) -> Result<DeviceLine, Stop>
    ensures says { OrNoMemory result (device_line before.now line (map (λ word. word.now) words.now)) }
    ensures key { IfOk result (λ device. device.method ≡ slice_index_or (map (λ word. word.now) words.now) 0 []) }
{
    let [method, object] = words else {
        return Err(refusal(Kind::Syntax, line));
    };
    device_said(alloc, before, line, method, object)
}

#[tactic(auto, unfolding(crate::specs::Methods::portal_said))]
fn portal_said<'a>(
    alloc: Global,
    before: &Reader<'a>,
    line: u64,
    method: &'a [u8],
    domain: &[u8],
    target: &[u8],
    limit: Number,
) -> Result<PortalLine, Stop>
    ensures says { OrNoMemory result (portal_said before.now line method.now domain.now target.now limit) }
    ensures key { IfOk result (λ portal. portal.method ≡ method.now) }
    ensures room { OnOk result (length before.now.config.portals < 256) }
{
    check(is_method(method), Kind::Syntax, line)?;
    check(is_method(target), Kind::Syntax, line)?;
    check(limit.is_number(), Kind::Syntax, line)?;
    check(limit.within(1, LARGEST_LIMIT), Kind::Range, line)?;
    let count = before.config().portals.len();
    check(count < MOST_PORTALS, Kind::Room, line)?;
    check(!before.is_bound(method), Kind::Twice, line)?;
    let Some(domain) = before.domain_named(domain) else {
        return Err(refusal(Kind::Unknown, line));
    };
    Ok(PortalLine {
        line,
        method: Items::from_slice(alloc, method)?,
        domain,
        target: Items::from_slice(alloc, target)?,
        limit: limit.value(),
    })
}

fn are_portal_words(domain_word: &[u8], target_word: &[u8], limit_word: &[u8]) -> bool
    ensures { result ≡ are_portal_words domain_word.now target_word.now limit_word.now }
{
    is_word(domain_word, "domain") && is_word(target_word, "target") && is_word(limit_word, "limit")
}

/// `portal METHOD domain D target METHOD limit N`
pub fn portal_line<'a>(
    alloc: Global,
    before: &Reader<'a>,
    line: u64,
    words: &[&'a [u8]],
) -> Result<PortalLine, Stop>
    ensures says { OrNoMemory result (portal_line before.now line (map (λ word. word.now) words.now)) }
    ensures key { IfOk result (λ portal. portal.method ≡ slice_index_or (map (λ word. word.now) words.now) 0 []) }
    ensures room { OnOk result (length before.now.config.portals < 256) }
{
    let [
        method,
        domain_word,
        domain,
        target_word,
        target,
        limit_word,
        limit,
    ] = words
    else {
        return Err(refusal(Kind::Syntax, line));
    };
    if !are_portal_words(domain_word, target_word, limit_word) {
        return Err(refusal(Kind::Syntax, line));
    }
    portal_said(
        alloc,
        before,
        line,
        method,
        domain,
        target,
        number_of(limit),
    )
}
