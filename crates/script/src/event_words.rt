//! The lines that tell what a run shows.

ghost use Rattle.std.specs.Prelude.{◌≡◌, ◌<◌, ◌++◌, ◌∷◌, [], if◌then◌else◌, codes, decimal, OnOk, IfOk};
ghost use Rattle.std.specs.List.{flat_map};
ghost use Rattle.osek_core.specs.Event.Text.{signed, as_int, who_text, mask_text, call_words, kind_text, place_words, event_line};
ghost use Rattle.script.specs.Names.{AreFew, event_names};
ghost use Rattle.osek_core.specs.declared.call.Call.TheVariants.{SetEvent};
ghost use Rattle.script.specs.Spaced.{spaced, is_in, first_word, other_words};

use crate::fail_kind::fail_kind_name;
use crate::names::{Names, name_at};
use kes_text::{NoMemory, append_decimal};
use osek_core::{Call, Event, FailKind, Place, Who};
use std::alloc::Global;

/// Puts a word behind the bytes, with a blank before it.
fn append_word(out: &mut Vec<u8>, word: &[u8]) -> Result<(), NoMemory>
    ensures { OnOk result (out.new.items ≡ out.old.items ++ spaced word.now) }
{
    out.extend_from_slice(b" ")?;
    out.extend_from_slice(word)
}

fn append_number(out: &mut Vec<u8>, number: u64) -> Result<(), NoMemory>
    ensures { OnOk result (out.new.items ≡ out.old.items ++ spaced (decimal number)) }
{
    out.extend_from_slice(b" ")?;
    append_decimal(out, number)
}

fn append_signed(out: &mut Vec<u8>, number: i32) -> Result<(), NoMemory>
    ensures { OnOk result (out.new.items ≡ out.old.items ++ spaced (signed number)) }
{
    if number < 0 {
        out.extend_from_slice(b" -")?;
        append_decimal(out, u64::from(number.unsigned_abs()))
    } else {
        append_number(out, u64::from(number.unsigned_abs()))
    }
}

/// A number of 32 bits as the int that it was.
fn append_int(out: &mut Vec<u8>, number: u32) -> Result<(), NoMemory>
    ensures { OnOk result (out.new.items ≡ out.old.items ++ spaced (as_int number)) }
{
    append_signed(out, number.cast_signed())
}

fn who_word<'a>(names: &'a Names, who: Who) -> &'a [u8]
    ensures { result.now ≡ who_text (event_names names.now) who }
{
    match who {
        Who::Start => b"start",
        Who::Task(task) => name_at(names.tasks.as_slice(), task),
    }
}

fn is_in(mask: u32, event: usize) -> bool
    requires { event < 32 }
    ensures { result ≡ is_in mask event }
{
    mask & (1 << event) != 0
}

/// The events of a mask, in the order of their numbers, with `+` between them.
fn append_mask(out: &mut Vec<u8>, names: &Names, mask: u32) -> Result<(), NoMemory>
    requires { AreFew names.now }
    ensures { OnOk result (out.new.items ≡ out.old.items ++ mask_text (event_names names.now) mask) }
{
    let mut is_first = true;
    for (event, name) in names.events.as_slice().iter().enumerate() {
        if is_in(mask, event) {
            append_event(out, is_first, name.as_slice())?;
            is_first = false;
        }
    }
    Ok(())
}

/// One event more.
fn append_event(out: &mut Vec<u8>, is_first: bool, name: &[u8]) -> Result<(), NoMemory>
    ensures { OnOk result (out.new.items ≡ out.old.items ++ (if is_first then name.now else 43 ∷ name.now)) }
{
    if !is_first {
        out.extend_from_slice(b"+")?;
    }
    out.extend_from_slice(name)
}

fn append_events(out: &mut Vec<u8>, names: &Names, mask: u32) -> Result<(), NoMemory>
    requires { AreFew names.now }
    ensures { OnOk result (out.new.items ≡ out.old.items ++ spaced (mask_text (event_names names.now) mask)) }
{
    out.extend_from_slice(b" ")?;
    append_mask(out, names, mask)
}

/// A service's name, and the name of the object that it is called for.
fn append_service(out: &mut Vec<u8>, service: &[u8], object: &[u8]) -> Result<(), NoMemory>
    ensures { OnOk result (out.new.items ≡ out.old.items ++ flat_map spaced (service.now ∷ object.now ∷ [])) }
{
    append_word(out, service)?;
    append_word(out, object)
}

/// A service's name, and the events of a mask.
fn append_on_events(
    out: &mut Vec<u8>,
    names: &Names,
    service: &[u8],
    mask: u32,
) -> Result<(), NoMemory>
    requires { AreFew names.now }
    ensures { OnOk result (out.new.items ≡ out.old.items ++ flat_map spaced (service.now ∷ mask_text (event_names names.now) mask ∷ [])) }
{
    append_word(out, service)?;
    append_events(out, names, mask)
}

fn append_set_event(out: &mut Vec<u8>, names: &Names, task: u32, mask: u32) -> Result<(), NoMemory>
    requires { AreFew names.now }
    ensures { OnOk result (out.new.items ≡ out.old.items ++ flat_map spaced (call_words (event_names names.now) (SetEvent task mask))) }
{
    append_service(out, b"SetEvent", name_at(names.tasks.as_slice(), task))?;
    append_events(out, names, mask)
}

/// The name of a service that sets an alarm, the alarm's, and the two numbers.
fn append_alarm(
    out: &mut Vec<u8>,
    service: &[u8],
    alarm: &[u8],
    first: u32,
    cycle: u32,
) -> Result<(), NoMemory>
    ensures { OnOk result (out.new.items ≡ out.old.items ++ flat_map spaced (service.now ∷ alarm.now ∷ as_int first ∷ as_int cycle ∷ [])) }
{
    append_service(out, service, alarm)?;
    append_int(out, first)?;
    append_int(out, cycle)
}

/// A service's name and arguments.
fn append_call(out: &mut Vec<u8>, names: &Names, call: Call) -> Result<(), NoMemory>
    requires { AreFew names.now }
    ensures { OnOk result (out.new.items ≡ out.old.items ++ flat_map spaced (call_words (event_names names.now) call)) }
{
    let tasks = names.tasks.as_slice();
    let resources = names.resources.as_slice();
    let alarms = names.alarms.as_slice();
    match call {
        Call::ActivateTask { task } => append_service(out, b"ActivateTask", name_at(tasks, task)),
        Call::TerminateTask => append_word(out, b"TerminateTask"),
        Call::ChainTask { task } => append_service(out, b"ChainTask", name_at(tasks, task)),
        Call::Schedule => append_word(out, b"Schedule"),
        Call::GetResource { resource } => {
            append_service(out, b"GetResource", name_at(resources, resource))
        }
        Call::ReleaseResource { resource } => {
            append_service(out, b"ReleaseResource", name_at(resources, resource))
        }
        Call::SetEvent { task, mask } => append_set_event(out, names, task, mask),
        Call::ClearEvent { mask } => append_on_events(out, names, b"ClearEvent", mask),
        Call::GetEvent { task } => append_service(out, b"GetEvent", name_at(tasks, task)),
        Call::WaitEvent { mask } => append_on_events(out, names, b"WaitEvent", mask),
        Call::SetRelAlarm {
            alarm,
            first,
            cycle,
        } => append_alarm(out, b"SetRelAlarm", name_at(alarms, alarm), first, cycle),
        Call::SetAbsAlarm {
            alarm,
            first,
            cycle,
        } => append_alarm(out, b"SetAbsAlarm", name_at(alarms, alarm), first, cycle),
        Call::CancelAlarm { alarm } => append_service(out, b"CancelAlarm", name_at(alarms, alarm)),
        Call::GetAlarm { alarm } => append_service(out, b"GetAlarm", name_at(alarms, alarm)),
    }
}

/// The call, and then the answer.
fn append_answered(
    out: &mut Vec<u8>,
    names: &Names,
    call: Call,
    answer: i32,
) -> Result<(), NoMemory>
    requires { AreFew names.now }
    ensures { OnOk result (out.new.items ≡ out.old.items ++ flat_map spaced (call_words (event_names names.now) call ++ signed answer ∷ [])) }
{
    append_call(out, names, call)?;
    append_signed(out, answer)
}

/// An access of the device bytes.
fn append_access(
    out: &mut Vec<u8>,
    word: &[u8],
    at: u32,
    width: u8,
    value: u64,
) -> Result<(), NoMemory>
    ensures { OnOk result (out.new.items ≡ out.old.items ++ flat_map spaced (word.now ∷ decimal at ∷ decimal width ∷ decimal value ∷ [])) }
{
    append_word(out, word)?;
    append_number(out, u64::from(at))?;
    append_number(out, u64::from(width))?;
    append_number(out, value)
}

fn append_place(out: &mut Vec<u8>, names: &Names, place: Option<Place>) -> Result<(), NoMemory>
    ensures { OnOk result (out.new.items ≡ out.old.items ++ flat_map spaced (place_words (event_names names.now) place)) }
{
    let Some(Place { method, pc }) = place else {
        return Ok(());
    };
    append_word(out, name_at(names.methods.as_slice(), method))?;
    append_number(out, u64::from(pc))
}

fn append_failure(
    out: &mut Vec<u8>,
    names: &Names,
    kind: FailKind,
    place: Option<Place>,
) -> Result<(), NoMemory>
    ensures { OnOk result (out.new.items ≡ out.old.items ++ flat_map spaced ((codes "fail" ∷ kind_text kind ∷ []) ++ place_words (event_names names.now) place)) }
{
    append_word(out, b"fail")?;
    append_word(out, fail_kind_name(kind).as_bytes())?;
    append_place(out, names, place)
}

/// The first word of an event's line.
fn first_word<'a>(names: &'a Names, event: &Event) -> &'a [u8]
    ensures { result.now ≡ first_word (event_names names.now) event.now }
{
    match *event {
        Event::Service { who, .. }
        | Event::DevRead { who, .. }
        | Event::DevWrite { who, .. }
        | Event::Fail { who, .. }
        | Event::Stuck { who } => who_word(names, who),
        Event::Lost { .. } => b"lost",
    }
}

/// The words of an event's line behind the first.
fn append_others(out: &mut Vec<u8>, names: &Names, event: &Event) -> Result<(), NoMemory>
    requires { AreFew names.now }
    ensures { OnOk result (out.new.items ≡ out.old.items ++ flat_map spaced (other_words (event_names names.now) event.now)) }
{
    match *event {
        Event::Service { call, answer, .. } => append_answered(out, names, call, answer),
        Event::DevRead {
            at,
            width,
            value,
            ..
        } => append_access(out, b"read", at, width, value),
        Event::DevWrite {
            at,
            width,
            value,
            ..
        } => append_access(out, b"write", at, width, value),
        Event::Fail { kind, place, .. } => append_failure(out, names, kind, place),
        Event::Lost { alarm } => append_word(out, name_at(names.alarms.as_slice(), alarm)),
        Event::Stuck { .. } => append_word(out, b"stuck"),
    }
}

/// The line that tells of an event, without its line feed: words with one blank between them. An object
/// without a name in `names` is shown by no bytes.
pub fn event_line(alloc: Global, event: &Event, names: &Names) -> Result<Vec<u8>, NoMemory>
    requires { AreFew names.now }
    ensures { IfOk result (λ line. line.items ≡ event_line (event_names names.now) event.now) }
{
    let mut out = Vec::from_slice(alloc, first_word(names, event))?;
    append_others(&mut out, names, event)?;
    Ok(out)
}
