//! Prints a service with its arguments.

ghost use Rattle.std.specs.Prelude.{◌≡◌, ◌++◌, codes, OnOk};
ghost use Rattle.csubset.specs.Text.Names.{alarm_name, event_name, task_name};
ghost use Rattle.csubset.specs.Text.Expressions.{atom_text};
ghost use Rattle.csubset.specs.Text.Services.{mask_text, service_text};

use crate::expression::append_atom;
use csubset::{Atom, CService};
use kes_text::NoMemory;
use sqlite_items::Items;

pub fn append_service(out: &mut Vec<u8>, service: &CService) -> Result<(), NoMemory>
    ensures { OnOk result (out.new.items ≡ out.old.items ++ service_text service.now) }
{
    match service {
        CService::ActivateTask { task } => append_call(out, b"K_ActivateTask(t_", task),
        CService::TerminateTask => out.extend_from_slice(b"K_TerminateTask()"),
        CService::ChainTask { task } => append_call(out, b"K_ChainTask(t_", task),
        CService::Schedule => out.extend_from_slice(b"K_Schedule()"),
        CService::GetResource { resource } => append_call(out, b"K_GetResource(r_", resource),
        CService::ReleaseResource { resource } => {
            append_call(out, b"K_ReleaseResource(r_", resource)
        }
        CService::SetEvent { task, events } => append_set_event(out, task, events),
        CService::ClearEvent { events } => append_last_mask(out, b"K_ClearEvent(", events),
        CService::GetEvent { task } => append_call(out, b"K_GetEvent(t_", task),
        CService::WaitEvent { events } => append_last_mask(out, b"K_WaitEvent(", events),
        CService::SetRelAlarm {
            alarm,
            first,
            cycle,
        } => { append_alarm_start(out, b"K_SetRelAlarm(a_", alarm, first, cycle) }
        CService::SetAbsAlarm {
            alarm,
            first,
            cycle,
        } => { append_alarm_start(out, b"K_SetAbsAlarm(a_", alarm, first, cycle) }
        CService::CancelAlarm { alarm } => append_call(out, b"K_CancelAlarm(a_", alarm),
        CService::GetAlarm { alarm } => append_call(out, b"K_GetAlarm(a_", alarm),
    }
}

/// A call of a service of one object. `opening` is the call up to the object's name.
fn append_call(out: &mut Vec<u8>, opening: &[u8], name: &Items<u8>) -> Result<(), NoMemory>
    ensures { OnOk result (
        out.new.items ≡ out.old.items ++ (opening.now ++ name.now ++ codes ")")) }
{
    append_opening(out, opening, name)?;
    out.extend_from_slice(b")")
}

fn append_opening(out: &mut Vec<u8>, opening: &[u8], name: &Items<u8>) -> Result<(), NoMemory>
    ensures { OnOk result (out.new.items ≡ out.old.items ++ (opening.now ++ name.now)) }
{
    out.extend_from_slice(opening)?;
    out.extend_from_slice(name.as_slice())
}

/// The mask behind `before`, and the end of the call.
fn append_last_mask(
    out: &mut Vec<u8>,
    before: &[u8],
    events: &Items<Items<u8>>,
) -> Result<(), NoMemory>
    ensures { OnOk result (
        out.new.items ≡ out.old.items ++ (before.now ++ mask_text events.now ++ codes ")")) }
{
    out.extend_from_slice(before)?;
    append_mask(out, events.as_slice())?;
    out.extend_from_slice(b")")
}

fn append_set_event(
    out: &mut Vec<u8>,
    task: &Items<u8>,
    events: &Items<Items<u8>>,
) -> Result<(), NoMemory>
    ensures { OnOk result (
        out.new.items ≡ out.old.items ++ service_text (CService.SetEvent task.now events.now)) }
{
    append_opening(out, b"K_SetEvent(t_", task)?;
    append_last_mask(out, b", ", events)
}

/// A call that starts an alarm. `opening` is the call up to the alarm's name.
fn append_alarm_start(
    out: &mut Vec<u8>,
    opening: &[u8],
    alarm: &Items<u8>,
    first: &Atom,
    cycle: &Atom,
) -> Result<(), NoMemory>
    ensures { OnOk result (
        out.new.items ≡ out.old.items
        ++ (opening.now ++ alarm.now ++ codes ", " ++ atom_text first.now ++ codes ", "
        ++ atom_text cycle.now ++ codes ")")) }
{
    append_opening(out, opening, alarm)?;
    out.extend_from_slice(b", ")?;
    append_atom(out, first)?;
    out.extend_from_slice(b", ")?;
    append_atom(out, cycle)?;
    out.extend_from_slice(b")")
}

/// The events' names, with bars between them.
fn append_mask(out: &mut Vec<u8>, events: &[Items<u8>]) -> Result<(), NoMemory>
    ensures { OnOk result (out.new.items ≡ out.old.items ++ mask_text events.now) }
{
    let Some((first, others)) = events.split_first() else {
        return Ok(());
    };
    append_event(out, first)?;
    for event in others {
        out.extend_from_slice(b" | ")?;
        append_event(out, event)?;
    }
    Ok(())
}

fn append_event(out: &mut Vec<u8>, event: &Items<u8>) -> Result<(), NoMemory>
    ensures { OnOk result (out.new.items ≡ out.old.items ++ event_name event.now) }
{
    out.extend_from_slice(b"e_")?;
    out.extend_from_slice(event.as_slice())
}
