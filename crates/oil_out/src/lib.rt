//! Prints the objects of an application as OIL 2.5.
#![tactic(auto)]

#[cfg(test)]
mod tests;

ghost use Rattle.std.specs.Prelude.{◌≡◌, ◌++◌, codes, decimal, flat_map, IfOk, OnOk};
ghost use Rattle.kes_text.specs.Numbered.{numbered};
ghost use Rattle.oil_out.specs.OilText.{action_text, activation_text, alarm_text, attribute, counter_name, counter_text, event_text, header, mask, name_at, oil_text, opening_text, resource_text, schedule_text, start_text, task_name, task_text};

use kes_text::{NoMemory, append_decimal};
use osek_core::{Action, AlarmRow, CounterRow, Name, Start, Tables, TaskRow};
use sqlite_items::Items;
use std::alloc::Global;

const OPENING: &str = "OIL_VERSION = \"2.5\";
#include \"keso_impl.oil\"
CPU keso {
  OS os {
    STATUS = EXTENDED;
    STARTUPHOOK = TRUE;
    ERRORHOOK = FALSE;
    SHUTDOWNHOOK = FALSE;
    PRETASKHOOK = FALSE;
    POSTTASKHOOK = FALSE;
    USEGETSERVICEID = FALSE;
    USEPARAMETERACCESS = FALSE;
    USERESSCHEDULER = FALSE;
  };
  APPMODE mode { };
";

const OBJECT_END: &[u8] = b"  };\n";

/// The OIL text of the tables: one CPU with its OS and application mode, and the objects in table order.
/// A place at which nothing stands is shown as an empty name.
pub fn print_oil(alloc: Global, tables: &Tables) -> Result<Vec<u8>, NoMemory>
    ensures { IfOk result (λ text. text.items ≡ oil_text tables.now) }
{
    let mut out = Vec::from_slice(alloc, OPENING.as_bytes())?;
    append_events(&mut out, tables.events.as_slice())?;
    append_resources(&mut out, tables.resources.as_slice())?;
    append_counters(&mut out, tables.counters.as_slice())?;
    append_tasks(&mut out, tables)?;
    append_alarms(&mut out, tables)?;
    out.extend_from_slice(b"};\n")?;
    Ok(out)
}

fn append_events(out: &mut Vec<u8>, events: &[Name]) -> Result<(), NoMemory>
    ensures { OnOk result (out.new.items ≡ out.old.items ++ numbered event_text 0 events.now) }
{
    for (place, name) in events.iter().enumerate() {
        append_event(out, place, name)?;
    }
    Ok(())
}

#[tactic(auto, unfolding(crate::specs::OilText::event_text))]
fn append_event(out: &mut Vec<u8>, place: usize, name: &Name) -> Result<(), NoMemory>
    ensures { OnOk result (out.new.items ≡ out.old.items ++ event_text place name.now) }
{
    append_header(out, "EVENT", "e_", name)?;
    append_number(out, "MASK", mask(place))?;
    out.extend_from_slice(OBJECT_END)
}

/// The bits of the event at the place.
fn mask(place: usize) -> u64
    ensures { result ≡ mask place }
{
    if place < 64 { 1 << place } else { 0 }
}

fn append_resources(out: &mut Vec<u8>, resources: &[Name]) -> Result<(), NoMemory>
    ensures { OnOk result (out.new.items ≡ out.old.items ++ flat_map resource_text resources.now) }
{
    for name in resources {
        append_resource(out, name)?;
    }
    Ok(())
}

#[tactic(auto, unfolding(crate::specs::OilText::resource_text))]
fn append_resource(out: &mut Vec<u8>, name: &Name) -> Result<(), NoMemory>
    ensures { OnOk result (out.new.items ≡ out.old.items ++ resource_text name.now) }
{
    append_header(out, "RESOURCE", "r_", name)?;
    append_word(out, "RESOURCEPROPERTY", "STANDARD")?;
    out.extend_from_slice(OBJECT_END)
}

fn append_counters(out: &mut Vec<u8>, counters: &[CounterRow]) -> Result<(), NoMemory>
    ensures { OnOk result (out.new.items ≡ out.old.items ++ flat_map counter_text counters.now) }
{
    for row in counters {
        append_counter(out, row)?;
    }
    Ok(())
}

#[tactic(auto, unfolding(crate::specs::OilText::counter_text))]
fn append_counter(out: &mut Vec<u8>, row: &CounterRow) -> Result<(), NoMemory>
    ensures { OnOk result (out.new.items ≡ out.old.items ++ counter_text row.now) }
{
    append_header(out, "COUNTER", "c_", &row.name)?;
    append_number(out, "MAXALLOWEDVALUE", u64::from(row.rule.max))?;
    append_number(out, "TICKSPERBASE", u64::from(row.rule.base))?;
    append_number(out, "MINCYCLE", u64::from(row.rule.min))?;
    out.extend_from_slice(OBJECT_END)?;
    Ok(())
}

fn append_tasks(out: &mut Vec<u8>, tables: &Tables) -> Result<(), NoMemory>
    ensures { OnOk result (out.new.items ≡ out.old.items ++ flat_map (task_text tables.now) tables.now.tasks) }
{
    for row in tables.tasks.as_slice() {
        append_task(out, tables, row)?;
    }
    Ok(())
}

#[tactic(auto, unfolding(crate::specs::OilText::task_text))]
fn append_task(out: &mut Vec<u8>, tables: &Tables, row: &TaskRow) -> Result<(), NoMemory>
    ensures { OnOk result (out.new.items ≡ out.old.items ++ task_text tables.now row.now) }
{
    append_header(out, "TASK", "t_", &row.name)?;
    append_number(out, "PRIORITY", u64::from(row.rule.priority))?;
    append_word(out, "SCHEDULE", schedule_text(row.rule.preemptable))?;
    append_number(out, "ACTIVATION", u64::from(row.rule.activations))?;
    append_word(out, "AUTOSTART", activation_text(row.auto))?;
    append_task_resources(out, tables, row.resources.as_slice())?;
    append_task_events(out, tables, row.events.as_slice())?;
    out.extend_from_slice(OBJECT_END)?;
    Ok(())
}

fn schedule_text(preemptable: bool) -> &'static str
    ensures { result.now ≡ schedule_text preemptable }
{
    if preemptable { "FULL" } else { "NON" }
}

fn activation_text(auto: bool) -> &'static str
    ensures { result.now ≡ activation_text auto }
{
    if auto {
        "TRUE { APPMODE = mode; }"
    } else {
        "FALSE"
    }
}

fn append_task_resources(
    out: &mut Vec<u8>,
    tables: &Tables,
    resources: &[u32],
) -> Result<(), NoMemory>
    ensures { OnOk result (out.new.items ≡ out.old.items
        ++ flat_map (λ k. attribute (codes "RESOURCE") (codes "r_" ++ name_at tables.now.resources k)) resources.now) }
{
    for place in resources {
        append_reference(out, "RESOURCE", "r_", name_at(&tables.resources, *place))?;
    }
    Ok(())
}

fn append_task_events(out: &mut Vec<u8>, tables: &Tables, events: &[u32]) -> Result<(), NoMemory>
    ensures { OnOk result (out.new.items ≡ out.old.items
        ++ flat_map (λ k. attribute (codes "EVENT") (codes "e_" ++ name_at tables.now.events k)) events.now) }
{
    for place in events {
        append_reference(out, "EVENT", "e_", name_at(&tables.events, *place))?;
    }
    Ok(())
}

fn append_alarms(out: &mut Vec<u8>, tables: &Tables) -> Result<(), NoMemory>
    ensures { OnOk result (out.new.items ≡ out.old.items ++ flat_map (alarm_text tables.now) tables.now.alarms) }
{
    for row in tables.alarms.as_slice() {
        append_alarm(out, tables, row)?;
    }
    Ok(())
}

#[tactic(auto, unfolding(crate::specs::OilText::alarm_text))]
fn append_alarm(out: &mut Vec<u8>, tables: &Tables, row: &AlarmRow) -> Result<(), NoMemory>
    ensures { OnOk result (out.new.items ≡ out.old.items ++ alarm_text tables.now row.now) }
{
    append_header(out, "ALARM", "a_", &row.name)?;
    append_reference(out, "COUNTER", "c_", counter_name(tables, row.counter))?;
    append_action(out, tables, row.action)?;
    append_start(out, row.start)?;
    out.extend_from_slice(OBJECT_END)
}

#[tactic(auto, unfolding(crate::specs::OilText::attribute))]
fn append_action(out: &mut Vec<u8>, tables: &Tables, action: Action) -> Result<(), NoMemory>
    ensures { OnOk result (out.new.items ≡ out.old.items ++ attribute (codes "ACTION") (action_text tables.now action)) }
{
    append_attribute_name(out, "ACTION")?;
    append_action_value(out, tables, action)?;
    out.extend_from_slice(b";\n")
}

fn append_action_value(out: &mut Vec<u8>, tables: &Tables, action: Action) -> Result<(), NoMemory>
    ensures { OnOk result (out.new.items ≡ out.old.items ++ action_text tables.now action) }
{
    match action {
        Action::Activate { task } => {
            out.extend_from_slice(b"ACTIVATETASK { TASK = t_")?;
            out.extend_from_slice(task_name(tables, task))?;
            out.extend_from_slice(b"; }")?;
            Ok(())
        }
        Action::Set { task, event } => {
            out.extend_from_slice(b"SETEVENT { TASK = t_")?;
            out.extend_from_slice(task_name(tables, task))?;
            out.extend_from_slice(b"; EVENT = e_")?;
            out.extend_from_slice(name_at(&tables.events, event))?;
            out.extend_from_slice(b"; }")?;
            Ok(())
        }
    }
}

#[tactic(auto, unfolding(crate::specs::OilText::attribute))]
fn append_start(out: &mut Vec<u8>, start: Option<Start>) -> Result<(), NoMemory>
    ensures { OnOk result (out.new.items ≡ out.old.items ++ attribute (codes "AUTOSTART") (start_text start)) }
{
    append_attribute_name(out, "AUTOSTART")?;
    append_start_value(out, start)?;
    out.extend_from_slice(b";\n")
}

fn append_start_value(out: &mut Vec<u8>, start: Option<Start>) -> Result<(), NoMemory>
    ensures { OnOk result (out.new.items ≡ out.old.items ++ start_text start) }
{
    match start {
        Some(start) => {
            out.extend_from_slice(b"TRUE { ALARMTIME = ")?;
            append_decimal(out, u64::from(start.first))?;
            out.extend_from_slice(b"; CYCLETIME = ")?;
            append_decimal(out, u64::from(start.cycle))?;
            out.extend_from_slice(b"; APPMODE = mode; }")?;
            Ok(())
        }
        None => out.extend_from_slice(b"FALSE"),
    }
}

/// The first line of an object. Its name begins with the prefix of its kind.
#[tactic(auto, unfolding(crate::specs::OilText::header))]
fn append_header(out: &mut Vec<u8>, kind: &str, prefix: &str, name: &Name) -> Result<(), NoMemory>
    ensures { OnOk result (out.new.items ≡ out.old.items ++ header kind.now (prefix.now ++ name.now.text)) }
{
    out.extend_from_slice(b"  ")?;
    out.extend_from_slice(kind.as_bytes())?;
    out.extend_from_slice(b" ")?;
    out.extend_from_slice(prefix.as_bytes())?;
    out.extend_from_slice(name.text.as_slice())?;
    out.extend_from_slice(b" {\n")
}

#[tactic(auto, unfolding(crate::specs::OilText::attribute))]
fn append_number(out: &mut Vec<u8>, name: &str, number: u64) -> Result<(), NoMemory>
    ensures { OnOk result (out.new.items ≡ out.old.items ++ attribute name.now (decimal number)) }
{
    append_attribute_name(out, name)?;
    append_decimal(out, number)?;
    out.extend_from_slice(b";\n")
}

#[tactic(auto, unfolding(crate::specs::OilText::attribute))]
fn append_word(out: &mut Vec<u8>, name: &str, word: &str) -> Result<(), NoMemory>
    ensures { OnOk result (out.new.items ≡ out.old.items ++ attribute name.now word.now) }
{
    append_attribute_name(out, name)?;
    out.extend_from_slice(word.as_bytes())?;
    out.extend_from_slice(b";\n")
}

/// An attribute whose value is the name of another object, with the prefix of its kind.
#[tactic(auto, unfolding(crate::specs::OilText::attribute))]
fn append_reference(
    out: &mut Vec<u8>,
    name: &str,
    prefix: &str,
    object: &[u8],
) -> Result<(), NoMemory>
    ensures { OnOk result (out.new.items ≡ out.old.items ++ attribute name.now (prefix.now ++ object.now)) }
{
    append_attribute_name(out, name)?;
    out.extend_from_slice(prefix.as_bytes())?;
    out.extend_from_slice(object)?;
    out.extend_from_slice(b";\n")
}

/// An attribute's line up to its value.
fn append_attribute_name(out: &mut Vec<u8>, name: &str) -> Result<(), NoMemory>
    ensures { OnOk result (out.new.items ≡ out.old.items ++ (codes "    " ++ name.now ++ codes " = ")) }
{
    out.extend_from_slice(b"    ")?;
    out.extend_from_slice(name.as_bytes())?;
    out.extend_from_slice(b" = ")
}

/// The name at the place, or nothing where none is there; so with counters and tasks.
fn name_at(names: &Items<Name>, place: u32) -> &[u8]
    ensures { result.now ≡ name_at names.now place }
{
    match names.get(place as usize) {
        Some(name) => name.text.as_slice(),
        None => b"",
    }
}

fn counter_name(tables: &Tables, place: u32) -> &[u8]
    ensures { result.now ≡ counter_name tables.now place }
{
    match tables.counters.get(place as usize) {
        Some(row) => row.name.text.as_slice(),
        None => b"",
    }
}

fn task_name(tables: &Tables, place: u32) -> &[u8]
    ensures { result.now ≡ task_name tables.now place }
{
    match tables.tasks.get(place as usize) {
        Some(row) => row.name.text.as_slice(),
        None => b"",
    }
}
