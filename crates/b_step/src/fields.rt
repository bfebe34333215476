//! getstatic, putstatic, getfield and putfield (JVMS SE 8, 6.5).

ghost use Rattle.std.specs.Prelude.{◌<◌, length, IfOk};
ghost use Rattle.b_step.specs.Executed.{Leaves, Shows};
ghost use Rattle.b_step.specs.Known.{IsQuiet};
ghost use Rattle.b_step.specs.Fields.{get_static, put_static, get_field_of, get_field, put_field_of, put_field};

use crate::domain::Domain;
use crate::done::Done;
use b_frame::Frame;
use b_heap::Fields;
use jworld::FieldId;
use kes_text::NoMemory;
use osek_core::FailKind;
use values::Value;

pub fn get_static(
    fields: &Fields<'_>,
    domain: &Domain,
    frame: &mut Frame,
    field: FieldId,
) -> Result<Done, NoMemory>
    ensures shows { Shows (get_static fields.now domain.now frame.old field) frame.old domain.now result frame.new domain.now }
    ensures quiet { IfOk result IsQuiet }
{
    let Some(value) = domain.statics.get(fields, field) else {
        return Ok(Done::Undefined);
    };
    frame.push(value)?;
    Ok(Done::Next)
}

pub fn put_static(
    fields: &Fields<'_>,
    domain: &mut Domain,
    frame: &mut Frame,
    field: FieldId,
) -> Done
    ensures leaves { Leaves (put_static fields.now domain.old frame.old field) frame.old domain.old result frame.new domain.new }
    ensures quiet { IsQuiet result }
{
    let Some(value) = frame.top() else {
        return Done::Undefined;
    };
    match domain.statics.set(fields, field, value) {
        Some(()) => {
            frame.discard(1);
            Done::Next
        }
        None => Done::Undefined,
    }
}

fn get_field_of(
    fields: &Fields<'_>,
    domain: &Domain,
    frame: &mut Frame,
    field: FieldId,
    place: u32,
) -> Done
    requires { 0 < length frame.old.operands }
    ensures leaves { Leaves (get_field_of fields.now domain.now frame.old field place) frame.old domain.now result frame.new domain.now }
    ensures quiet { IsQuiet result }
{
    match domain.heap.get_field(fields, place, field) {
        Some(value) => {
            frame.operands.replace(1, value);
            Done::Next
        }
        None => Done::Undefined,
    }
}

pub fn get_field(fields: &Fields<'_>, domain: &Domain, frame: &mut Frame, field: FieldId) -> Done
    ensures leaves { Leaves (get_field fields.now domain.now frame.old field) frame.old domain.now result frame.new domain.now }
    ensures quiet { IsQuiet result }
{
    match frame.operands.at(0) {
        Some(Value::Null) => Done::Fails(FailKind::Null),
        Some(Value::Object(place)) => get_field_of(fields, domain, frame, field, place),
        _ => Done::Undefined,
    }
}

fn put_field_of(
    fields: &Fields<'_>,
    domain: &mut Domain,
    frame: &mut Frame,
    field: FieldId,
    place: u32,
) -> Done
    ensures leaves { Leaves (put_field_of fields.now domain.old frame.old field place) frame.old domain.old result frame.new domain.new }
    ensures quiet { IsQuiet result }
{
    let Some(value) = frame.top() else {
        return Done::Undefined;
    };
    match domain.heap.set_field(fields, place, field, value) {
        Some(()) => {
            frame.discard(2);
            Done::Next
        }
        None => Done::Undefined,
    }
}

pub fn put_field(
    fields: &Fields<'_>,
    domain: &mut Domain,
    frame: &mut Frame,
    field: FieldId,
) -> Done
    ensures leaves { Leaves (put_field fields.now domain.old frame.old field) frame.old domain.old result frame.new domain.new }
    ensures quiet { IsQuiet result }
{
    match frame.operands.at(1) {
        Some(Value::Null) => Done::Fails(FailKind::Null),
        Some(Value::Object(place)) => put_field_of(fields, domain, frame, field, place),
        _ => Done::Undefined,
    }
}
