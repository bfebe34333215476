//! new, newarray, anewarray, athrow, checkcast and instanceof (JVMS SE 8, 6.5).

ghost use Rattle.std.specs.Prelude.{◌≡◌, ◌<◌, length, IfOk};
ghost use Rattle.b_step.specs.Executed.{Leaves, Shows};
ghost use Rattle.b_step.specs.Known.{IsQuiet};
ghost use Rattle.b_step.specs.Objects.{new_object, new_array_of, new_array, throw, check_cast, test, tested, instance_of_type};

use crate::domain::Domain;
use crate::done::Done;
use crate::receivers::int_of;
use b_frame::Frame;
use b_heap::{Fields, HeapFail, is_instance};
use jnames::Param;
use jworld::ClassId;
use kes_text::NoMemory;
use osek_core::FailKind;
use std::alloc::{AllocError, Global};
use values::Value;

/// Makes an object on the heap. A 0 stands on the values while it is made, so that there is room for its reference.
pub fn new_object(
    alloc: Global,
    fields: &Fields<'_>,
    domain: &mut Domain,
    frame: &mut Frame,
    class: ClassId,
) -> Result<Done, NoMemory>
    ensures shows { Shows (new_object fields.now domain.old frame.old class) frame.old domain.old result frame.new domain.new }
    ensures quiet { IfOk result IsQuiet }
{
    frame.push(Value::Int(0))?;
    match domain.heap.object(alloc, fields, class) {
        Ok(place) => {
            frame.operands.replace(1, Value::Object(place));
            Ok(Done::Next)
        }
        Err(HeapFail::HeapFull) => {
            frame.discard(1);
            Ok(Done::Fails(FailKind::HeapFull))
        }
        Err(HeapFail::NoMemory) => {
            frame.discard(1);
            Err(AllocError)
        }
    }
}

fn new_array_of(
    alloc: Global,
    domain: &mut Domain,
    frame: &mut Frame,
    element: &Param,
    count: i32,
) -> Result<Done, NoMemory>
    requires { 0 < length frame.old.operands }
    ensures shows { Shows (new_array_of domain.old frame.old element.now count) frame.old domain.old result frame.new domain.new }
    ensures quiet { IfOk result IsQuiet }
{
    if count < 0 {
        return Ok(Done::Fails(FailKind::NegativeSize));
    }
    match domain.heap.array(alloc, element, count.unsigned_abs()) {
        Ok(place) => {
            frame.operands.replace(1, Value::Object(place));
            Ok(Done::Next)
        }
        Err(HeapFail::HeapFull) => Ok(Done::Fails(FailKind::HeapFull)),
        Err(HeapFail::NoMemory) => Err(AllocError),
    }
}

pub fn new_array(
    alloc: Global,
    domain: &mut Domain,
    frame: &mut Frame,
    element: &Param,
) -> Result<Done, NoMemory>
    ensures shows { Shows (new_array domain.old frame.old element.now) frame.old domain.old result frame.new domain.new }
    ensures quiet { IfOk result IsQuiet }
{
    match frame.operands.at(0) {
        Some(Value::Int(count)) => new_array_of(alloc, domain, frame, element, count),
        _ => Ok(Done::Undefined),
    }
}

pub fn throw(domain: &Domain, frame: &Frame) -> Done
    ensures leaves { Leaves (throw frame.now) frame.now domain.now result frame.now domain.now }
    ensures quiet { IsQuiet result }
{
    match frame.top() {
        Some(Value::Null) => Done::Fails(FailKind::Null),
        Some(Value::Object(_)) => Done::Fails(FailKind::Thrown),
        _ => Done::Undefined,
    }
}

pub fn check_cast(fields: &Fields<'_>, domain: &Domain, frame: &Frame, target: &[u8]) -> Done
    ensures leaves { Leaves (check_cast fields.now domain.now frame.now target.now) frame.now domain.now result frame.now domain.now }
    ensures quiet { IsQuiet result }
{
    match frame.top() {
        Some(Value::Null) => Done::Next,
        Some(Value::Object(place)) => {
            if is_instance(fields.world(), &domain.heap, place, target) {
                Done::Next
            } else {
                Done::Fails(FailKind::Cast)
            }
        }
        _ => Done::Undefined,
    }
}

/// Whether a value is an instance of a type: 1 or 0.
fn test(fields: &Fields<'_>, domain: &Domain, target: &[u8], value: Value) -> Option<i32>
    ensures { result ≡ test fields.now domain.now target.now value }
{
    match value {
        Value::Null => Some(0),
        Value::Object(place) => {
            let is = is_instance(fields.world(), &domain.heap, place, target);
            Some(if is { 1 } else { 0 })
        }
        _ => None,
    }
}

fn tested(
    fields: &Fields<'_>,
    domain: &Domain,
    frame: &mut Frame,
    target: &[u8],
    value: Value,
) -> Done
    requires { 0 < length frame.old.operands }
    ensures leaves { Leaves (tested fields.now domain.now frame.old target.now value) frame.old domain.now result frame.new domain.now }
    ensures quiet { IsQuiet result }
{
    match test(fields, domain, target, value) {
        Some(answer) => {
            frame.operands.replace(1, Value::Int(answer));
            Done::Next
        }
        None => Done::Undefined,
    }
}

pub fn instance_of_type(
    fields: &Fields<'_>,
    domain: &Domain,
    frame: &mut Frame,
    target: &[u8],
) -> Done
    ensures leaves { Leaves (instance_of_type fields.now domain.now frame.old target.now) frame.old domain.now result frame.new domain.now }
    ensures quiet { IsQuiet result }
{
    match frame.operands.at(0) {
        Some(value) => tested(fields, domain, frame, target, value),
        None => Done::Undefined,
    }
}
