//! The instructions on arrays (JVMS SE 8, 6.5).

ghost use Rattle.std.specs.Prelude.{◌≡◌, ◌<◌, length};
ghost use Rattle.b_step.specs.Executed.{Leaves};
ghost use Rattle.b_step.specs.Known.{IsQuiet};
ghost use Rattle.b_step.specs.Arrays.{array_length_of, array_length, index_at, load_of, array_load, stored, holds, store_at, store_of, array_store};

use crate::domain::Domain;
use crate::done::Done;
use crate::receivers::{index_in, int_of};
use b_frame::Frame;
use b_heap::{Fields, Heap, may_hold};
use osek_core::FailKind;
use values::Value;

fn array_length_of(domain: &Domain, frame: &mut Frame, place: u32) -> Done
    requires { 0 < length frame.old.operands }
    ensures leaves { Leaves (array_length_of domain.now frame.old place) frame.old domain.now result frame.new domain.now }
    ensures quiet { IsQuiet result }
{
    match domain.heap.length(place) {
        Some(length) => {
            frame.operands.replace(1, Value::Int(length as i32));
            Done::Next
        }
        None => Done::Undefined,
    }
}

pub fn array_length(domain: &Domain, frame: &mut Frame) -> Done
    ensures leaves { Leaves (array_length domain.now frame.old) frame.old domain.now result frame.new domain.now }
    ensures quiet { IsQuiet result }
{
    match frame.operands.at(0) {
        Some(Value::Null) => Done::Fails(FailKind::Null),
        Some(Value::Object(place)) => array_length_of(domain, frame, place),
        _ => Done::Undefined,
    }
}

/// The index that the operand with so many above it is, if the array has it.
fn index_at(heap: &Heap, frame: &Frame, depth: usize, array: u32) -> Option<Option<u32>>
    ensures { result ≡ index_at heap.now frame.now depth array }
{
    let length = heap.length(array)?;
    let operand = frame.operands.at(depth)?;
    let index = int_of(operand)?;
    Some(index_in(length, index))
}

fn load_of(domain: &Domain, frame: &mut Frame, place: u32) -> Done
    requires { 1 < length frame.old.operands }
    ensures leaves { Leaves (load_of domain.now frame.old place) frame.old domain.now result frame.new domain.now }
    ensures quiet { IsQuiet result }
{
    let Some(found) = index_at(&domain.heap, frame, 0, place) else {
        return Done::Undefined;
    };
    let Some(index) = found else {
        return Done::Fails(FailKind::Bounds);
    };
    match domain.heap.get_item(place, index) {
        Some(value) => {
            frame.operands.replace(2, value);
            Done::Next
        }
        None => Done::Undefined,
    }
}

pub fn array_load(domain: &Domain, frame: &mut Frame) -> Done
    ensures leaves { Leaves (array_load domain.now frame.old) frame.old domain.now result frame.new domain.now }
    ensures quiet { IsQuiet result }
{
    match frame.operands.at(1) {
        Some(Value::Null) => Done::Fails(FailKind::Null),
        Some(Value::Object(place)) => load_of(domain, frame, place),
        _ => Done::Undefined,
    }
}

fn stored(domain: &mut Domain, frame: &mut Frame, place: u32, index: u32, value: Value) -> Done
    ensures leaves { Leaves (stored domain.old frame.old place index value) frame.old domain.old result frame.new domain.new }
    ensures quiet { IsQuiet result }
{
    match domain.heap.set_item(place, index, value) {
        Some(()) => {
            frame.discard(3);
            Done::Next
        }
        None => Done::Undefined,
    }
}

/// Whether an array of references, or of numbers, takes a value.
fn holds(fields: &Fields<'_>, domain: &Domain, references: bool, place: u32, value: Value) -> bool
    ensures { result ≡ holds fields.now domain.now references place value }
{
    !references || may_hold(fields.world(), &domain.heap, place, value)
}

fn store_at(
    fields: &Fields<'_>,
    domain: &mut Domain,
    frame: &mut Frame,
    references: bool,
    place: u32,
    index: u32,
) -> Done
    ensures leaves { Leaves (store_at fields.now domain.old frame.old references place index) frame.old domain.old result frame.new domain.new }
    ensures quiet { IsQuiet result }
{
    let Some(value) = frame.top() else {
        return Done::Undefined;
    };
    if holds(fields, domain, references, place, value) {
        stored(domain, frame, place, index, value)
    } else {
        Done::Fails(FailKind::Store)
    }
}

fn store_of(
    fields: &Fields<'_>,
    domain: &mut Domain,
    frame: &mut Frame,
    references: bool,
    place: u32,
) -> Done
    ensures leaves { Leaves (store_of fields.now domain.old frame.old references place) frame.old domain.old result frame.new domain.new }
    ensures quiet { IsQuiet result }
{
    match index_at(&domain.heap, frame, 1, place) {
        Some(Some(index)) => store_at(fields, domain, frame, references, place, index),
        Some(None) => Done::Fails(FailKind::Bounds),
        None => Done::Undefined,
    }
}

pub fn array_store(
    fields: &Fields<'_>,
    domain: &mut Domain,
    frame: &mut Frame,
    references: bool,
) -> Done
    ensures leaves { Leaves (array_store fields.now domain.old frame.old references) frame.old domain.old result frame.new domain.new }
    ensures quiet { IsQuiet result }
{
    match frame.operands.at(2) {
        Some(Value::Null) => Done::Fails(FailKind::Null),
        Some(Value::Object(place)) => store_of(fields, domain, frame, references, place),
        _ => Done::Undefined,
    }
}
