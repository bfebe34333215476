//! Calls of methods, and returns (JVMS SE 8, 6.5).

ghost use Rattle.std.specs.Prelude.{◌≡◌, ◌+◌};
ghost use Rattle.b_step.specs.declared.done.Done.TheVariants as done;
ghost use Rattle.b_step.specs.Executed.{done_of};
ghost use Rattle.b_step.specs.Known.{IsQuiet};
ghost use Rattle.b_step.specs.Calls.{special_call, selected, class_at, virtual_of, virtual_call, interface_of, interface_call, answer};

use crate::domain::Domain;
use crate::done::Done;
use b_frame::Frame;
use b_heap::{Fields, Kind};
use jnames::MethodKey;
use jworld::{ClassId, MethodId, World};
use osek_core::FailKind;
use values::Value;

/// A call of a method of a receiver, which lies below so many operands.
fn called(method: MethodId, parameters: u32) -> Done
    ensures ends { result ≡ done.Call method (parameters + 1) }
    ensures quiet { IsQuiet result }
{
    Done::Call {
        method,
        count: parameters as usize + 1,
    }
}

pub fn special_call(frame: &Frame, method: MethodId, parameters: u32) -> Done
    ensures ends { result ≡ done_of (special_call frame.now method parameters) }
    ensures quiet { IsQuiet result }
{
    match frame.operands.at(parameters as usize) {
        Some(Value::Null) => Done::Fails(FailKind::Null),
        Some(Value::Object(_)) => called(method, parameters),
        _ => Done::Undefined,
    }
}

/// The method that a class selects.
fn selected(world: &World<'_>, key: &MethodKey, parameters: u32, class: ClassId) -> Done
    ensures ends { result ≡ done_of (selected world.now key.now parameters class) }
    ensures quiet { IsQuiet result }
{
    match world.select(class, key) {
        Some(method) => called(method, parameters),
        None => Done::Undefined,
    }
}

/// The class of an instance.
fn class_at(domain: &Domain, place: u32) -> Option<ClassId>
    ensures { result ≡ class_at domain.now place }
{
    match domain.heap.kind(place) {
        Some(Kind::Instance(class)) => Some(*class),
        _ => None,
    }
}

fn virtual_of(
    world: &World<'_>,
    domain: &Domain,
    key: &MethodKey,
    parameters: u32,
    place: u32,
) -> Done
    ensures ends { result ≡ done_of (virtual_of world.now domain.now key.now parameters place) }
    ensures quiet { IsQuiet result }
{
    match class_at(domain, place) {
        Some(class) => selected(world, key, parameters, class),
        None => Done::Undefined,
    }
}

pub fn virtual_call(
    fields: &Fields<'_>,
    domain: &Domain,
    frame: &Frame,
    key: &MethodKey,
    parameters: u32,
) -> Done
    ensures ends { result ≡ done_of (virtual_call fields.now domain.now frame.now key.now parameters) }
    ensures quiet { IsQuiet result }
{
    match frame.operands.at(parameters as usize) {
        Some(Value::Null) => Done::Fails(FailKind::Null),
        Some(Value::Object(place)) => virtual_of(fields.world(), domain, key, parameters, place),
        _ => Done::Undefined,
    }
}

fn interface_of(
    world: &World<'_>,
    domain: &Domain,
    interface: ClassId,
    key: &MethodKey,
    parameters: u32,
    place: u32,
) -> Done
    ensures ends { result ≡ done_of (interface_of world.now domain.now interface key.now parameters place) }
    ensures quiet { IsQuiet result }
{
    match class_at(domain, place) {
        Some(class) if world.is_above(class, interface) => selected(world, key, parameters, class),
        _ => Done::Fails(FailKind::Interface),
    }
}

pub fn interface_call(
    fields: &Fields<'_>,
    domain: &Domain,
    frame: &Frame,
    interface: ClassId,
    key: &MethodKey,
    parameters: u32,
) -> Done
    ensures ends { result ≡ done_of (interface_call fields.now domain.now frame.now interface key.now parameters) }
    ensures quiet { IsQuiet result }
{
    match frame.operands.at(parameters as usize) {
        Some(Value::Null) => Done::Fails(FailKind::Null),
        Some(Value::Object(place)) => {
            interface_of(fields.world(), domain, interface, key, parameters, place)
        }
        _ => Done::Undefined,
    }
}

pub fn answer(frame: &Frame) -> Done
    ensures ends { result ≡ done_of (answer frame.now) }
    ensures quiet { IsQuiet result }
{
    match frame.top() {
        Some(value) => Done::Leave(Some(value)),
        None => Done::Undefined,
    }
}
