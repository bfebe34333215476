//! nop, constants, loads, stores and iinc (JVMS SE 8, 6.5).

ghost use Rattle.std.specs.Prelude.{◌≡◌, OnErr, IfOk};
ghost use Rattle.b_frame.specs.Stepped.{Shows};
ghost use Rattle.b_frame.specs.LoadsAndStores.{loaded, stored, increased, increment, load_or_store};

use crate::frame::Frame;
use crate::outcome::Outcome;
use crate::values_of::{as_int, as_long, as_reference};
use jcode::Op;
use std::alloc::AllocError;
use values::Value;

/// A value, if it is there, comes on the top.
fn loaded(found: Option<Value>, frame: &mut Frame) -> Result<Outcome, AllocError>
    ensures step { IfOk result (λ outcome. Shows (loaded found frame.old) frame.old outcome frame.new) }
    ensures err { OnErr result (frame.new ≡ frame.old) }
{
    match found {
        Some(value) => {
            frame.push(value)?;
            Ok(Outcome::Next)
        }
        None => Ok(Outcome::Undefined),
    }
}

/// The top, if it is such a value, goes to a slot.
fn stored(slot: u16, found: Option<Value>, frame: &mut Frame) -> Outcome
    ensures { Shows (stored slot found frame.old) frame.old result frame.new }
{
    match found {
        Some(value) => {
            if frame.set_local(slot, value) {
                frame.discard(1);
                Outcome::Next
            } else {
                Outcome::Undefined
            }
        }
        None => Outcome::Undefined,
    }
}

/// An int in a slot, and a number more.
fn increased(by: i16, value: Value) -> Option<Value>
    ensures { result ≡ increased by value }
{
    match value {
        Value::Int(number) => Some(Value::Int(number.wrapping_add(i32::from(by)))),
        _ => None,
    }
}

fn increment(slot: u16, by: i16, frame: &mut Frame) -> Outcome
    ensures { Shows (increment slot by frame.old) frame.old result frame.new }
{
    let Some(held) = frame.local(slot) else {
        return Outcome::Undefined;
    };
    let Some(value) = increased(by, held) else {
        return Outcome::Undefined;
    };
    frame.set_local(slot, value);
    Outcome::Next
}

/// nop, constants, loads, stores and iinc; other operations have no meaning here.
pub fn load_or_store(frame: &mut Frame, op: &Op) -> Result<Outcome, AllocError>
    ensures step { IfOk result (λ outcome. Shows (load_or_store op.now frame.old) frame.old outcome frame.new) }
    ensures err { OnErr result (frame.new ≡ frame.old) }
{
    match op {
        Op::Nop => Ok(Outcome::Next),
        Op::Null => loaded(Some(Value::Null), frame),
        Op::Const4 { value } => loaded(Some(Value::Int(*value)), frame),
        Op::Const8 { value } => loaded(Some(Value::Long(*value)), frame),
        Op::LoadI { slot } => loaded(as_int(frame.local(*slot)), frame),
        Op::LoadL { slot } => loaded(as_long(frame.local(*slot)), frame),
        Op::LoadA { slot } => loaded(as_reference(frame.local(*slot)), frame),
        Op::StoreI { slot } => Ok(stored(*slot, as_int(frame.top()), frame)),
        Op::StoreL { slot } => Ok(stored(*slot, as_long(frame.top()), frame)),
        Op::StoreA { slot } => Ok(stored(*slot, as_reference(frame.top()), frame)),
        Op::Inc { slot, by } => Ok(increment(*slot, *by, frame)),
        _ => Ok(Outcome::Undefined),
    }
}
