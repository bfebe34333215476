//! A frame, and what the machine above it does with it.

ghost use Rattle.std.specs.Prelude.{◌≡◌, [], length, slice_get, nat_lt, ◌≤◌, IfOk, OnOk, OnErr, OnSome, MatchResult};
ghost use Rattle.b_frame.specs.Frames.{slots_of, filled, entered, pushed, dropped, with_local, called, left_by_call};
ghost use Rattle.b_frame.specs.Values.{top_two};

use crate::operands::Operands;
use crate::values_of::is_single;
use sqlite_items::Items;
use std::alloc::{AllocError, Global};
use values::Value;

/// A frame of running bytecode (JVMS SE 8, 2.6): the values of its locals, one a slot, and its operands. A long
/// stands in its first slot; what the second holds is not looked at. Contracts see the operands from the top.
#[derive(Drop)]
pub struct Frame {
    pub locals: Items<Value>,
    pub operands: Operands,
}

/// The slots of values, each long of which takes two, with room for so many.
fn slots_of(alloc: Global, arguments: &[Value], room: usize) -> Result<Vec<Value>, AllocError>
    ensures { IfOk result (λ slots. slots.items ≡ slots_of arguments.now) }
{
    let mut slots = Vec::with_capacity(alloc, room)?;
    for value in arguments {
        slots.push(*value)?;
        if !is_single(*value) {
            slots.push(Value::Int(0))?;
        }
    }
    Ok(slots)
}

/// Slots up to so many, which are zero behind the given ones.
fn filled(max_locals: usize, slots: Vec<Value>) -> Result<Vec<Value>, AllocError>
    ensures { IfOk result (λ locals. locals.items ≡ filled max_locals slots.items) }
{
    let mut slots = slots;
    let count = slots.len();
    if count < max_locals {
        slots.resize(max_locals, Value::Int(0))?;
    }
    Ok(slots)
}

impl Frame {
    /// A frame with so many slots, each of which is zero, and room for so many operands.
    pub fn new(alloc: Global, max_locals: u16, max_stack: u16) -> Result<Frame, AllocError>
        ensures { IfOk result (λ made. made ≡ entered max_locals []) }
    {
        Frame::entered(alloc, &[], max_locals, max_stack)
    }

    /// A frame at the entry of a method with these arguments.
    pub fn entered(
        alloc: Global,
        arguments: &[Value],
        max_locals: u16,
        max_stack: u16,
    ) -> Result<Frame, AllocError>
        ensures { IfOk result (λ made. made ≡ entered max_locals arguments.now) }
    {
        let room = usize::from(max_locals);
        let slots = slots_of(alloc, arguments, room)?;
        let locals = Items::from_vec(filled(room, slots)?);
        let operands = Operands::with_room(alloc, usize::from(max_stack))?;
        Ok(Frame { locals, operands })
    }

    /// One operand more on the top; without memory the frame is as it was.
    pub fn push(&mut self, value: Value) -> Result<(), AllocError>
        ensures ok { OnOk result (self.new ≡ pushed value self.old) }
        ensures err { OnErr result (self.new ≡ self.old) }
    {
        self.operands.push(value)
    }

    /// The topmost operand, taken away.
    pub fn pop(&mut self) -> Option<Value>
        ensures value { result ≡ slice_get self.old.operands 0 }
        ensures frame { self.new ≡ dropped 1 self.old }
    {
        let top = self.operands.at(0);
        self.operands.discard(1);
        top
    }

    /// The topmost operand.
    pub fn top(&self) -> Option<Value>
        ensures { result ≡ slice_get self.now.operands 0 }
    {
        self.operands.at(0)
    }

    /// Without so many of the topmost operands; without all, where there are fewer.
    pub fn discard(&mut self, count: usize)
        ensures { self.new ≡ dropped count self.old }
    {
        self.operands.discard(count);
    }

    /// What a slot holds; None where the frame has no such slot.
    pub fn local(&self, slot: u16) -> Option<Value>
        ensures { result ≡ slice_get self.now.locals slot }
    {
        match self.locals.get(usize::from(slot)) {
            Some(held) => Some(*held),
            None => None,
        }
    }

    /// Puts a value in a slot. False, where the frame has no such slot and is as it was.
    pub fn set_local(&mut self, slot: u16, value: Value) -> bool
        ensures answer { result ≡ nat_lt slot (length self.old.locals) }
        ensures frame { self.new ≡ with_local slot value self.old }
    {
        let at = usize::from(slot);
        if at < self.locals.len() {
            self.locals.set(at, value);
            true
        } else {
            false
        }
    }

    /// The two topmost operands, the one that was pushed first as the first.
    pub fn top_two(&self) -> Option<(Value, Value)>
        ensures value { result ≡ top_two self.now.operands }
        ensures within { OnSome result (2 ≤ length self.now.operands) }
    {
        let first = self.operands.at(1)?;
        let second = self.operands.at(0)?;
        Some((first, second))
    }

    /// The frame of a call on so many of the topmost operands, in the order in which they were pushed; each long takes
    /// two slots. They are taken from this frame. None, where there are fewer; then, and without memory, this frame is
    /// as it was.
    pub fn take_arguments(
        &mut self,
        alloc: Global,
        count: usize,
        max_locals: u16,
        max_stack: u16,
    ) -> Result<Option<Frame>, AllocError>
        ensures called { IfOk result (λ made. made ≡ called count max_locals self.old) }
        ensures frame { MatchResult result (λ made. self.new ≡ left_by_call count self.old) (λ _. self.new ≡ self.old) }
    {
        let made = match self.operands.topmost(count) {
            Some(arguments) => Frame::entered(alloc, arguments, max_locals, max_stack)?,
            None => return Ok(None),
        };
        self.operands.discard(count);
        Ok(Some(made))
    }
}
