//! pop, dup and swap and their forms (JVMS SE 8, 6.5).

ghost use Rattle.std.specs.Prelude.{◌≡◌, ◌<◌, ◌≤◌, ◌+◌, length, OnErr, OnOk, IfOk, IfSome, OnSome};
ghost use Rattle.b_frame.specs.Stepped.{Shows};
ghost use Rattle.b_frame.specs.StackForms.{single_at, pair_size, size, group_dropped, once_more, duplicated, duplicated_under, swapped, stack_form};

use crate::frame::Frame;
use crate::group::Group;
use crate::operands::Operands;
use crate::outcome::Outcome;
use crate::values_of::is_single;
use jcode::Op;
use std::alloc::AllocError;
use values::Value;

/// The operand with so many above it, if it is no long.
fn single_at(operands: &Operands, depth: usize) -> Option<Value>
    ensures value { result ≡ single_at operands.now depth }
    ensures within { OnSome result (depth < length operands.now) }
{
    let value = operands.at(depth)?;
    if is_single(value) { Some(value) } else { None }
}

/// How many operands the group of two places with this top has, below so many others.
fn pair_size(operands: &Operands, depth: usize, value: Value) -> Option<usize>
    requires reach { depth ≤ 2 }
    requires there { depth < length operands.now }
    ensures value { result ≡ pair_size operands.now depth value }
    ensures within { IfSome result (λ count. (0 < count) × (count ≤ 2) × (depth + count ≤ length operands.now)) }
{
    if is_single(value) {
        let _ = single_at(operands, depth + 1)?;
        Some(2)
    } else {
        Some(1)
    }
}

/// How many operands a group has, below so many others.
fn size(group: Group, operands: &Operands, depth: usize) -> Option<usize>
    requires { depth ≤ 2 }
    ensures value { result ≡ size group operands.now depth }
    ensures within { IfSome result (λ count. (0 < count) × (count ≤ 2) × (depth + count ≤ length operands.now)) }
{
    match group {
        Group::One => {
            let _ = single_at(operands, depth)?;
            Some(1)
        }
        Group::Pair => {
            let value = operands.at(depth)?;
            pair_size(operands, depth, value)
        }
    }
}

fn group_dropped(group: Group, frame: &mut Frame) -> Outcome
    ensures { Shows (group_dropped group frame.old) frame.old result frame.new }
{
    match size(group, &frame.operands, 0) {
        Some(count) => {
            frame.discard(count);
            Outcome::Next
        }
        None => Outcome::Undefined,
    }
}

/// The topmost operands of a number, one or two, once more below a larger number of the topmost.
fn once_more(operands: &mut Operands, count: usize, depth: usize) -> Result<(), AllocError>
    requires some { 0 < count }
    requires few { count ≤ 2 }
    requires within { depth ≤ length operands.old }
    requires below { count ≤ depth }
    ensures ok { OnOk result (operands.new ≡ once_more count depth operands.old) }
    ensures err { OnErr result (operands.new ≡ operands.old) }
{
    let Some(top) = operands.at(0) else {
        unreachable!();
    };
    if count == 1 {
        return operands.insert(depth, top);
    }
    let Some(below) = operands.at(1) else {
        unreachable!();
    };
    operands.insert_two(depth, top, below)
}

/// The topmost group once more.
fn duplicated(group: Group, frame: &mut Frame) -> Result<Outcome, AllocError>
    ensures step { IfOk result (λ outcome. Shows (duplicated group frame.old) frame.old outcome frame.new) }
    ensures err { OnErr result (frame.new ≡ frame.old) }
{
    let Some(count) = size(group, &frame.operands, 0) else {
        return Ok(Outcome::Undefined);
    };
    once_more(&mut frame.operands, count, count)?;
    Ok(Outcome::Next)
}

/// The topmost group once more, below the group under it.
fn duplicated_under(group: Group, under: Group, frame: &mut Frame) -> Result<Outcome, AllocError>
    ensures step { IfOk result (λ outcome. Shows (duplicated_under group under frame.old) frame.old outcome frame.new) }
    ensures err { OnErr result (frame.new ≡ frame.old) }
{
    let Some(count) = size(group, &frame.operands, 0) else {
        return Ok(Outcome::Undefined);
    };
    let Some(below) = size(under, &frame.operands, count) else {
        return Ok(Outcome::Undefined);
    };
    once_more(&mut frame.operands, count, count + below)?;
    Ok(Outcome::Next)
}

fn swapped(frame: &mut Frame) -> Outcome
    ensures { Shows (swapped frame.old) frame.old result frame.new }
{
    let Some(top) = single_at(&frame.operands, 0) else {
        return Outcome::Undefined;
    };
    let Some(below) = single_at(&frame.operands, 1) else {
        return Outcome::Undefined;
    };
    frame.operands.replace_two(below, top);
    Outcome::Next
}

/// pop, dup and swap and their forms; other operations have no meaning here.
pub fn stack_form(frame: &mut Frame, op: &Op) -> Result<Outcome, AllocError>
    ensures step { IfOk result (λ outcome. Shows (stack_form op.now frame.old) frame.old outcome frame.new) }
    ensures err { OnErr result (frame.new ≡ frame.old) }
{
    match op {
        Op::Pop => Ok(group_dropped(Group::One, frame)),
        Op::Pop2 => Ok(group_dropped(Group::Pair, frame)),
        Op::Dup => duplicated(Group::One, frame),
        Op::DupX1 => duplicated_under(Group::One, Group::One, frame),
        Op::DupX2 => duplicated_under(Group::One, Group::Pair, frame),
        Op::Dup2 => duplicated(Group::Pair, frame),
        Op::Dup2X1 => duplicated_under(Group::Pair, Group::One, frame),
        Op::Dup2X2 => duplicated_under(Group::Pair, Group::Pair, frame),
        Op::Swap => Ok(swapped(frame)),
        _ => Ok(Outcome::Undefined),
    }
}
