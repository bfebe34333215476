//! Branches, goto and the switches (JVMS SE 8, 6.5).

ghost use Rattle.std.specs.Prelude.{◌≡◌};
ghost use Rattle.b_frame.specs.Stepped.{Shows};
ghost use Rattle.b_frame.specs.Jumps.{branched, target, int_target, switched, jump};

use crate::conditions::{both_tested, null_tested, same_tested, tested, wanted};
use crate::frame::Frame;
use crate::outcome::Outcome;
use jcode::Op;
use values::Value;

/// Takes so many operands, and jumps if the condition holds.
fn branched(count: usize, condition: Option<bool>, to: u16, frame: &mut Frame) -> Outcome
    ensures { Shows (branched count condition to frame.old) frame.old result frame.new }
{
    match condition {
        Some(taken) => {
            frame.discard(count);
            if taken {
                Outcome::Jump(to)
            } else {
                Outcome::Next
            }
        }
        None => Outcome::Undefined,
    }
}

/// Where a switch goes with this key.
fn target(cases: &[(i32, u16)], other: u16, key: i32) -> u16
    ensures { result ≡ target cases.now other key }
{
    for (case, to) in cases {
        if *case == key {
            return *to;
        }
    }
    other
}

fn int_target(cases: &[(i32, u16)], other: u16, top: Option<Value>) -> Option<u16>
    ensures { result ≡ int_target cases.now other top }
{
    match top? {
        Value::Int(key) => Some(target(cases, other, key)),
        _ => None,
    }
}

fn switched(place: Option<u16>, frame: &mut Frame) -> Outcome
    ensures { Shows (switched place frame.old) frame.old result frame.new }
{
    match place {
        Some(to) => {
            frame.discard(1);
            Outcome::Jump(to)
        }
        None => Outcome::Undefined,
    }
}

/// Branches, goto and the switches; other operations have no meaning here.
pub fn jump(frame: &mut Frame, op: &Op) -> Outcome
    ensures { Shows (jump op.now frame.old) frame.old result frame.new }
{
    match op {
        Op::IfZero { test, to } => branched(1, tested(*test, frame.top()), *to, frame),
        Op::IfInt { test, to } => branched(2, both_tested(*test, frame.top_two()), *to, frame),
        Op::IfRef { equal, to } => {
            let condition = wanted(*equal, same_tested(frame.top_two()));
            branched(2, condition, *to, frame)
        }
        Op::IfNull { null, to } => {
            let condition = wanted(*null, null_tested(frame.top()));
            branched(1, condition, *to, frame)
        }
        Op::Goto { to } => Outcome::Jump(*to),
        Op::Switch { cases, other } => {
            let place = int_target(cases.as_slice(), *other, frame.top());
            switched(place, frame)
        }
        _ => Outcome::Undefined,
    }
}
