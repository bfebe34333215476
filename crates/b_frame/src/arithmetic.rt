//! Operations on numbers, whose result takes the operands' place (JVMS SE 8, 6.5).

ghost use Rattle.std.specs.Prelude.{◌≡◌, ◌<◌, ◌≤◌, length};
ghost use Rattle.b_frame.specs.Numbers.{of_two};
ghost use Rattle.b_frame.specs.Stepped.{Shows};
ghost use Rattle.b_frame.specs.LocalStep.{replaced, one_number, two_numbers};

use crate::conversions::of_one;
use crate::frame::Frame;
use crate::numbers::{
    comparison, conjunction, difference, disjunction, exclusion, longs, numbers, product, sum,
};
use crate::outcome::Outcome;
use crate::shifts::{shift, shifted_left, shifted_right, shifted_unsigned};
use jcode::Op;
use values::Value;

/// A value, if it is there, in place of so many operands.
fn replaced(count: usize, found: Option<Value>, frame: &mut Frame) -> Outcome
    requires some { 0 < count }
    requires within { count ≤ length frame.old.operands }
    ensures { Shows (replaced count found frame.old) frame.old result frame.new }
{
    match found {
        Some(value) => {
            frame.operands.replace(count, value);
            Outcome::Next
        }
        None => Outcome::Undefined,
    }
}

/// What an operation on two numbers gives; None for other operations.
fn of_two(op: &Op, first: Value, second: Value) -> Option<Value>
    ensures { result ≡ of_two op.now first second }
{
    match op {
        Op::Add { wide } => sum(numbers(*wide, first, second)),
        Op::Sub { wide } => difference(numbers(*wide, first, second)),
        Op::Mul { wide } => product(numbers(*wide, first, second)),
        Op::And { wide } => conjunction(numbers(*wide, first, second)),
        Op::Or { wide } => disjunction(numbers(*wide, first, second)),
        Op::Xor { wide } => exclusion(numbers(*wide, first, second)),
        Op::Shl { wide } => shifted_left(shift(*wide, first, second)),
        Op::Shr { wide } => shifted_right(shift(*wide, first, second)),
        Op::Ushr { wide } => shifted_unsigned(shift(*wide, first, second)),
        Op::CompareL => comparison(longs(first, second)),
        _ => None,
    }
}

/// Operations on one number; other operations have no meaning here.
pub fn one_number(frame: &mut Frame, op: &Op) -> Outcome
    ensures { Shows (one_number op.now frame.old) frame.old result frame.new }
{
    match frame.operands.at(0) {
        Some(value) => replaced(1, of_one(op, value), frame),
        None => Outcome::Undefined,
    }
}

/// Operations on two numbers, but for divisions; other operations have no meaning here.
pub fn two_numbers(frame: &mut Frame, op: &Op) -> Outcome
    ensures { Shows (two_numbers op.now frame.old) frame.old result frame.new }
{
    match frame.top_two() {
        Some((first, second)) => replaced(2, of_two(op, first, second), frame),
        None => Outcome::Undefined,
    }
}
