//! idiv, ldiv, irem and lrem (JVMS SE 8, 6.5).

ghost use Rattle.std.specs.Prelude.{◌≡◌, ◌≤◌, false, length, OnSome};
ghost use Rattle.std.specs.Int.{int_wrapping_div};
ghost use Rattle.b_frame.specs.Numbers.{calculated};
ghost use Rattle.b_frame.specs.Divisions.{divides_by_zero, remainder, operands_of, divided, division};
ghost use Rattle.b_frame.specs.Stepped.{Shows};

use crate::frame::Frame;
use crate::numbers::numbers;
use crate::outcome::Outcome;
use crate::pairs::Numbers;
use jcode::Op;
use osek_core::FailKind;
use values::Value;

fn divides_by_zero(given: Numbers) -> bool
    ensures { result ≡ divides_by_zero given }
{
    match given {
        Numbers::Ints(_, divisor) => divisor.unsigned_abs() == 0,
        Numbers::Longs(_, divisor) => divisor.unsigned_abs() == 0,
    }
}

fn quotient(given: Numbers) -> Value
    requires { divides_by_zero given ≡ false }
    ensures { result ≡ calculated int_wrapping_div given }
{
    match given {
        Numbers::Ints(dividend, divisor) => Value::Int(dividend.wrapping_div(divisor)),
        Numbers::Longs(dividend, divisor) => Value::Long(dividend.wrapping_div(divisor)),
    }
}

fn remainder(given: Numbers) -> Value
    requires { divides_by_zero given ≡ false }
    ensures { result ≡ calculated remainder given }
{
    match given {
        Numbers::Ints(dividend, divisor) => Value::Int(dividend.wrapping_rem(divisor)),
        Numbers::Longs(dividend, divisor) => Value::Long(dividend.wrapping_rem(divisor)),
    }
}

/// The numbers on which a division works.
fn operands_of(wide: bool, frame: &Frame) -> Option<Numbers>
    ensures value { result ≡ operands_of wide frame.now }
    ensures within { OnSome result (2 ≤ length frame.now.operands) }
{
    let (first, second) = frame.top_two()?;
    numbers(wide, first, second)
}

/// idiv and ldiv.
fn divided(wide: bool, frame: &mut Frame) -> Outcome
    ensures { Shows (divided int_wrapping_div wide frame.old) frame.old result frame.new }
{
    let Some(given) = operands_of(wide, frame) else {
        return Outcome::Undefined;
    };
    if divides_by_zero(given) {
        return Outcome::Fails(FailKind::DivZero);
    }
    frame.operands.replace(2, quotient(given));
    Outcome::Next
}

/// irem and lrem.
fn reduced(wide: bool, frame: &mut Frame) -> Outcome
    ensures { Shows (divided remainder wide frame.old) frame.old result frame.new }
{
    let Some(given) = operands_of(wide, frame) else {
        return Outcome::Undefined;
    };
    if divides_by_zero(given) {
        return Outcome::Fails(FailKind::DivZero);
    }
    frame.operands.replace(2, remainder(given));
    Outcome::Next
}

/// idiv, ldiv, irem and lrem; other operations have no meaning here.
pub fn division(frame: &mut Frame, op: &Op) -> Outcome
    ensures { Shows (division op.now frame.old) frame.old result frame.new }
{
    match op {
        Op::Div { wide } => divided(*wide, frame),
        Op::Rem { wide } => reduced(*wide, frame),
        _ => Outcome::Undefined,
    }
}
