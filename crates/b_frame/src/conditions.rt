//! Conditions of branches (JVMS SE 8, 6.5).

ghost use Rattle.std.specs.Prelude.{◌≡◌};
ghost use Rattle.b_frame.specs.Jumps.{holds, tested, both_hold, both_tested, is_null, is_object, is_device, are_same, null_tested, same_tested, wanted};

use crate::numbers::ints;
use crate::pairs::Numbers;
use jcode::Test;
use values::Value;

fn holds(test: Test, first: i64, second: i64) -> bool
    ensures { result ≡ holds test first second }
{
    match test {
        Test::Eq => first == second,
        Test::Ne => first != second,
        Test::Lt => first < second,
        Test::Ge => first >= second,
        Test::Gt => first > second,
        Test::Le => first <= second,
    }
}

/// Whether an int passes a test against 0.
pub fn tested(test: Test, found: Option<Value>) -> Option<bool>
    ensures { result ≡ tested test found }
{
    match found? {
        Value::Int(number) => Some(holds(test, i64::from(number), 0)),
        _ => None,
    }
}

fn both_hold(test: Test, given: Numbers) -> bool
    ensures { result ≡ both_hold test given }
{
    match given {
        Numbers::Ints(first, second) => holds(test, i64::from(first), i64::from(second)),
        Numbers::Longs(first, second) => holds(test, first, second),
    }
}

/// Whether two ints pass a test.
pub fn both_tested(test: Test, found: Option<(Value, Value)>) -> Option<bool>
    ensures { result ≡ both_tested test found }
{
    let (first, second) = found?;
    let given = ints(first, second)?;
    Some(both_hold(test, given))
}

/// Whether a reference is null.
fn is_null(value: Value) -> Option<bool>
    ensures { result ≡ is_null value }
{
    match value {
        Value::Null => Some(true),
        Value::Object(_) | Value::Device(_) => Some(false),
        _ => None,
    }
}

fn is_object(place: u32, value: Value) -> Option<bool>
    ensures { result ≡ is_object place value }
{
    match value {
        Value::Object(other) => Some(place == other),
        Value::Null | Value::Device(_) => Some(false),
        _ => None,
    }
}

fn is_device(base: u32, value: Value) -> Option<bool>
    ensures { result ≡ is_device base value }
{
    match value {
        Value::Device(other) => Some(base == other),
        Value::Null | Value::Object(_) => Some(false),
        _ => None,
    }
}

/// Whether two references are the same.
fn are_same(first: Value, second: Value) -> Option<bool>
    ensures { result ≡ are_same first second }
{
    match first {
        Value::Null => is_null(second),
        Value::Object(place) => is_object(place, second),
        Value::Device(base) => is_device(base, second),
        _ => None,
    }
}

/// Whether the reference on the top is null.
pub fn null_tested(found: Option<Value>) -> Option<bool>
    ensures { result ≡ null_tested found }
{
    is_null(found?)
}

/// Whether the two references on the top are the same.
pub fn same_tested(found: Option<(Value, Value)>) -> Option<bool>
    ensures { result ≡ same_tested found }
{
    let (first, second) = found?;
    are_same(first, second)
}

/// A test for yes, or for no.
pub fn wanted(answer: bool, found: Option<bool>) -> Option<bool>
    ensures { result ≡ wanted answer found }
{
    let is = found?;
    Some(is == answer)
}
