//! Two numbers by their width, and operations on them (JVMS SE 8, 6.5).

ghost use Rattle.std.specs.Prelude.{◌≡◌};
ghost use Rattle.std.specs.Int.{int_wrapping_add, int_wrapping_sub, int_wrapping_mul, int_bit_and, int_bit_or, int_bit_xor};
ghost use Rattle.b_frame.specs.Numbers.{ints, longs, numbers, calculation, order, comparison};

use crate::pairs::Numbers;
use values::Value;

/// Two ints.
pub fn ints(first: Value, second: Value) -> Option<Numbers>
    ensures { result ≡ ints first second }
{
    match first {
        Value::Int(first) => match second {
            Value::Int(second) => Some(Numbers::Ints(first, second)),
            _ => None,
        },
        _ => None,
    }
}

/// Two longs.
pub fn longs(first: Value, second: Value) -> Option<Numbers>
    ensures { result ≡ longs first second }
{
    match first {
        Value::Long(first) => match second {
            Value::Long(second) => Some(Numbers::Longs(first, second)),
            _ => None,
        },
        _ => None,
    }
}

/// Two numbers of this width.
pub fn numbers(wide: bool, first: Value, second: Value) -> Option<Numbers>
    ensures { result ≡ numbers wide first second }
{
    if wide {
        longs(first, second)
    } else {
        ints(first, second)
    }
}

/// iadd and ladd.
pub fn sum(given: Option<Numbers>) -> Option<Value>
    ensures { result ≡ calculation int_wrapping_add given }
{
    match given? {
        Numbers::Ints(first, second) => Some(Value::Int(first.wrapping_add(second))),
        Numbers::Longs(first, second) => Some(Value::Long(first.wrapping_add(second))),
    }
}

/// isub and lsub.
pub fn difference(given: Option<Numbers>) -> Option<Value>
    ensures { result ≡ calculation int_wrapping_sub given }
{
    match given? {
        Numbers::Ints(first, second) => Some(Value::Int(first.wrapping_sub(second))),
        Numbers::Longs(first, second) => Some(Value::Long(first.wrapping_sub(second))),
    }
}

/// imul and lmul.
pub fn product(given: Option<Numbers>) -> Option<Value>
    ensures { result ≡ calculation int_wrapping_mul given }
{
    match given? {
        Numbers::Ints(first, second) => Some(Value::Int(first.wrapping_mul(second))),
        Numbers::Longs(first, second) => Some(Value::Long(first.wrapping_mul(second))),
    }
}

/// iand and land.
pub fn conjunction(given: Option<Numbers>) -> Option<Value>
    ensures { result ≡ calculation int_bit_and given }
{
    match given? {
        Numbers::Ints(first, second) => Some(Value::Int(first & second)),
        Numbers::Longs(first, second) => Some(Value::Long(first & second)),
    }
}

/// ior and lor.
pub fn disjunction(given: Option<Numbers>) -> Option<Value>
    ensures { result ≡ calculation int_bit_or given }
{
    match given? {
        Numbers::Ints(first, second) => Some(Value::Int(first | second)),
        Numbers::Longs(first, second) => Some(Value::Long(first | second)),
    }
}

/// ixor and lxor.
pub fn exclusion(given: Option<Numbers>) -> Option<Value>
    ensures { result ≡ calculation int_bit_xor given }
{
    match given? {
        Numbers::Ints(first, second) => Some(Value::Int(first ^ second)),
        Numbers::Longs(first, second) => Some(Value::Long(first ^ second)),
    }
}

fn order_of_ints(first: i32, second: i32) -> i32
    ensures { result ≡ order first second }
{
    if first < second {
        -1
    } else if second < first {
        1
    } else {
        0
    }
}

fn order_of_longs(first: i64, second: i64) -> i32
    ensures { result ≡ order first second }
{
    if first < second {
        -1
    } else if second < first {
        1
    } else {
        0
    }
}

/// -1, 0 or 1, as the first number is less than the second, equal or greater.
pub fn comparison(given: Option<Numbers>) -> Option<Value>
    ensures { result ≡ comparison given }
{
    match given? {
        Numbers::Ints(first, second) => Some(Value::Int(order_of_ints(first, second))),
        Numbers::Longs(first, second) => Some(Value::Int(order_of_longs(first, second))),
    }
}
