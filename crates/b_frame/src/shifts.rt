//! Shifts (JVMS SE 8, 6.5).

ghost use Rattle.std.specs.Prelude.{◌≡◌};
ghost use Rattle.std.specs.Int.{int_shl};
ghost use Rattle.b_frame.specs.Numbers.{int_shift, long_shift, shift, shifted, signed_right, unsigned_right};

use crate::pairs::Shift;
use values::Value;

fn int_shift(number: Value, count: Value) -> Option<Shift>
    ensures { result ≡ int_shift number count }
{
    match number {
        Value::Int(number) => match count {
            Value::Int(count) => Some(Shift::ShiftInt(number, count.cast_unsigned())),
            _ => None,
        },
        _ => None,
    }
}

fn long_shift(number: Value, count: Value) -> Option<Shift>
    ensures { result ≡ long_shift number count }
{
    match number {
        Value::Long(number) => match count {
            Value::Int(count) => Some(Shift::ShiftLong(number, count.cast_unsigned())),
            _ => None,
        },
        _ => None,
    }
}

/// A number of this width and the bits of a count.
pub fn shift(wide: bool, number: Value, count: Value) -> Option<Shift>
    ensures { result ≡ shift wide number count }
{
    if wide {
        long_shift(number, count)
    } else {
        int_shift(number, count)
    }
}

/// ishl and lshl.
pub fn shifted_left(given: Option<Shift>) -> Option<Value>
    ensures { result ≡ shifted int_shl given }
{
    match given? {
        Shift::ShiftInt(number, count) => Some(Value::Int(number.wrapping_shl(count))),
        Shift::ShiftLong(number, count) => Some(Value::Long(number.wrapping_shl(count))),
    }
}

/// ishr and lshr.
pub fn shifted_right(given: Option<Shift>) -> Option<Value>
    ensures { result ≡ shifted signed_right given }
{
    match given? {
        Shift::ShiftInt(number, count) => Some(Value::Int(number.wrapping_shr(count))),
        Shift::ShiftLong(number, count) => Some(Value::Long(number.wrapping_shr(count))),
    }
}

/// iushr and lushr.
pub fn shifted_unsigned(given: Option<Shift>) -> Option<Value>
    ensures { result ≡ shifted unsigned_right given }
{
    match given? {
        Shift::ShiftInt(number, count) => {
            let bits = number.cast_unsigned().wrapping_shr(count);
            Some(Value::Int(bits.cast_signed()))
        }
        Shift::ShiftLong(number, count) => {
            let bits = number.cast_unsigned().wrapping_shr(count);
            Some(Value::Long(bits.cast_signed()))
        }
    }
}
