//! What fields and items hold at first, and what they keep of a stored value.

ghost use Rattle.std.specs.Prelude.{◌≡◌};
ghost use Rattle.values.specs.Values.{zero_of, kept_int, kept_as};

use crate::value::Value;
use jnames::Shape;

/// What a field or an item of the shape holds before anything is stored in it (JVMS SE 8, 2.3 and 2.4).
pub fn zero(shape: Shape) -> Value
    ensures { result ≡ zero_of shape }
{
    match shape {
        Shape::Long | Shape::Double => Value::Long(0),
        Shape::Class | Shape::Array => Value::Null,
        _ => Value::Int(0),
    }
}

fn kept_int(shape: Shape, value: i32) -> i32
    ensures { result ≡ kept_int shape value }
{
    let bits = value.cast_unsigned();
    match shape {
        Shape::Bool => (bits % 2) as i32,
        Shape::Byte => i32::from(((bits % 0x100) as u8).cast_signed()),
        Shape::Char => (bits % 0x1_0000) as i32,
        Shape::Short => i32::from(((bits % 0x1_0000) as u16).cast_signed()),
        _ => value,
    }
}

/// What a field or an item of the shape keeps of a value that is stored in it (JVMS SE 8, 6.5 putfield, bastore,
/// castore and sastore): of an int the low bit as a boolean, 8 bits with their sign as a byte, 16 without as a char
/// and 16 with as a short; else the value as it is.
pub fn kept(shape: Shape, value: Value) -> Value
    ensures { result ≡ kept_as shape value }
{
    match value {
        Value::Int(number) => Value::Int(kept_int(shape, number)),
        other => other,
    }
}
