//! Operands that are wanted.

ghost use Rattle.std.specs.Prelude.{◌≡◌};
ghost use Rattle.b_step.specs.Receivers.{int_of, index_in};

use values::Value;

/// The number of an int.
pub fn int_of(value: Value) -> Option<i32>
    ensures { result ≡ int_of value }
{
    match value {
        Value::Int(number) => Some(number),
        _ => None,
    }
}

/// An index, if an array of this length has it.
pub fn index_in(length: u32, index: i32) -> Option<u32>
    ensures { result ≡ index_in length index }
{
    if index < 0 {
        return None;
    }
    let place = index.unsigned_abs();
    if place < length { Some(place) } else { None }
}
