//! Values by the kinds that instructions work on (JVMS SE 8, 2.11.1).

ghost use Rattle.std.specs.Prelude.{◌≡◌};
ghost use Rattle.b_frame.specs.Values.{is_single, as_int, as_long, as_reference};

use values::Value;

/// Whether a value is of category 1: every one but a long.
pub fn is_single(value: Value) -> bool
    ensures { result ≡ is_single value }
{
    match value {
        Value::Long(_) => false,
        _ => true,
    }
}

/// The value, if it is there and is an int.
pub fn as_int(found: Option<Value>) -> Option<Value>
    ensures { result ≡ as_int found }
{
    let value = found?;
    match value {
        Value::Int(_) => Some(value),
        _ => None,
    }
}

/// The value, if it is there and is a long.
pub fn as_long(found: Option<Value>) -> Option<Value>
    ensures { result ≡ as_long found }
{
    let value = found?;
    match value {
        Value::Long(_) => Some(value),
        _ => None,
    }
}

/// The value, if it is there and is a reference.
pub fn as_reference(found: Option<Value>) -> Option<Value>
    ensures { result ≡ as_reference found }
{
    let value = found?;
    match value {
        Value::Null | Value::Object(_) | Value::Device(_) => Some(value),
        _ => None,
    }
}
