//! Operations on one number (JVMS SE 8, 6.5).

ghost use Rattle.std.specs.Prelude.{◌≡◌};
ghost use Rattle.b_frame.specs.Numbers.{negated, widened, narrowed, cut, of_one};

use jcode::Op;
use jnames::Shape;
use values::{Value, kept};

fn negated(wide: bool, value: Value) -> Option<Value>
    ensures { result ≡ negated wide value }
{
    match value {
        Value::Int(number) => {
            if wide {
                None
            } else {
                Some(Value::Int(number.wrapping_neg()))
            }
        }
        Value::Long(number) => {
            if wide {
                Some(Value::Long(number.wrapping_neg()))
            } else {
                None
            }
        }
        _ => None,
    }
}

fn widened(value: Value) -> Option<Value>
    ensures { result ≡ widened value }
{
    match value {
        Value::Int(number) => Some(Value::Long(i64::from(number))),
        _ => None,
    }
}

fn narrowed(value: Value) -> Option<Value>
    ensures { result ≡ narrowed value }
{
    match value {
        Value::Long(number) => {
            let low = (number.cast_unsigned() % 0x1_0000_0000) as u32;
            Some(Value::Int(low.cast_signed()))
        }
        _ => None,
    }
}

/// What a field of this shape keeps of an int.
fn cut(shape: Shape, value: Value) -> Option<Value>
    ensures { result ≡ cut shape value }
{
    match value {
        Value::Int(_) => Some(kept(shape, value)),
        _ => None,
    }
}

/// What an operation on one number gives; None for other operations.
pub fn of_one(op: &Op, value: Value) -> Option<Value>
    ensures { result ≡ of_one op.now value }
{
    match op {
        Op::Neg { wide } => negated(*wide, value),
        Op::I2L => widened(value),
        Op::L2I => narrowed(value),
        Op::I2B => cut(Shape::Byte, value),
        Op::I2C => cut(Shape::Char, value),
        Op::I2S => cut(Shape::Short, value),
        _ => None,
    }
}
