//! Numbers at the front of bytes.

ghost use Rattle.std.specs.Int.{w8, w16, w32};
ghost use Rattle.jcode.specs.Reading.{Gives, number_at, signed_at, behind};

use crate::fault::{Fault, Flaw};

/// An unsigned number of one byte, and the bytes behind it. Too few bytes are a wrong operand.
pub fn u8_of(bytes: &[u8]) -> Result<(u8, &[u8]), Flaw>
    ensures { Gives (λ x. (x.0, x.1.now)) result (number_at w8 bytes.now) }
{
    if bytes.is_empty() {
        return Err(Flaw::Fault(Fault::Operand));
    }
    let (front, rest) = bytes.split_at(1);
    let number = u8::from_be_bytes([front[0]]);
    Ok((number, rest))
}

/// An unsigned number of two bytes, the highest first.
pub fn u16_of(bytes: &[u8]) -> Result<(u16, &[u8]), Flaw>
    ensures { Gives (λ x. (x.0, x.1.now)) result (number_at w16 bytes.now) }
{
    if bytes.len() < 2 {
        return Err(Flaw::Fault(Fault::Operand));
    }
    let (front, rest) = bytes.split_at(2);
    let number = u16::from_be_bytes([front[0], front[1]]);
    Ok((number, rest))
}

/// An unsigned number of four bytes, the highest first.
fn u32_of(bytes: &[u8]) -> Result<(u32, &[u8]), Flaw>
    ensures { Gives (λ x. (x.0, x.1.now)) result (number_at w32 bytes.now) }
{
    if bytes.len() < 4 {
        return Err(Flaw::Fault(Fault::Operand));
    }
    let (front, rest) = bytes.split_at(4);
    let number = u32::from_be_bytes([front[0], front[1], front[2], front[3]]);
    Ok((number, rest))
}

/// A signed number of one byte.
pub fn i8_of(bytes: &[u8]) -> Result<(i8, &[u8]), Flaw>
    ensures { Gives (λ x. (x.0, x.1.now)) result (signed_at w8 bytes.now) }
{
    let (number, rest) = u8_of(bytes)?;
    Ok((number.cast_signed(), rest))
}

/// A signed number of two bytes.
pub fn i16_of(bytes: &[u8]) -> Result<(i16, &[u8]), Flaw>
    ensures { Gives (λ x. (x.0, x.1.now)) result (signed_at w16 bytes.now) }
{
    let (number, rest) = u16_of(bytes)?;
    Ok((number.cast_signed(), rest))
}

/// A signed number of four bytes.
pub fn i32_of(bytes: &[u8]) -> Result<(i32, &[u8]), Flaw>
    ensures { Gives (λ x. (x.0, x.1.now)) result (signed_at w32 bytes.now) }
{
    let (number, rest) = u32_of(bytes)?;
    Ok((number.cast_signed(), rest))
}

/// The bytes behind the first `count`.
pub fn bytes_behind(bytes: &[u8], count: usize) -> Result<&[u8], Flaw>
    ensures { Gives (λ x. x.now) result (behind count bytes.now) }
{
    if bytes.len() < count {
        return Err(Flaw::Fault(Fault::Operand));
    }
    Ok(&bytes[count..])
}
