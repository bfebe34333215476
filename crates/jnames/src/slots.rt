//! Whether a text is a descriptor, found without memory.

ghost use Rattle.std.specs.Prelude.{◌≡◌, ◌≤◌, is_some, option_map, IfSome};
ghost use Rattle.jnames.specs.Types.{type_at};
ghost use Rattle.jnames.specs.Descriptors.{slots_of, slots_at, answer_at, field_of, method_slots};

use crate::bytes::Bytes;
use crate::shape::Shape;
use crate::types::type_at;

const MAX_PARAMETER_SLOTS: u16 = 255;

fn slots_of(shape: Shape) -> u16
    ensures value { result ≡ slots_of shape }
    ensures bound { result ≤ 2 }
{
    match shape {
        Shape::Long | Shape::Double => 2,
        _ => 1,
    }
}

/// At most 255 parameter types and a `)` behind them: the slots that they take.
pub fn slots_at<'a>(bytes: &Bytes<'a>) -> Option<(u16, Bytes<'a>)>
    ensures { result ≡ slots_at 255 bytes.now }
{
    let mut slots = 0;
    let mut rest = Bytes::new(bytes.as_slice());
    for _ in 0..MAX_PARAMETER_SLOTS {
        if rest.begins_with(b')') {
            break;
        }
        let (found, behind) = type_at(&rest)?;
        slots += slots_of(found.shape());
        rest = behind;
    }
    Some((slots, rest.behind(b')')?))
}

fn answer_at<'a>(bytes: &Bytes<'a>) -> Option<Bytes<'a>>
    ensures { result ≡ option_map (λ x. x.1) (answer_at bytes.now) }
{
    match bytes.behind(b'V') {
        Some(rest) => Some(rest),
        None => {
            let (_, rest) = type_at(bytes)?;
            Some(rest)
        }
    }
}

/// Whether the bytes are a field descriptor (JVMS SE 8, 4.3.2). No memory is taken.
pub fn is_field_descriptor(text: &[u8]) -> bool
    ensures { result ≡ is_some (field_of text.now) }
{
    match type_at(&Bytes::new(text)) {
        Some((_, rest)) => rest.is_empty(),
        None => false,
    }
}

/// How many slots the parameters of a method descriptor take, from 0 to 255: two for long and double,
/// and one for each other type. None exactly where the bytes are no method descriptor (JVMS SE 8,
/// 4.3.3). No memory is taken.
#[tactic(auto, unfolding(crate::specs::Descriptors::method_slots))]
pub fn method_slots(text: &[u8]) -> Option<u16>
    ensures value { result ≡ method_slots text.now }
    ensures bound { IfSome result (λ slots. slots ≤ 255) }
{
    let rest = Bytes::new(text).behind(b'(')?;
    let (slots, rest) = slots_at(&rest)?;
    if slots > MAX_PARAMETER_SLOTS {
        return None;
    }
    let rest = answer_at(&rest)?;
    if rest.is_empty() { Some(slots) } else { None }
}
