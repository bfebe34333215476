//! Which type may stand where another is wanted (JVMS SE 8, 4.10.1.2).

ghost use Rattle.std.specs.Prelude.{◌≡◌, ◌-◌, length, take, option_map};
ghost use Rattle.jworld.specs.Classes.{class_named};
ghost use Rattle.jworld.specs.Subtype.{is_reference, reference_in, class_fits, items_fit, fits, is_object};
ghost use Rattle.type_states.specs.Assignable.{is_interface_there, is_subclass_there, is_as_object, items_in, plain_items_fit, typing, is_assignable, is_slot_assignable};

use jworld::{ClassId, World};
use stackmap::VType;

fn is_interface_there(world: &World<'_>, class: Option<ClassId>) -> bool
    ensures { result ≡ is_interface_there world.now (option_map (λ c. c.n) class) }
{
    match class {
        Some(class) => world.is_interface(class),
        None => false,
    }
}

/// Whether one class is another or below it, along superclasses.
pub fn is_subclass_there(world: &World<'_>, class: Option<ClassId>, of: Option<ClassId>) -> bool
    ensures { result ≡ is_subclass_there world.now (option_map (λ c. c.n) class) (option_map (λ c. c.n) of) }
{
    match (class, of) {
        (Some(class), Some(of)) => world.is_subclass(class, of),
        _ => false,
    }
}

fn is_object(name: &[u8]) -> bool
    ensures { result ≡ is_object name.now }
{
    name == b"java/lang/Object".as_slice()
}

/// Whether a name counts as Object.
fn is_as_object(world: &World<'_>, name: &[u8]) -> bool
    ensures { result ≡ is_as_object world.now name.now }
{
    is_object(name) || is_interface_there(world, world.class(name))
}

#[tactic(auto, unfolding(crate::specs::Assignable::typing))]
fn class_is(world: &World<'_>, from: &[u8], to: &[u8]) -> bool
    ensures { result ≡ (typing world.now).class from.now to.now }
{
    from == to
        || is_as_object(world, to)
        || is_subclass_there(world, world.class(from), world.class(to))
}

#[tactic(auto, unfolding(crate::specs::Assignable::typing))]
fn array_is(world: &World<'_>, to: &[u8]) -> bool
    ensures { result ≡ (typing world.now).array to.now }
{
    is_as_object(world, to)
        || to == b"java/lang/Cloneable".as_slice()
        || to == b"java/io/Serializable".as_slice()
}

/// Whether a descriptor is that of a class or an array.
pub fn is_reference(descriptor: &[u8]) -> bool
    ensures { result ≡ is_reference descriptor.now }
{
    match descriptor {
        [first, ..] => *first == b'L' || *first == b'[',
        [] => false,
    }
}

/// The bytes before the last.
fn before_last(bytes: &[u8]) -> &[u8]
    ensures { result.now ≡ take (length bytes.now - 1) bytes.now }
{
    match bytes {
        [before @ .., _] => before,
        [] => bytes,
    }
}

/// The reference type of the descriptor of a class or an array.
pub fn reference_in(descriptor: &[u8]) -> &[u8]
    ensures { result.now ≡ reference_in descriptor.now }
{
    match descriptor {
        [b'L', rest @ ..] => before_last(rest),
        _ => descriptor,
    }
}

/// The descriptor of the items of an array.
fn items_in(name: &[u8]) -> Option<&[u8]>
    ensures { option_map (λ items. items.now) result ≡ items_in name.now }
{
    match name {
        [b'[', items @ ..] => Some(items),
        _ => None,
    }
}

fn class_fits(world: &World<'_>, from: &[u8], to: &[u8]) -> bool
    ensures { result ≡ class_fits (typing world.now) from.now to.now }
{
    match items_in(to) {
        Some(_) => false,
        None => class_is(world, from, to),
    }
}

/// Whether items that are no arrays are items of another descriptor.
fn plain_items_fit(world: &World<'_>, from: &[u8], to: &[u8]) -> bool
    ensures { result ≡ plain_items_fit (typing world.now) from.now to.now }
{
    match from {
        [b'L', ..] => is_reference(to) && class_fits(world, reference_in(from), reference_in(to)),
        [_, ..] => from == to,
        [] => false,
    }
}

/// Whether items of a descriptor are items of another.
fn items_fit(world: &World<'_>, from: &[u8], to: &[u8]) -> bool
    ensures { result ≡ items_fit (typing world.now) from.now to.now }
{
    match items_in(from) {
        None => plain_items_fit(world, from, to),
        Some(items) => {
            if is_reference(to) {
                let name = reference_in(to);
                match items_in(name) {
                    Some(to_items) => items_fit(world, items, to_items),
                    None => array_is(world, name),
                }
            } else {
                false
            }
        }
    }
}

fn fits(world: &World<'_>, from: &[u8], to: &[u8]) -> bool
    ensures { result ≡ fits (typing world.now) from.now to.now }
{
    match items_in(from) {
        None => class_fits(world, from, to),
        Some(items) => match items_in(to) {
            Some(to_items) => items_fit(world, items, to_items),
            None => array_is(world, to),
        },
    }
}

/// Whether an operand of a type may stand where another is wanted.
pub fn is_assignable(world: &World<'_>, from: &VType, to: &VType) -> bool
    ensures { result ≡ is_assignable world.now from.now to.now }
{
    match (from, to) {
        (VType::Top, VType::Top)
        | (VType::Integer, VType::Integer)
        | (VType::Float, VType::Float)
        | (VType::Double, VType::Double)
        | (VType::Long, VType::Long)
        | (VType::Null, VType::Null | VType::Object(_))
        | (VType::UninitThis, VType::UninitThis) => true,
        (VType::Object(from), VType::Object(to)) => fits(world, from.as_slice(), to.as_slice()),
        (VType::Uninit(from), VType::Uninit(to)) => *from == *to,
        _ => false,
    }
}

/// Whether what a slot holds may stand where another type is wanted.
pub fn is_slot_assignable(world: &World<'_>, from: &VType, to: &VType) -> bool
    ensures { result ≡ is_slot_assignable world.now from.now to.now }
{
    match to {
        VType::Top => true,
        _ => is_assignable(world, from, to),
    }
}
