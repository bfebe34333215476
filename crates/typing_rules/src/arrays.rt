//! Arrays: an array's type is its descriptor.

ghost use Rattle.std.specs.Prelude.{◌≡◌, drop, IfOk, option_map};
ghost use Rattle.stackmap.specs.declared.vtype.VType.TheVariants.{Object};
ghost use Rattle.typing_rules.specs.Rules.Arrays.{begins_array, is_array_of_references, is_array_of, object_type, number_of, item_in, item_of_null, item_of, array_popped, item_loaded, stored_in, item_stored, is_array, length_taken, array_name, array_made, array_of, references_made};

use crate::environment::Environment;
use crate::transition::{popped, pushed, taken, transition};
use jnames::Shape;
use jworld::World;
use kes_text::NoMemory;
use sqlite_items::Items;
use stackmap::VType;
use std::alloc::Global;
use type_states::{TypeState, is_reference, reference_in};

/// The type of an object of the class of this name, or of an array of this descriptor.
pub fn object(alloc: Global, name: &[u8]) -> Result<VType, NoMemory>
    ensures { IfOk result (λ made. made ≡ Object name.now) }
{
    Ok(VType::Object(Items::from_slice(alloc, name)?))
}

pub fn object_type(alloc: Global) -> Result<VType, NoMemory>
    ensures { IfOk result (λ made. made ≡ object_type) }
{
    object(alloc, b"java/lang/Object")
}

pub fn begins_array(name: &[u8]) -> bool
    ensures { result ≡ begins_array name.now }
{
    match name {
        [first, ..] => *first == b'[',
        [] => false,
    }
}

/// Whether a descriptor is that of an array of arrays or of objects.
fn is_array_of_references(name: &[u8]) -> bool
    ensures { result ≡ is_array_of_references name.now }
{
    match name {
        [b'[', items @ ..] => is_reference(items),
        _ => false,
    }
}

/// Whether a descriptor is that of an array that instructions of this shape serve.
fn is_array_of(shape: Shape, name: &[u8]) -> bool
    ensures { result ≡ is_array_of shape name.now }
{
    match shape {
        Shape::Byte => name == b"[B".as_slice() || name == b"[Z".as_slice(),
        Shape::Char => name == b"[C".as_slice(),
        Shape::Short => name == b"[S".as_slice(),
        Shape::Int => name == b"[I".as_slice(),
        Shape::Long => name == b"[J".as_slice(),
        Shape::Class => is_array_of_references(name),
        _ => false,
    }
}

fn number_of(shape: Shape) -> VType
    ensures { result ≡ number_of shape }
{
    match shape {
        Shape::Long => VType::Long,
        _ => VType::Integer,
    }
}

/// The bytes behind the first.
fn behind_first(name: &[u8]) -> &[u8]
    ensures { result.now ≡ drop 1 name.now }
{
    match name {
        [_, rest @ ..] => rest,
        [] => &[],
    }
}

/// The item of an array with this descriptor.
fn item_in(alloc: Global, shape: Shape, name: &[u8]) -> Result<VType, NoMemory>
    ensures { IfOk result (λ item. item ≡ item_in shape name.now) }
{
    match shape {
        Shape::Class => object(alloc, reference_in(behind_first(name))),
        _ => Ok(number_of(shape)),
    }
}

fn item_of_null(shape: Shape) -> VType
    ensures { result ≡ item_of_null shape }
{
    match shape {
        Shape::Class => VType::Null,
        _ => number_of(shape),
    }
}

/// The item of an array of this type.
fn item_of(alloc: Global, shape: Shape, array: &VType) -> Result<Option<VType>, NoMemory>
    ensures { IfOk result (λ item. item ≡ item_of shape array.now) }
{
    match array {
        VType::Null => Ok(Some(item_of_null(shape))),
        VType::Object(name) => {
            if is_array_of(shape, name.as_slice()) {
                Ok(Some(item_in(alloc, shape, name.as_slice())?))
            } else {
                Ok(None)
            }
        }
        _ => Ok(None),
    }
}

/// The topmost operand's item, and the state without it.
fn array_popped(
    alloc: Global,
    shape: Shape,
    state: TypeState,
) -> Result<Option<(VType, TypeState)>, NoMemory>
    ensures { IfOk result (λ found. found ≡ array_popped shape state) }
{
    match popped(state) {
        Some((array, rest)) => match item_of(alloc, shape, &array)? {
            Some(item) => Ok(Some((item, rest))),
            None => Ok(None),
        },
        None => Ok(None),
    }
}

pub fn item_loaded(
    alloc: Global,
    world: &World<'_>,
    shape: Shape,
    state: TypeState,
) -> Result<Option<TypeState>, NoMemory>
    ensures { IfOk result (λ after. after ≡ item_loaded world.now shape state) }
{
    let Some(rest) = taken(world, &VType::Integer, state) else {
        return Ok(None);
    };
    match array_popped(alloc, shape, rest)? {
        Some((item, rest)) => Ok(Some(pushed(item, rest)?)),
        None => Ok(None),
    }
}

/// What may be stored in an array of this shape.
fn stored_in(alloc: Global, shape: Shape) -> Result<VType, NoMemory>
    ensures { IfOk result (λ made. made ≡ stored_in shape) }
{
    match shape {
        Shape::Class => object_type(alloc),
        _ => Ok(number_of(shape)),
    }
}

pub fn item_stored(
    alloc: Global,
    world: &World<'_>,
    shape: Shape,
    state: TypeState,
) -> Result<Option<TypeState>, NoMemory>
    ensures { IfOk result (λ after. after ≡ item_stored world.now shape state) }
{
    let wanted = stored_in(alloc, shape)?;
    let Some(below) = taken(world, &wanted, state) else {
        return Ok(None);
    };
    let Some(rest) = taken(world, &VType::Integer, below) else {
        return Ok(None);
    };
    match array_popped(alloc, shape, rest)? {
        Some((_, rest)) => Ok(Some(rest)),
        None => Ok(None),
    }
}

fn is_array(given: &VType) -> bool
    ensures { result ≡ is_array given.now }
{
    match given {
        VType::Null => true,
        VType::Object(name) => begins_array(name.as_slice()),
        _ => false,
    }
}

pub fn length_taken(state: TypeState) -> Result<Option<TypeState>, NoMemory>
    ensures { IfOk result (λ after. after ≡ length_taken state) }
{
    match popped(state) {
        Some((array, rest)) => {
            if is_array(&array) {
                Ok(Some(pushed(VType::Integer, rest)?))
            } else {
                Ok(None)
            }
        }
        None => Ok(None),
    }
}

/// The descriptor of an array of numbers.
fn array_name(shape: Shape) -> Option<&'static [u8]>
    ensures { option_map (λ name. name.now) result ≡ array_name shape }
{
    match shape {
        Shape::Bool => Some(b"[Z"),
        Shape::Byte => Some(b"[B"),
        Shape::Char => Some(b"[C"),
        Shape::Short => Some(b"[S"),
        Shape::Int => Some(b"[I"),
        Shape::Long => Some(b"[J"),
        _ => None,
    }
}

pub fn array_made(
    alloc: Global,
    world: &World<'_>,
    shape: Shape,
    state: TypeState,
) -> Result<Option<TypeState>, NoMemory>
    ensures { IfOk result (λ after. after ≡ array_made world.now shape state) }
{
    match array_name(shape) {
        Some(name) => {
            let made = object(alloc, name)?;
            transition(world, &[VType::Integer], Some(made), state)
        }
        None => Ok(None),
    }
}

/// The descriptor of an array of a class or of arrays.
fn array_of(alloc: Global, name: &[u8]) -> Result<Items<u8>, NoMemory>
    ensures { IfOk result (λ made. made ≡ array_of name.now) }
{
    let mut made = Items::new(alloc);
    made.push(b'[')?;
    if begins_array(name) {
        made.append(Items::from_slice(alloc, name)?)?;
    } else {
        made.push(b'L')?;
        made.append(Items::from_slice(alloc, name)?)?;
        made.push(b';')?;
    }
    Ok(made)
}

pub fn references_made(
    alloc: Global,
    e: &Environment<'_, '_>,
    index: u16,
    state: TypeState,
) -> Result<Option<TypeState>, NoMemory>
    ensures { IfOk result (λ after. after ≡ references_made e.now index state) }
{
    match e.class.class_at(index) {
        Some(name) => {
            let made = VType::Object(array_of(alloc, name)?);
            transition(e.world, &[VType::Integer], Some(made), state)
        }
        None => Ok(None),
    }
}
