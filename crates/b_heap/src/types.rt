//! The types of objects at run time (JVMS SE 8, 6.5 checkcast, instanceof and aastore).

ghost use Rattle.std.specs.Prelude.{◌≡◌, ◌==◌, ◌∷◌, ◌++◌, [], false, option_map};
ghost use Rattle.std.specs.Option.{option_copied};
ghost use Rattle.jworld.specs.Subtype.{items_fit, array_fits, at_run_time};
ghost use Rattle.b_heap.specs.Types.{descriptor_by, is_of, kind_at, is_instance, item_type, item_type_at, holds, may_hold};

use crate::heap::Heap;
use crate::kind::Kind;
use crate::subtypes::{array_is, class_fits, fits, items_fit, items_in};
use jnames::{Param, Shape};
use jworld::World;
use type_states::{is_reference, reference_in};
use values::Value;

/// Whether objects of a class are items of a descriptor.
fn object_fits(world: &World<'_>, name: &[u8], to: &[u8]) -> bool
    ensures { result ≡ items_fit (at_run_time world.now) (76 ∷ (name.now ++ 59 ∷ [])) to.now }
{
    is_reference(to) && class_fits(world, name, reference_in(to))
}

/// Whether values of a base type, by its letter, are items of a descriptor.
fn letter_fits(world: &World<'_>, letter: u8, to: &[u8]) -> bool
    requires array { (letter == 91) ≡ false }
    requires class { (letter == 76) ≡ false }
    ensures { result ≡ items_fit (at_run_time world.now) (letter ∷ []) to.now }
{
    let _world = world;
    [letter].as_slice() == to
}

/// Whether items of a type are items of a descriptor.
fn element_fits(world: &World<'_>, element: &Param, to: &[u8]) -> bool
    ensures { result ≡ items_fit (at_run_time world.now) (descriptor_by element.now.shape element.now.name) to.now }
{
    match element.shape {
        Shape::Byte => letter_fits(world, b'B', to),
        Shape::Char => letter_fits(world, b'C', to),
        Shape::Double => letter_fits(world, b'D', to),
        Shape::Float => letter_fits(world, b'F', to),
        Shape::Int => letter_fits(world, b'I', to),
        Shape::Long => letter_fits(world, b'J', to),
        Shape::Short => letter_fits(world, b'S', to),
        Shape::Bool => letter_fits(world, b'Z', to),
        Shape::Class => object_fits(world, element.name.as_slice(), to),
        Shape::Array => items_fit(world, element.name.as_slice(), to),
    }
}

/// Whether an array of items of a type is a reference type.
fn array_fits(world: &World<'_>, element: &Param, to: &[u8]) -> bool
    ensures { result ≡ array_fits (at_run_time world.now) (items_fit (at_run_time world.now) (descriptor_by element.now.shape element.now.name)) to.now }
{
    match items_in(to) {
        Some(items) => element_fits(world, element, items),
        None => array_is(world, to),
    }
}

/// Whether an object of this kind is of a type, which is the name of a class or an interface, or the descriptor of an
/// array (JVMS SE 8, 6.5 checkcast).
pub fn is_of(world: &World<'_>, kind: &Kind, target: &[u8]) -> bool
    ensures { result ≡ is_of world.now kind.now target.now }
{
    match kind {
        Kind::Instance(class) => fits(world, world.name(*class), target),
        Kind::Array(element) => array_fits(world, element, target),
    }
}

/// Whether an object is of a type; false where there is no object of the place.
#[tactic(auto, unfolding(crate::specs::Types::is_instance))]
pub fn is_instance(world: &World<'_>, heap: &Heap, object: u32, target: &[u8]) -> bool
    ensures { result ≡ is_instance world.now heap.now object target.now }
{
    match heap.kind(object) {
        Some(kind) => is_of(world, kind, target),
        None => false,
    }
}

/// The type of the items of an array of references.
fn item_type(kind: &Kind) -> Option<&[u8]>
    ensures { option_map (λ name. name.now) result ≡ item_type kind.now }
{
    match kind {
        Kind::Array(element) => match element.shape {
            Shape::Class | Shape::Array => Some(element.name.as_slice()),
            _ => None,
        },
        Kind::Instance(_) => None,
    }
}

/// The same of the array of a place.
fn item_type_at(heap: &Heap, array: u32) -> Option<&[u8]>
    ensures { option_map (λ name. name.now) result ≡ item_type_at heap.now array }
{
    let kind = heap.kind(array)?;
    item_type(kind)
}

/// Whether the array of a place, of references, may hold a value (JVMS SE 8, 6.5 aastore): null always, and an
/// object of the domain that is of the type of its items. Where there is no such array or object it may not. Of a
/// mapped object, whose class its base doesn't tell, the answer is no: `is_of` tells of a class.
#[tactic(auto, unfolding(crate::specs::Types::may_hold))]
pub fn may_hold(world: &World<'_>, heap: &Heap, array: u32, value: Value) -> bool
    ensures { result ≡ may_hold world.now heap.now array value }
{
    match value {
        Value::Null => true,
        Value::Object(object) => match item_type_at(heap, array) {
            Some(name) => is_instance(world, heap, object, name),
            None => false,
        },
        _ => false,
    }
}
