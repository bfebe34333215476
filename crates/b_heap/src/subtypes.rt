//! Which reference type is another at run time (JVMS SE 8, 6.5 checkcast).

ghost use Rattle.std.specs.Prelude.{◌≡◌, option_map};
ghost use Rattle.jworld.specs.Subtype.{class_fits, items_fit, fits, is_object, stands_above, at_run_time};
ghost use Rattle.type_states.specs.Assignable.{items_in, plain_items_fit};

use jworld::{ClassId, World};
use type_states::{is_reference, reference_in};

fn stands_above(world: &World<'_>, class: Option<ClassId>, above: Option<ClassId>) -> bool
    ensures { result ≡ stands_above world.now (option_map (λ c. c.n) class) (option_map (λ c. c.n) above) }
{
    match (class, above) {
        (Some(class), Some(above)) => world.is_above(class, above),
        _ => false,
    }
}

fn is_object(name: &[u8]) -> bool
    ensures { result ≡ is_object name.now }
{
    name == b"java/lang/Object".as_slice()
}

fn class_is(world: &World<'_>, from: &[u8], to: &[u8]) -> bool
    ensures { result ≡ (at_run_time world.now).class from.now to.now }
{
    from == to || is_object(to) || stands_above(world, world.class(from), world.class(to))
}

/// Whether each array is of a class or an interface.
pub fn array_is(world: &World<'_>, to: &[u8]) -> bool
    ensures { result ≡ (at_run_time world.now).array to.now }
{
    let _world = world;
    is_object(to)
        || to == b"java/lang/Cloneable".as_slice()
        || to == b"java/io/Serializable".as_slice()
}

/// The descriptor of the items of an array.
pub fn items_in(name: &[u8]) -> Option<&[u8]>
    ensures { option_map (λ items. items.now) result ≡ items_in name.now }
{
    match name {
        [b'[', items @ ..] => Some(items),
        _ => None,
    }
}

/// Whether a class is a reference type.
pub fn class_fits(world: &World<'_>, from: &[u8], to: &[u8]) -> bool
    ensures { result ≡ class_fits (at_run_time world.now) from.now to.now }
{
    match items_in(to) {
        Some(_) => false,
        None => class_is(world, from, to),
    }
}

/// Whether items that are no arrays are items of another descriptor.
fn plain_items_fit(world: &World<'_>, from: &[u8], to: &[u8]) -> bool
    ensures { result ≡ plain_items_fit (at_run_time world.now) from.now to.now }
{
    match from {
        [b'L', ..] => is_reference(to) && class_fits(world, reference_in(from), reference_in(to)),
        [_, ..] => from == to,
        [] => false,
    }
}

/// Whether items of a descriptor are items of another.
pub fn items_fit(world: &World<'_>, from: &[u8], to: &[u8]) -> bool
    ensures { result ≡ items_fit (at_run_time world.now) from.now to.now }
{
    match items_in(from) {
        None => plain_items_fit(world, from, to),
        Some(items) => {
            if is_reference(to) {
                let name = reference_in(to);
                match items_in(name) {
                    Some(to_items) => items_fit(world, items, to_items),
                    None => array_is(world, name),
                }
            } else {
                false
            }
        }
    }
}

/// Whether a reference type is another.
pub fn fits(world: &World<'_>, from: &[u8], to: &[u8]) -> bool
    ensures { result ≡ fits (at_run_time world.now) from.now to.now }
{
    match items_in(from) {
        None => class_fits(world, from, to),
        Some(items) => match items_in(to) {
            Some(to_items) => items_fit(world, items, to_items),
            None => array_is(world, to),
        },
    }
}
