//! Whether the class that a name names is in a world.

ghost use Rattle.std.specs.Prelude.{◌≡◌, ◌-◌, take, length};
ghost use Rattle.linking.specs.Known.{is_array, dimensions, element_of, is_element_known, is_known};

use jworld::World;

/// Whether a name is the descriptor of an array.
pub fn is_array(name: &[u8]) -> bool
    ensures { result ≡ is_array name.now }
{
    match name {
        [first, ..] => *first == b'[',
        [] => false,
    }
}

/// How many dimensions an array has.
fn dimensions(name: &[u8]) -> usize
    ensures { result ≡ dimensions name.now }
{
    name.iter().take_while(|byte| **byte == b'[').count()
}

/// The descriptor of an array's elements, whatever its dimensions.
pub fn element_of(name: &[u8]) -> &[u8]
    ensures { result.now ≡ element_of name.now }
{
    &name[dimensions(name)..]
}

/// All but the last byte.
fn without_last(bytes: &[u8]) -> &[u8]
    ensures { result.now ≡ take (length bytes.now - 1) bytes.now }
{
    &bytes[..bytes.len().saturating_sub(1)]
}

/// Whether the class of a descriptor, if it is that of a class, is in the world.
fn is_element_known(world: &World<'_>, descriptor: &[u8]) -> bool
    ensures { result ≡ is_element_known world.now descriptor.now }
{
    match descriptor {
        [b'L', rest @ ..] => world.class(without_last(rest)).is_some(),
        _ => true,
    }
}

/// Whether the class that a name names is in the world.
pub fn is_known(world: &World<'_>, name: &[u8]) -> bool
    ensures { result ≡ is_known world.now name.now }
{
    if is_array(name) {
        is_element_known(world, element_of(name))
    } else {
        world.class(name).is_some()
    }
}
