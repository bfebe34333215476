//! The class of which a new makes an object.

ghost use Rattle.std.specs.Prelude.{◌≡◌};
ghost use Rattle.linking.specs.Objects.{is_abstract, has_objects, made};

use crate::known::{is_array, is_known};
use classfile::Access;
use jworld::{ClassId, World};
use kes_text::Kind;

/// Whether a class is abstract.
fn is_abstract(world: &World<'_>, class: ClassId) -> bool
    ensures { result ≡ is_abstract world.now class.n }
{
    match world.get(class) {
        Some(file) => file.flags().bits & Access::ABSTRACT.bits != 0,
        None => false,
    }
}

/// Whether a class has objects: it is neither abstract nor an interface.
pub fn has_objects(world: &World<'_>, class: ClassId) -> bool
    ensures { result ≡ has_objects world.now class.n }
{
    !(is_abstract(world, class) || world.is_interface(class))
}

/// The class of which a new of this name makes an object.
pub fn made(world: &World<'_>, name: &[u8]) -> Result<ClassId, Kind>
    ensures { result ≡ made world.now name.now }
{
    if !is_known(world, name) {
        return Err(Kind::MissingClass);
    }
    match world.class(name) {
        Some(class) if !is_array(name) && has_objects(world, class) => Ok(class),
        _ => Err(Kind::BadNew),
    }
}
