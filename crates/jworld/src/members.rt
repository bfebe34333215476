//! The fields and methods that a class itself declares (JVMS SE 8, 4.5 and 4.6).

ghost use Rattle.std.specs.Prelude.{◌≡◌, ◌&&◌, nat_lt, Some, None, if◌then◌else◌};
ghost use Rattle.jworld.specs.Members.{is_method, is_inherited, is_abstract, built_in_constructor};

use crate::classes::BUILT_IN_COUNT;
use crate::ids::ClassId;
use classfile::{Access, Method};
use jnames::MethodKey;

/// Whether a method is an instance method that isn't private.
pub fn is_inherited(method: &Method<'_>) -> bool
    ensures { result ≡ is_inherited method.now }
{
    let flags = method.flags.bits;
    flags & Access::PRIVATE.bits == 0 && flags & Access::STATIC.bits == 0
}

/// Whether a method is abstract.
pub fn is_abstract(method: &Method<'_>) -> bool
    ensures { result ≡ is_abstract method.now }
{
    method.flags.bits & Access::ABSTRACT.bits != 0
}

/// Whether a key is that of the constructor which each built-in class has.
fn is_built_in_constructor(key: &MethodKey) -> bool
    ensures { result ≡ is_method key.now built_in_constructor }
{
    key.name.as_slice() == b"<init>".as_slice() && key.descriptor.as_slice() == b"()V".as_slice()
}

/// The place of a method of a built-in class: it has its constructor alone.
pub fn built_in_place(class: ClassId, key: &MethodKey) -> Option<usize>
    ensures { result ≡ (if nat_lt class.n 4 && is_method key.now built_in_constructor then Some 0 else None) }
{
    if class.n < BUILT_IN_COUNT && is_built_in_constructor(key) {
        Some(0)
    } else {
        None
    }
}
