//! The field that an access names.

ghost use Rattle.std.specs.Prelude.{◌≡◌, IfOk};
ghost use Rattle.jworld.specs.Fields.{resolved_field};
ghost use Rattle.linking.specs.Fields.{field_key, is_static, is_wanted, field_of, field_in, field_named};

use crate::floats::has_float;
use crate::keys::field_key;
use crate::known::is_known;
use crate::named::Wanted;
use classfile::{Access, Member};
use jworld::{ClassId, FieldId, World};
use kes_text::{Kind, NoMemory};
use std::alloc::Global;

/// Whether a field is static.
fn is_static(world: &World<'_>, id: FieldId) -> bool
    ensures { result ≡ is_static world.now id }
{
    let Some(file) = world.get(id.class) else {
        return false;
    };
    match file.fields().get(usize::from(id.n)) {
        Some(field) => field.flags.bits & Access::STATIC.bits != 0,
        None => false,
    }
}

/// Whether the field is what the access wants, which names it in a class.
fn is_wanted(world: &World<'_>, wanted: Wanted, class: ClassId, id: FieldId) -> bool
    ensures { result ≡ is_wanted world.now wanted class.n id }
{
    match wanted {
        Wanted::Static => is_static(world, id),
        Wanted::Instance => {
            !is_static(world, id)
                && !world.is_interface(class)
                && world.is_subclass(class, id.class)
        }
    }
}

/// The field, if it is what the access wants.
fn checked(
    alloc: Global,
    world: &World<'_>,
    wanted: Wanted,
    named: &Member<'_>,
    class: ClassId,
    found: Option<FieldId>,
) -> Result<Result<FieldId, Kind>, NoMemory>
    ensures { IfOk result (λ field. field ≡ field_of world.now wanted named.now class.n found) }
{
    match found {
        Some(id) if is_wanted(world, wanted, class, id) => {
            if has_float(alloc, named.descriptor)? {
                Ok(Err(Kind::FloatMember))
            } else {
                Ok(Ok(id))
            }
        }
        _ => Ok(Err(Kind::NoMember)),
    }
}

/// The field that is named in this class.
fn in_class(
    alloc: Global,
    world: &World<'_>,
    wanted: Wanted,
    named: &Member<'_>,
    class: ClassId,
) -> Result<Result<FieldId, Kind>, NoMemory>
    ensures { IfOk result (λ field. field ≡ field_of world.now wanted named.now class.n (resolved_field world.now (field_key named.now) class.n)) }
{
    let key = field_key(alloc, named)?;
    let found = world.resolve_field(class, &key);
    checked(alloc, world, wanted, named, class, found)
}

/// The field that an access names, or the rule that fails: MissingClass, NoMember or FloatMember, in this order.
pub fn field_named(
    alloc: Global,
    world: &World<'_>,
    wanted: Wanted,
    named: &Member<'_>,
) -> Result<Result<FieldId, Kind>, NoMemory>
    ensures { IfOk result (λ field. field ≡ field_named world.now wanted named.now) }
{
    if !is_known(world, named.class) {
        return Ok(Err(Kind::MissingClass));
    }
    match world.class(named.class) {
        Some(class) => in_class(alloc, world, wanted, named, class),
        None => Ok(Err(Kind::NoMember)),
    }
}
