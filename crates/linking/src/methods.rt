//! The method that a call names.

ghost use Rattle.std.specs.Prelude.{◌≡◌, IfOk};
ghost use Rattle.jworld.specs.Methods.{resolved_method};
ghost use Rattle.linking.specs.Methods.{method_key, is_static, is_wanted, is_named_as, method_of, method_named};

use crate::floats::has_float;
use crate::keys::method_key;
use crate::known::{is_array, is_known};
use crate::named::Wanted;
use classfile::{Access, Member, MemberKind};
use jworld::{ClassId, MethodId, World};
use kes_text::{Kind, NoMemory};
use std::alloc::Global;

/// Whether a method is static; the constructor of a built-in class isn't.
fn is_static(world: &World<'_>, id: MethodId) -> bool
    ensures { result ≡ is_static world.now id }
{
    let Some(file) = world.get(id.class) else {
        return false;
    };
    match file.methods().get(usize::from(id.n)) {
        Some(method) => method.flags.bits & Access::STATIC.bits != 0,
        None => false,
    }
}

/// Whether a method is what the call wants.
fn is_wanted(world: &World<'_>, wanted: Wanted, id: MethodId) -> bool
    ensures { result ≡ is_wanted world.now wanted id }
{
    match wanted {
        Wanted::Static => is_static(world, id),
        Wanted::Instance => !is_static(world, id),
    }
}

/// Whether the class, which is an interface or none, is named as it is to be.
fn is_named_as(is_interface: bool, kind: MemberKind) -> bool
    ensures { result ≡ is_named_as is_interface kind }
{
    match kind {
        MemberKind::Interface => is_interface,
        _ => !is_interface,
    }
}

/// The method, if it is what the call wants, which names it in a class.
fn checked(
    alloc: Global,
    world: &World<'_>,
    wanted: Wanted,
    named: &Member<'_>,
    class: ClassId,
    found: Option<MethodId>,
) -> Result<Result<MethodId, Kind>, NoMemory>
    ensures { IfOk result (λ method. method ≡ method_of world.now wanted named.now class.n found) }
{
    match found {
        Some(id)
            if is_wanted(world, wanted, id) && is_named_as(world.is_interface(class), named.kind) =>
            {
                if has_float(alloc, named.descriptor)? {
                    Ok(Err(Kind::FloatMember))
                } else {
                    Ok(Ok(id))
                }
            }
        _ => Ok(Err(Kind::NoMember)),
    }
}

/// The method that is named in this class.
fn in_class(
    alloc: Global,
    world: &World<'_>,
    wanted: Wanted,
    named: &Member<'_>,
    class: ClassId,
) -> Result<Result<MethodId, Kind>, NoMemory>
    ensures { IfOk result (λ method. method ≡ method_of world.now wanted named.now class.n (resolved_method world.now (method_key named.now) class.n)) }
{
    let key = method_key(alloc, named)?;
    let found = world.resolve_method(class, &key);
    checked(alloc, world, wanted, named, class, found)
}

/// The method that a call names, or the rule that fails: MissingClass, ArrayMethod, NoMember or FloatMember, in this order.
pub fn method_named(
    alloc: Global,
    world: &World<'_>,
    wanted: Wanted,
    named: &Member<'_>,
) -> Result<Result<MethodId, Kind>, NoMemory>
    ensures { IfOk result (λ method. method ≡ method_named world.now wanted named.now) }
{
    if !is_known(world, named.class) {
        return Ok(Err(Kind::MissingClass));
    }
    if is_array(named.class) {
        return Ok(Err(Kind::ArrayMethod));
    }
    match world.class(named.class) {
        Some(class) => in_class(alloc, world, wanted, named, class),
        None => Ok(Err(Kind::NoMember)),
    }
}
