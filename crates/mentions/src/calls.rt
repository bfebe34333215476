//! What calls mention.

ghost use Rattle.std.specs.Prelude.{◌≡◌, ◌++◌, ◌∷◌, [], map, IfOk, OnOk};
ghost use Rattle.std.specs.List.{list_any};
ghost use Rattle.std.specs.Option.{option_and_then};
ghost use Rattle.jworld.specs.Classes.{class_named};
ghost use Rattle.mentions.specs.Initialisers.{in_domain, initialisers};
ghost use Rattle.mentions.specs.Calls.{in_interface, outside_interfaces, is_native, method_called, unless_own, portal_called, static_called, is_of_super, special_target, special_to, special_called, virtual_to, virtual_called};

use crate::binding::Binding;
use crate::called::Called;
use crate::setting::Setting;
use crate::targets::{has_code, targets_of};
use classfile::{Access, Member};
use jworld::{ClassId, MethodId, World};
use kes_text::{Kind, NoMemory};
use linking::method_key;
use reaching::Pair;
use sqlite_items::Items;
use std::alloc::Global;

/// Whether one of the pairs' methods stands in an interface.
fn is_one_in_interface(world: &World<'_>, pairs: &[Pair]) -> bool
    ensures { result ≡ list_any (in_interface world.now) pairs.now }
{
    pairs
        .iter()
        .any(|pair| world.is_interface(pair.method.class))
}

/// Initialisers and targets, none of which stands in an interface.
fn outside_interfaces(
    world: &World<'_>,
    initialisers: Items<Pair>,
    targets: Items<Pair>,
) -> Result<Called, Kind>
    ensures { result ≡ outside_interfaces world.now initialisers targets }
{
    if is_one_in_interface(world, initialisers.as_slice())
        || is_one_in_interface(world, targets.as_slice())
    {
        Err(Kind::InterfaceCode)
    } else {
        Ok(Called {
            initialisers,
            targets,
        })
    }
}

/// Whether a method is native; the constructor of a built-in class isn't.
fn is_native(world: &World<'_>, id: MethodId) -> bool
    ensures { result ≡ is_native world.now id }
{
    let Some(file) = world.get(id.class) else {
        return false;
    };
    match file.methods().get(usize::from(id.n)) {
        Some(method) => method.flags.bits & Access::NATIVE.bits != 0,
        None => false,
    }
}

/// One pair.
fn one(alloc: Global, domain: u32, method: MethodId) -> Result<Items<Pair>, NoMemory>
    ensures { IfOk result (λ pairs. pairs ≡ in_domain domain method ∷ []) }
{
    let mut pairs = Items::new(alloc);
    pairs.push(Pair { domain, method })?;
    Ok(pairs)
}

/// What a static call of a method without a line mentions.
fn method_called(
    alloc: Global,
    s: &Setting<'_, '_>,
    domain: u32,
    id: MethodId,
) -> Result<Result<Called, Kind>, NoMemory>
    ensures { IfOk result (λ called. called ≡ method_called s.now.files domain id) }
{
    let initialisers = s.initialisers(alloc, domain, id.class)?;
    if has_code(s.world, id) {
        let targets = one(alloc, domain, id)?;
        Ok(outside_interfaces(s.world, initialisers, targets))
    } else if is_one_in_interface(s.world, initialisers.as_slice()) {
        Ok(Err(Kind::InterfaceCode))
    } else {
        Ok(Err(Kind::NoTarget))
    }
}

/// Not where the server's domain is the caller's.
fn unless_own(domain: u32, server: u32, called: Result<Called, Kind>) -> Result<Called, Kind>
    ensures { result ≡ unless_own domain server called }
{
    let called = called?;
    if domain == server {
        Err(Kind::OwnPortal)
    } else {
        Ok(called)
    }
}

/// What a call of a portal mentions.
fn portal_called(
    alloc: Global,
    s: &Setting<'_, '_>,
    domain: u32,
    id: MethodId,
    server: u32,
    target: MethodId,
) -> Result<Result<Called, Kind>, NoMemory>
    ensures { IfOk result (λ called. called ≡ portal_called s.now.files domain id server target) }
{
    let mut initialisers = s.initialisers(alloc, domain, id.class)?;
    initialisers.append(s.initialisers(alloc, server, target.class)?)?;
    let targets = one(alloc, server, target)?;
    let called = outside_interfaces(s.world, initialisers, targets);
    Ok(unless_own(domain, server, called))
}

/// What a call of a service or a device mentions, as what an access of a static field does: the class.
pub fn class_reached(
    alloc: Global,
    s: &Setting<'_, '_>,
    domain: u32,
    class: ClassId,
) -> Result<Result<Called, Kind>, NoMemory>
    ensures { IfOk result (λ called. called ≡ outside_interfaces s.now.files (initialisers s.now.files domain class.n) []) }
{
    let initialisers = s.initialisers(alloc, domain, class)?;
    Ok(outside_interfaces(s.world, initialisers, Items::new(alloc)))
}

/// What a static call mentions.
pub fn static_called(
    alloc: Global,
    s: &Setting<'_, '_>,
    domain: u32,
    id: MethodId,
) -> Result<Result<Called, Kind>, NoMemory>
    ensures { IfOk result (λ called. called ≡ static_called s.now domain id) }
{
    match s.binding(id) {
        Some(
            Binding::Portal {
                domain: server,
                target,
            },
        ) => portal_called(alloc, s, domain, id, server, target),
        Some(_) => class_reached(alloc, s, domain, id.class),
        None if is_native(s.world, id) => Ok(Err(Kind::Unbound)),
        None => method_called(alloc, s, domain, id),
    }
}

/// Whether a call in a class of this number names a method of a proper superclass, and no constructor.
fn is_of_super(world: &World<'_>, own: ClassId, named: &Member<'_>, class: ClassId) -> bool
    ensures { result ≡ is_of_super world.now own.n named.now class.n }
{
    named.name != b"<init>".as_slice() && class.n != own.n && world.is_subclass(own, class)
}

/// The method that a special call runs, which stands in a class of this number and names a method that resolves to this one
/// (JVMS SE 8, 6.5 invokespecial). None where a superclass's method is called and none is selected.
pub fn special_target(
    alloc: Global,
    world: &World<'_>,
    own: ClassId,
    named: &Member<'_>,
    id: MethodId,
) -> Result<Option<MethodId>, NoMemory>
    ensures { IfOk result (λ found. found ≡ special_target world.now own.n named.now (class_named world.now named.now.class) id) }
{
    match world.class(named.class) {
        Some(class) if is_of_super(world, own, named, class) => {
            let key = method_key(alloc, named)?;
            match world.super_of(own) {
                Some(above) => Ok(world.select(above, &key)),
                None => Ok(None),
            }
        }
        _ => Ok(Some(id)),
    }
}

/// What a special call of this method mentions.
fn special_to(
    alloc: Global,
    world: &World<'_>,
    domain: u32,
    found: Option<MethodId>,
) -> Result<Result<Called, Kind>, NoMemory>
    ensures { IfOk result (λ called. called ≡ special_to world.now domain found) }
{
    let Some(id) = found else {
        return Ok(Err(Kind::NoTarget));
    };
    if id.class.n < 4 {
        return Ok(Ok(Called {
            initialisers: Items::new(alloc),
            targets: Items::new(alloc),
        }));
    }
    if !has_code(world, id) {
        return Ok(Err(Kind::NoTarget));
    }
    let targets = one(alloc, domain, id)?;
    Ok(outside_interfaces(world, Items::new(alloc), targets))
}

/// What a special call in a class of this number mentions.
pub fn special_called(
    alloc: Global,
    world: &World<'_>,
    domain: u32,
    own: ClassId,
    named: &Member<'_>,
    id: MethodId,
) -> Result<Result<Called, Kind>, NoMemory>
    ensures { IfOk result (λ called. called ≡ special_called world.now domain own.n named.now id) }
{
    if is_native(world, id) {
        return Ok(Err(Kind::Unbound));
    }
    let found = special_target(alloc, world, own, named, id)?;
    special_to(alloc, world, domain, found)
}

/// What a call of a receiver's method mentions.
pub fn virtual_called(
    alloc: Global,
    world: &World<'_>,
    domain: u32,
    named: &Member<'_>,
    id: MethodId,
) -> Result<Result<Called, Kind>, NoMemory>
    ensures { IfOk result (λ called. called ≡ virtual_called world.now domain named.now id) }
{
    if is_native(world, id) {
        return Ok(Err(Kind::Unbound));
    }
    let Some(class) = world.class(named.class) else {
        return Ok(Err(Kind::NoTarget));
    };
    let key = method_key(alloc, named)?;
    let Some(targets) = targets_of(alloc, world, &key, class)? else {
        return Ok(Err(Kind::NoTarget));
    };
    let targets = targets.in_domain(alloc, domain)?;
    Ok(outside_interfaces(world, Items::new(alloc), targets))
}
