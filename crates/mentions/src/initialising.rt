//! The initialisers of classes.

ghost use Rattle.std.specs.Prelude.{◌≡◌, None, map, reverse, filter_map, position, slice_index_or, option_to_list, ◌++◌, IfOk, OnOk};
ghost use Rattle.std.specs.List.{range_with_len};
ghost use Rattle.jworld.specs.Members.{methods_in};
ghost use Rattle.jworld.specs.Classes.{file_of, count};
ghost use Rattle.mentions.specs.Initialisers.{is_initialiser, initialiser_of, in_domain, initialisers};
ghost use Rattle.jworld.specs.Upwards.{upwards};

use classfile::{Access, Method};
use jworld::{ClassId, MethodId, World};
use kes_text::NoMemory;
use reaching::Pair;
use sqlite_items::Items;
use std::alloc::Global;

/// Whether a method is the initialiser of its class: a static `<clinit>()V` with code.
pub fn is_initialiser(method: &Method<'_>) -> bool
    ensures { result ≡ is_initialiser method.now }
{
    method.name == b"<clinit>".as_slice()
        && method.descriptor == b"()V".as_slice()
        && method.flags.bits & Access::STATIC.bits != 0
        && method.code.is_some()
}

/// The place of the first initialiser among methods.
fn place_in(methods: &[Method<'_>]) -> Option<usize>
    ensures { result ≡ position is_initialiser methods.now }
{
    methods.iter().position(|method| is_initialiser(method))
}

/// The initialiser of a class.
fn find(world: &World<'_>, class: ClassId) -> Option<MethodId>
    ensures { result ≡ initialiser_of world.now class.n }
{
    let file = world.get(class)?;
    let place = place_in(file.methods())?;
    Some(MethodId {
        class,
        n: place as u16,
    })
}

/// The initialiser of each class of a world, by its number.
pub fn find_all(alloc: Global, world: &World<'_>) -> Result<Items<Option<MethodId>>, NoMemory>
    ensures { IfOk result (λ all. all ≡ map (initialiser_of world.now) (range_with_len 0 (count world.now))) }
{
    let mut all = Items::new(alloc);
    for n in 0..world.count() {
        all.push(find(world, ClassId { n }))?;
    }
    Ok(all)
}

/// The initialiser of a class, by that of each class.
fn initialiser(all: &[Option<MethodId>], class: ClassId) -> Option<MethodId>
    ensures { result ≡ slice_index_or all.now class.n None }
{
    match all.get(class.n as usize) {
        Some(found) => *found,
        None => None,
    }
}

/// Pairs of these methods in a domain, the last first.
fn pairs_of(alloc: Global, domain: u32, methods: &[MethodId]) -> Result<Items<Pair>, NoMemory>
    ensures { IfOk result (λ pairs. pairs ≡ map (in_domain domain) (reverse methods.now)) }
{
    let mut pairs = Items::new(alloc);
    for method in methods.iter().rev() {
        let method = *method;
        pairs.push(Pair { domain, method })?;
    }
    Ok(pairs)
}

/// Puts a method behind the others, if there is one.
fn put(found: &mut Vec<MethodId>, method: Option<MethodId>) -> Result<(), NoMemory>
    ensures { OnOk result (found.new.items ≡ found.old.items ++ option_to_list method) }
{
    if let Some(method) = method {
        found.push(method)?;
    }
    Ok(())
}

/// The initialisers of a class and its superclasses, upwards.
fn upwards(
    alloc: Global,
    world: &World<'_>,
    all: &[Option<MethodId>],
    class: ClassId,
) -> Result<Vec<MethodId>, NoMemory>
    ensures { IfOk result (λ found. found.items ≡ filter_map (λ c. slice_index_or all.now c None) (upwards world.now class.n)) }
{
    let mut found = Vec::new(alloc);
    let mut next = Some(class);
    for _step in 0..world.count() {
        let Some(class) = next else {
            return Ok(found);
        };
        put(&mut found, initialiser(all, class))?;
        next = world.super_of(class);
    }
    Ok(found)
}

/// The initialisers of a class and its superclasses in a domain, that of the superclass first, by the initialiser of each
/// class.
pub fn initialisers(
    alloc: Global,
    world: &World<'_>,
    all: &[Option<MethodId>],
    domain: u32,
    class: ClassId,
) -> Result<Items<Pair>, NoMemory>
    requires { all.now ≡ map (initialiser_of world.now) (range_with_len 0 (count world.now)) }
    ensures { IfOk result (λ pairs. pairs ≡ initialisers world.now domain class.n) }
{
    let found = upwards(alloc, world, all, class)?;
    pairs_of(alloc, domain, found.as_slice())
}
