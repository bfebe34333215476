//! The methods of the reached pairs, each once.

ghost use Rattle.std.specs.Prelude.{◌≡◌, ◌∷◌, [], filter_map, IfOk, OnOk};
ghost use Rattle.std.specs.Result.{result_ok};
ghost use Rattle.method_typing.specs.Method.{method_typed};
ghost use Rattle.reach.specs.Typings.{with_method, methods_of, typings_of, with_typing};

use jworld::{MethodId, World};
use kes_text::{NoMemory, Stop};
use method_typing::{Typed, type_method};
use reaching::{Pair, Pairs};
use sqlite_items::Items;
use std::alloc::{AllocError, Global};

/// Puts the method of a pair behind the others, if there is a pair and the method isn't there yet.
fn add_method(methods: &mut Pairs, pair: Option<Pair>) -> Result<(), NoMemory>
    ensures { OnOk result (methods.new ≡ with_method methods.old pair) }
{
    match pair {
        Some(pair) => methods.add(Pair { domain: 0, ..pair }),
        None => Ok(()),
    }
}

/// The methods of pairs, each once, as pairs of one domain.
fn methods_of(alloc: Global, pairs: &Pairs) -> Result<Pairs, NoMemory>
    ensures { IfOk result (λ methods. methods ≡ methods_of pairs.now) }
{
    let mut methods = Pairs::new(alloc);
    for n in 0..pairs.len() {
        add_method(&mut methods, pairs.get(n))?;
    }
    Ok(methods)
}

/// Puts a method behind the others, if it is well typed.
fn add(
    alloc: Global,
    world: &World<'_>,
    method: MethodId,
    typed: &mut Items<Typed>,
) -> Result<(), NoMemory>
    ensures { OnOk result (typed.new ≡ with_typing typed.old (method_typed world.now method)) }
{
    match type_method(alloc, world, method) {
        Ok(one) => {
            typed.push(one)?;
            Ok(())
        }
        Err(Stop::Refused(_fault)) => Ok(()),
        Err(Stop::NoMemory) => Err(AllocError),
    }
}

/// Those of the methods that are well typed.
fn each_typed(alloc: Global, world: &World<'_>, methods: &Pairs) -> Result<Items<Typed>, NoMemory>
    ensures { IfOk result (λ typed. typed ≡ filter_map (λ pair. result_ok (method_typed world.now pair.method)) methods.now) }
{
    let mut typed = Items::new(alloc);
    for n in 0..methods.len() {
        let Some(pair) = methods.get(n) else {
            return Ok(typed);
        };
        add(alloc, world, pair.method, &mut typed)?;
    }
    Ok(typed)
}

/// The methods of pairs, each once, with their instructions and frames.
pub fn typings_of(alloc: Global, world: &World<'_>, pairs: &Pairs) -> Result<Items<Typed>, NoMemory>
    ensures { IfOk result (λ typed. typed ≡ typings_of world.now pairs.now) }
{
    let methods = methods_of(alloc, pairs)?;
    each_typed(alloc, world, &methods)
}
