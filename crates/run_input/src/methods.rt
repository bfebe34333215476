//! The code of the methods that are reached.

ghost use Rattle.std.specs.Prelude.{◌≡◌, All, IfOk, map, reverse};
ghost use Rattle.actions.specs.Known.{counts_of, IsKnown};
ghost use Rattle.method_code.specs.Method.{method_of};

use jworld::{MethodId, World};
use kbind::Bound;
use kes_text::NoMemory;
use mentions::Setting;
use method_code::MethodCode;
use method_typing::Typed;
use sqlite_items::Items;
use std::alloc::Global;

/// The code of these methods, from the last one on.
fn backwards(
    alloc: Global,
    s: &Setting<'_, '_>,
    typed: Items<Typed>,
) -> Result<Vec<MethodCode>, NoMemory>
    ensures code { IfOk result (λ methods. methods.items ≡ reverse (map (method_of s.now) typed)) }
    ensures known { IfOk result (λ methods. All (λ method. All (IsKnown (counts_of s.now.bound.config)) method.actions) methods.items) }
{
    let mut typed = typed;
    let mut methods = Vec::new(alloc);
    while let Some(one) = typed.pop() {
        methods.push(MethodCode::of(alloc, s, one)?)?;
    }
    Ok(methods)
}

/// The code of these methods.
pub fn methods_of(
    alloc: Global,
    world: &World<'_>,
    bound: &Bound,
    typed: Items<Typed>,
) -> Result<Vec<MethodCode>, NoMemory>
    ensures code { IfOk result (λ methods. methods.items ≡ map (method_of (record { files = world.now; bound = bound.now })) typed) }
    ensures known { IfOk result (λ methods. All (λ method. All (IsKnown (counts_of bound.now.config)) method.actions) methods.items) }
{
    let setting = Setting::new(alloc, world, bound)?;
    let mut methods = backwards(alloc, &setting, typed)?;
    methods.reverse();
    Ok(methods)
}

/// Which methods they are.
pub fn ids_of(alloc: Global, typed: &[Typed]) -> Result<Vec<MethodId>, NoMemory>
    ensures { IfOk result (λ ids. ids.items ≡ map (λ one. one.method) typed.now) }
{
    let mut ids = Vec::new(alloc);
    for one in typed {
        ids.push(one.method)?;
    }
    Ok(ids)
}
