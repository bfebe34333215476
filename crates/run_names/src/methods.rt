//! The names of methods.
ghost use Rattle.std.specs.Prelude.{◌≡◌, IfOk, map};
ghost use Rattle.run_names.specs.Methods.{shown_method, method_name};

use classfile::Method;
use jworld::{MethodId, World};
use kes_text::{NoMemory, escape};
use sqlite_items::Items;
use std::alloc::Global;

/// A method of a class as it is shown.
fn shown_method(alloc: Global, class: &[u8], method: &Method<'_>) -> Result<Items<u8>, NoMemory>
    ensures { IfOk result (λ name. name ≡ shown_method class.now method.now) }
{
    let name = escape(alloc, method.name)?;
    let descriptor = escape(alloc, method.descriptor)?;
    let mut text = escape(alloc, class)?;
    text.push(b'.')?;
    text.extend_from_slice(name.as_slice())?;
    text.extend_from_slice(descriptor.as_slice())?;
    Ok(Items::from_vec(text))
}

/// A method of the world as it is shown; no bytes where there is no file of its class, or no method of its number there.
fn method_name(alloc: Global, world: &World<'_>, id: MethodId) -> Result<Items<u8>, NoMemory>
    ensures { IfOk result (λ name. name ≡ method_name world.now id) }
{
    let Some(file) = world.get(id.class) else {
        return Ok(Items::new(alloc));
    };
    match file.methods().get(id.n as usize) {
        Some(method) => shown_method(alloc, file.name(), method),
        None => Ok(Items::new(alloc)),
    }
}

/// The methods as they are shown: the name of the class, `.`, the name of the method and its descriptor, in the order
/// in which they are given.
///
/// The only fault is want of memory. Time and memory are in proportion to the texts' length.
pub fn method_names(
    alloc: Global,
    world: &World<'_>,
    methods: &[MethodId],
) -> Result<Items<Items<u8>>, NoMemory>
    ensures { IfOk result (λ names. names ≡ map (method_name world.now) methods.now) }
{
    let mut names = Items::new(alloc);
    for method in methods {
        names.push(method_name(alloc, world, *method)?)?;
    }
    Ok(names)
}
