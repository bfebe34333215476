//! The names by which members are looked for.

ghost use Rattle.std.specs.Prelude.{◌≡◌, IfOk};
ghost use Rattle.linking.specs.Fields.{field_key};
ghost use Rattle.linking.specs.Methods.{method_key};

use classfile::Member;
use jnames::{FieldKey, MethodKey, Name};
use kes_text::NoMemory;
use std::alloc::Global;

/// A name of its own of these bytes.
fn name_of(alloc: Global, bytes: &[u8]) -> Result<Name, NoMemory>
    ensures { IfOk result (λ name. name ≡ bytes.now) }
{
    Ok(Name::new(Vec::from_slice(alloc, bytes)?))
}

/// The name and the descriptor of a field that is named.
pub fn field_key(alloc: Global, named: &Member<'_>) -> Result<FieldKey, NoMemory>
    ensures { IfOk result (λ key. key ≡ field_key named.now) }
{
    let name = name_of(alloc, named.name)?;
    let descriptor = name_of(alloc, named.descriptor)?;
    Ok(FieldKey { name, descriptor })
}

/// The name and the descriptor of a method that is named.
pub fn method_key(alloc: Global, named: &Member<'_>) -> Result<MethodKey, NoMemory>
    ensures { IfOk result (λ key. key ≡ method_key named.now) }
{
    let name = name_of(alloc, named.name)?;
    let descriptor = name_of(alloc, named.descriptor)?;
    Ok(MethodKey { name, descriptor })
}
