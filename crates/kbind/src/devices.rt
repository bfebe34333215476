//! The native methods that hand out the objects of mapped classes.

ghost use Rattle.std.specs.Prelude.{◌≡◌, ◌++◌, IfOk, filter_map, is_some, codes};
ghost use Rattle.kbind.specs.Objects.{hands_out, device_named};
ghost use Rattle.kbind.specs.Bound.{device_faults};

use crate::methods::Methods;
use crate::natives::is_static_native;
use crate::noting::{blame, keep};
use classfile::Method;
use jworld::MethodId;
use kconfig::{DeviceLine, ObjectLine};
use kes_text::{Kind, NoMemory, Refusal, escape};
use sqlite_items::Items;
use std::alloc::Global;

/// The shown descriptor of a method without parameters that answers a class.
fn answering(alloc: Global, class: &[u8]) -> Result<Vec<u8>, NoMemory>
    ensures { IfOk result (λ text. text.items ≡ codes "()L" ++ class.now ++ codes ";") }
{
    let mut text = b"()L".to_vec(alloc)?;
    text.extend_from_slice(class)?;
    text.push(b';')?;
    Ok(text)
}

/// Whether the method is static and native, has no parameters and answers a class that is shown so.
fn hands_out(alloc: Global, class: &[u8], method: &Method<'_>) -> Result<bool, NoMemory>
    ensures { IfOk result (λ hands. hands ≡ hands_out class.now method.now) }
{
    if !is_static_native(method) {
        return Ok(false);
    }
    let descriptor = escape(alloc, method.descriptor)?;
    let wanted = answering(alloc, class)?;
    Ok(descriptor.as_slice() == wanted.as_slice())
}

/// The method of a device line.
fn device_named<'t>(
    alloc: Global,
    methods: &Methods<'t, '_, '_>,
    objects: &[ObjectLine],
    line: &'t DeviceLine,
) -> Result<Option<MethodId>, NoMemory>
    ensures { IfOk result (λ found. found ≡ device_named methods.now objects.now line.now) }
{
    let Some(found) = methods.named(line.method.as_slice()) else {
        return Ok(None);
    };
    let Some(object) = objects.get(line.object as usize) else {
        return Ok(None);
    };
    if hands_out(alloc, object.class.as_slice(), found.method)? {
        Ok(Some(found.id))
    } else {
        Ok(None)
    }
}

/// The methods of the device lines, and the lines that have none.
pub fn bind_devices<'t>(
    alloc: Global,
    methods: &Methods<'t, '_, '_>,
    objects: &[ObjectLine],
    lines: &'t [DeviceLine],
    faults: &mut Items<Refusal>,
) -> Result<Items<MethodId>, NoMemory>
    ensures members { IfOk result (λ members. members ≡ filter_map (device_named methods.now objects.now) lines.now) }
    ensures faults { IfOk result (λ _. faults.new ≡ faults.old ++ device_faults methods.now objects.now lines.now) }
{
    let mut members = Items::new(alloc);
    for line in lines {
        let found = device_named(alloc, methods, objects, line)?;
        blame(faults, found.is_some(), Kind::BadMapped, line.line)?;
        keep(&mut members, found)?;
    }
    Ok(members)
}
