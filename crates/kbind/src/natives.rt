//! The native methods that call services.

ghost use Rattle.std.specs.Prelude.{◌≡◌, ◌++◌, ◌&&◌, IfOk, filter_map, is_some};
ghost use Rattle.kbind.specs.Methods.{is_native};
ghost use Rattle.jworld.specs.Members.{is_static};
ghost use Rattle.kbind.specs.Natives.{descriptor_of, is_bound_to, native_named};
ghost use Rattle.kbind.specs.Bound.{native_faults};

use crate::methods::Methods;
use crate::noting::{blame, keep};
use classfile::{Access, Method};
use jworld::MethodId;
use kconfig::{NativeLine, Service};
use kes_text::{Kind, NoMemory, Refusal};
use sqlite_items::Items;
use std::alloc::Global;

/// Whether a method is static.
pub fn is_static(method: &Method<'_>) -> bool
    ensures { result ≡ is_static method.now }
{
    method.flags.bits & Access::STATIC.bits != 0
}

/// Whether a method is static and native.
pub fn is_static_native(method: &Method<'_>) -> bool
    ensures { result ≡ (is_static method.now && is_native method.now) }
{
    is_static(method) && method.flags.bits & Access::NATIVE.bits != 0
}

/// The descriptor of the methods that call a service.
fn descriptor_of(service: Service) -> &'static [u8]
    ensures { result.now ≡ descriptor_of service }
{
    match service {
        Service::SetRelAlarm { .. } | Service::SetAbsAlarm { .. } => b"(II)I",
        _ => b"()I",
    }
}

/// Whether a method is static and native, and has this descriptor.
fn is_bound_to(method: &Method<'_>, descriptor: &[u8]) -> bool
    ensures { result ≡ is_bound_to descriptor.now method.now }
{
    is_static_native(method) && method.descriptor == descriptor
}

/// The method of a native line.
fn native_named<'t>(methods: &Methods<'t, '_, '_>, line: &'t NativeLine) -> Option<MethodId>
    ensures { result ≡ native_named methods.now line.now }
{
    let found = methods.named(line.method.as_slice())?;
    if is_bound_to(found.method, descriptor_of(line.service)) {
        Some(found.id)
    } else {
        None
    }
}

/// The methods of the native lines, and the lines that have none.
pub fn bind_natives<'t>(
    alloc: Global,
    methods: &Methods<'t, '_, '_>,
    lines: &'t [NativeLine],
    faults: &mut Items<Refusal>,
) -> Result<Items<MethodId>, NoMemory>
    ensures members { IfOk result (λ members. members ≡ filter_map (native_named methods.now) lines.now) }
    ensures faults { IfOk result (λ _. faults.new ≡ faults.old ++ native_faults methods.now lines.now) }
{
    let mut members = Items::new(alloc);
    for line in lines {
        let found = native_named(methods, line);
        blame(faults, found.is_some(), Kind::BadNative, line.line)?;
        keep(&mut members, found)?;
    }
    Ok(members)
}
