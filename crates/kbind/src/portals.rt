//! The methods of portals and their targets.

ghost use Rattle.std.specs.Prelude.{◌≡◌, ◌++◌, IfOk, filter_map, is_some};
ghost use Rattle.std.specs.Option.{option_copied};
ghost use Rattle.jnames.specs.Descriptors.{signature_of};
ghost use Rattle.kbind.specs.Portals.{is_number_shape, is_handed_back, answers_number, is_portal, portal_named};
ghost use Rattle.kbind.specs.Bound.{portal_faults};

use crate::methods::Methods;
use crate::natives::{is_static, is_static_native};
use crate::noting::{blame, keep};
use classfile::Method;
use jnames::{DescFault, Descriptor, Param, Shape};
use jworld::MethodId;
use kconfig::PortalLine;
use kes_text::{Kind, NoMemory, Refusal};
use sqlite_items::Items;
use std::alloc::{AllocError, Global};

/// Whether values of the shape are handed back as numbers.
fn is_number_shape(shape: Shape) -> bool
    ensures { result ≡ is_number_shape shape }
{
    !matches!(
        shape,
        Shape::Float | Shape::Double | Shape::Class | Shape::Array
    )
}

/// Whether it is void, or a type that is handed back as a number.
fn is_handed_back(answer: Option<&Param>) -> bool
    ensures { result ≡ is_handed_back (option_copied answer.entry) }
{
    match answer {
        Some(answer) => is_number_shape(answer.shape),
        None => true,
    }
}

/// Whether a method of this descriptor answers nothing or a number.
fn answers_number(alloc: Global, descriptor: &[u8]) -> Result<bool, NoMemory>
    ensures { IfOk result (λ answers. answers ≡ answers_number (signature_of descriptor.now)) }
{
    match Descriptor::read(alloc, descriptor) {
        Ok(found) => Ok(found.is_method() && is_handed_back(found.answer())),
        Err(DescFault::Bad) => Ok(false),
        Err(DescFault::NoMemory) => Err(AllocError),
    }
}

/// Whether the two are a portal's method and its target.
fn is_portal(alloc: Global, method: &Method<'_>, target: &Method<'_>) -> Result<bool, NoMemory>
    ensures { IfOk result (λ fits. fits ≡ is_portal method.now target.now) }
{
    let bound = is_static_native(method) && is_static(target) && target.code.is_some();
    if bound && method.descriptor == target.descriptor {
        return answers_number(alloc, method.descriptor);
    }
    Ok(false)
}

/// The native method of a portal line, and its target.
fn portal_named<'t>(
    alloc: Global,
    methods: &Methods<'t, '_, '_>,
    line: &'t PortalLine,
) -> Result<Option<(MethodId, MethodId)>, NoMemory>
    ensures { IfOk result (λ found. found ≡ portal_named methods.now line.now) }
{
    let Some(method) = methods.named(line.method.as_slice()) else {
        return Ok(None);
    };
    let Some(target) = methods.named(line.target.as_slice()) else {
        return Ok(None);
    };
    if is_portal(alloc, method.method, target.method)? {
        Ok(Some((method.id, target.id)))
    } else {
        Ok(None)
    }
}

/// The methods and targets of the portal lines, and the lines that have none.
pub fn bind_portals<'t>(
    alloc: Global,
    methods: &Methods<'t, '_, '_>,
    lines: &'t [PortalLine],
    faults: &mut Items<Refusal>,
) -> Result<Items<(MethodId, MethodId)>, NoMemory>
    ensures members { IfOk result (λ members. members ≡ filter_map (portal_named methods.now) lines.now) }
    ensures faults { IfOk result (λ _. faults.new ≡ faults.old ++ portal_faults methods.now lines.now) }
{
    let mut members = Items::new(alloc);
    for line in lines {
        let found = portal_named(alloc, methods, line)?;
        blame(faults, found.is_some(), Kind::BadPortal, line.line)?;
        keep(&mut members, found)?;
    }
    Ok(members)
}
