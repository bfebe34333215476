//! The frame at the start of a method (JVMS SE 8, 4.10.1.6).

ghost use Rattle.std.specs.Prelude.{◌≡◌, ◌++◌, map, IfOk};
ghost use Rattle.jnames.specs.Descriptors.{signature_of};
ghost use Rattle.stackmap.specs.Start.{type_of, is_static, this_of, these, parameters_by, start_of};

use crate::frame::Frame;
use crate::vtype::VType;
use classfile::{Access, Class, Method};
use jnames::{DescFault, Descriptor, Param, Shape};
use kes_text::NoMemory;
use sqlite_items::Items;
use std::alloc::{AllocError, Global};

/// The type of a parameter.
fn type_of(alloc: Global, param: &Param) -> Result<VType, NoMemory>
    ensures { IfOk result (λ found. found ≡ type_of param.now) }
{
    match param.shape {
        Shape::Long => Ok(VType::Long),
        Shape::Float => Ok(VType::Float),
        Shape::Double => Ok(VType::Double),
        Shape::Class | Shape::Array => {
            let name = Items::from_slice(alloc, param.name.as_slice())?;
            Ok(VType::Object(name))
        }
        _ => Ok(VType::Integer),
    }
}

fn is_static(flags: Access) -> bool
    ensures { result ≡ is_static flags.bits }
{
    flags.bits & Access::STATIC.bits != 0
}

/// `this` at the start of the method of this name.
fn this_of(alloc: Global, class: &[u8], method: &[u8]) -> Result<VType, NoMemory>
    ensures { IfOk result (λ this. this ≡ this_of class.now method.now) }
{
    if method == b"<init>".as_slice() {
        Ok(VType::UninitThis)
    } else {
        Ok(VType::Object(Items::from_slice(alloc, class)?))
    }
}

fn these(alloc: Global, class: &Class<'_>, method: &Method<'_>) -> Result<Items<VType>, NoMemory>
    ensures { IfOk result (λ locals. locals ≡ these class.now method.now) }
{
    let mut locals = Items::new(alloc);
    if !is_static(method.flags) {
        locals.push(this_of(alloc, class.name(), method.name)?)?;
    }
    Ok(locals)
}

/// The locals with those of the parameters behind them.
fn with_parameters(
    alloc: Global,
    before: Items<VType>,
    parameters: &[Param],
) -> Result<Items<VType>, NoMemory>
    ensures { IfOk result (λ locals. locals ≡ before ++ map type_of parameters.now) }
{
    let mut locals = before;
    for parameter in parameters {
        locals.push(type_of(alloc, parameter)?)?;
    }
    Ok(locals)
}

/// The frame at the start of a method of the class (JVMS SE 8, 4.10.1.6): `this`, where the method isn't
/// static, and then the parameters. The operand stack is empty.
pub fn start_frame(alloc: Global, class: &Class<'_>, method: &Method<'_>) -> Result<Frame, NoMemory>
    ensures { IfOk result (λ frame. frame ≡ start_of class.now method.now) }
{
    let these = these(alloc, class, method)?;
    let locals = match Descriptor::read(alloc, method.descriptor) {
        Ok(descriptor) => with_parameters(alloc, these, descriptor.parameters())?,
        Err(DescFault::Bad) => these,
        Err(DescFault::NoMemory) => return Err(AllocError),
    };
    let stack = Items::new(alloc);
    Ok(Frame { locals, stack })
}
