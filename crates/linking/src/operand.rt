//! What the operand of an instruction names.

ghost use Rattle.std.specs.Prelude.{◌≡◌, IfOk};
ghost use Rattle.classfile.specs.Pool.{class_name, member};
ghost use Rattle.linking.specs.Linked.{object_by, type_by, field_by, method_by, linked};

use crate::fields::field_named;
use crate::known::is_known;
use crate::methods::method_named;
use crate::named::{Named, Wanted};
use crate::objects::made;
use classfile::Class;
use jcode::Op;
use jworld::World;
use kes_text::{Kind, NoMemory};
use std::alloc::Global;

/// The class that new names.
fn object_by(world: &World<'_>, file: &Class<'_>, index: u16) -> Result<Named, Kind>
    ensures { result ≡ object_by world.now (class_name file.now.pool index) }
{
    match file.class_at(index) {
        Some(name) => Ok(Named::Class(made(world, name)?)),
        None => Err(Kind::MissingClass),
    }
}

/// A type that is named.
fn type_by(world: &World<'_>, file: &Class<'_>, index: u16) -> Result<Named, Kind>
    ensures { result ≡ type_by world.now (class_name file.now.pool index) }
{
    match file.class_at(index) {
        Some(name) if is_known(world, name) => Ok(Named::Nothing),
        _ => Err(Kind::MissingClass),
    }
}

/// The field that an access names.
fn field_by(
    alloc: Global,
    world: &World<'_>,
    wanted: Wanted,
    file: &Class<'_>,
    index: u16,
) -> Result<Result<Named, Kind>, NoMemory>
    ensures { IfOk result (λ found. found ≡ field_by world.now wanted (member file.now.pool index)) }
{
    let Some(named) = file.member(index) else {
        return Ok(Err(Kind::NoMember));
    };
    match field_named(alloc, world, wanted, &named)? {
        Ok(field) => Ok(Ok(Named::Field(field))),
        Err(rule) => Ok(Err(rule)),
    }
}

/// The method that a call names.
fn method_by(
    alloc: Global,
    world: &World<'_>,
    wanted: Wanted,
    file: &Class<'_>,
    index: u16,
) -> Result<Result<Named, Kind>, NoMemory>
    ensures { IfOk result (λ found. found ≡ method_by world.now wanted (member file.now.pool index)) }
{
    let Some(named) = file.member(index) else {
        return Ok(Err(Kind::NoMember));
    };
    match method_named(alloc, world, wanted, &named)? {
        Ok(method) => Ok(Ok(Named::Method(method))),
        Err(rule) => Ok(Err(rule)),
    }
}

/// What the operand of an instruction names, which stands in a class of this file (JVMS SE 8, 5.4.3).
///
/// Or the first rule of the profile that fails: `MissingClass`, where the class that is named isn't in the world;
/// `ArrayMethod`, a call of an array's; `NoMember`, where there is no such member, or it is static and wasn't to be, or
/// not and was, or is named in a class or an interface and was to be in the other; `FloatMember`, where float or double
/// is among its types; `BadNew`, where new names an array, an abstract class or an interface.
#[tactic(auto, unfolding(crate::specs::Linked::linked))]
pub fn linked(
    alloc: Global,
    world: &World<'_>,
    file: &Class<'_>,
    op: &Op,
) -> Result<Result<Named, Kind>, NoMemory>
    ensures { IfOk result (λ found. found ≡ linked world.now file.now op.now) }
{
    match op {
        Op::New { index } => Ok(object_by(world, file, *index)),
        Op::NewRefs { index } | Op::CheckCast { index } | Op::InstanceOf { index } => {
            Ok(type_by(world, file, *index))
        }
        Op::GetStatic { index } | Op::PutStatic { index } => {
            field_by(alloc, world, Wanted::Static, file, *index)
        }
        Op::GetField { index } | Op::PutField { index } => {
            field_by(alloc, world, Wanted::Instance, file, *index)
        }
        Op::InvokeStatic { index } => method_by(alloc, world, Wanted::Static, file, *index),
        Op::InvokeVirtual { index } | Op::InvokeSpecial { index } | Op::InvokeInterface { index } =>
            { method_by(alloc, world, Wanted::Instance, file, *index) }
        _ => Ok(Ok(Named::Nothing)),
    }
}
