//! What an instruction mentions.

ghost use Rattle.std.specs.Prelude.{◌≡◌, IfOk};
ghost use Rattle.classfile.specs.Pool.{member};
ghost use Rattle.mentions.specs.Mentioned.{nothing, object_made, field_accessed, special_by, virtual_by, method_called, mentioned};

use crate::called::Called;
use crate::calls::{class_reached, special_called, static_called, virtual_called};
use crate::setting::Setting;
use classfile::Class;
use jcode::Op;
use jworld::{ClassId, FieldId, MethodId};
use kes_text::{Kind, NoMemory};
use linking::{Named, linked};
use sqlite_items::Items;
use std::alloc::Global;

fn nothing(alloc: Global) -> Called
    ensures { result ≡ nothing }
{
    Called {
        initialisers: Items::new(alloc),
        targets: Items::new(alloc),
    }
}

/// What a new of a class mentions.
fn object_made(
    alloc: Global,
    s: &Setting<'_, '_>,
    domain: u32,
    class: ClassId,
) -> Result<Result<Called, Kind>, NoMemory>
    ensures { IfOk result (λ called. called ≡ object_made s.now domain class) }
{
    if s.is_mapped(class) {
        Ok(Err(Kind::BadNew))
    } else {
        class_reached(alloc, s, domain, class)
    }
}

/// What an access of a field mentions.
fn field_accessed(
    alloc: Global,
    s: &Setting<'_, '_>,
    domain: u32,
    op: &Op,
    field: FieldId,
) -> Result<Result<Called, Kind>, NoMemory>
    ensures { IfOk result (λ called. called ≡ field_accessed s.now domain op.now field) }
{
    match op {
        Op::GetStatic { .. } | Op::PutStatic { .. } => {
            class_reached(alloc, s, domain, field.class)
        }
        _ => Ok(Ok(nothing(alloc))),
    }
}

fn special_by(
    alloc: Global,
    s: &Setting<'_, '_>,
    domain: u32,
    own: ClassId,
    file: &Class<'_>,
    index: u16,
    id: MethodId,
) -> Result<Result<Called, Kind>, NoMemory>
    ensures { IfOk result (λ called. called ≡ special_by s.now domain own.n (member file.now.pool index) id) }
{
    match file.member(index) {
        Some(named) => special_called(alloc, s.world, domain, own, &named, id),
        None => Ok(Err(Kind::NoMember)),
    }
}

fn virtual_by(
    alloc: Global,
    s: &Setting<'_, '_>,
    domain: u32,
    file: &Class<'_>,
    index: u16,
    id: MethodId,
) -> Result<Result<Called, Kind>, NoMemory>
    ensures { IfOk result (λ called. called ≡ virtual_by s.now domain (member file.now.pool index) id) }
{
    match file.member(index) {
        Some(named) => virtual_called(alloc, s.world, domain, &named, id),
        None => Ok(Err(Kind::NoMember)),
    }
}

/// What a call of a method mentions.
fn method_called(
    alloc: Global,
    s: &Setting<'_, '_>,
    domain: u32,
    own: ClassId,
    file: &Class<'_>,
    op: &Op,
    id: MethodId,
) -> Result<Result<Called, Kind>, NoMemory>
    ensures { IfOk result (λ called. called ≡ method_called s.now domain own.n file.now op.now id) }
{
    match op {
        Op::InvokeStatic { .. } => static_called(alloc, s, domain, id),
        Op::InvokeSpecial { index } => special_by(alloc, s, domain, own, file, *index, id),
        Op::InvokeVirtual { index } | Op::InvokeInterface { index } => {
            virtual_by(alloc, s, domain, file, *index, id)
        }
        _ => Ok(Ok(nothing(alloc))),
    }
}

/// What an instruction mentions in a domain, which stands in the class of this number and file: initialisers of the
/// classes that it reaches, and targets of its call in the order of the names of their classes.
///
/// Or the first rule of the profile that fails: those of `linked`, and then `BadNew` of a mapped class; `Unbound`, a call
/// of a native method without a line; `InterfaceCode`, where it reaches an interface's initialiser or method with code;
/// `OwnPortal`, a portal's call from its server's domain; `NoTarget`, where a receiver runs no method with code.
#[tactic(auto, unfolding(crate::specs::Mentioned::mentioned))]
pub fn mentioned(
    alloc: Global,
    s: &Setting<'_, '_>,
    domain: u32,
    own: ClassId,
    file: &Class<'_>,
    op: &Op,
) -> Result<Result<Called, Kind>, NoMemory>
    ensures { IfOk result (λ called. called ≡ mentioned s.now domain own.n file.now op.now) }
{
    match linked(alloc, s.world, file, op)? {
        Err(rule) => Ok(Err(rule)),
        Ok(Named::Nothing) => Ok(Ok(nothing(alloc))),
        Ok(Named::Class(class)) => object_made(alloc, s, domain, class),
        Ok(Named::Field(field)) => field_accessed(alloc, s, domain, op, field),
        Ok(Named::Method(id)) => method_called(alloc, s, domain, own, file, op, id),
    }
}
