//! The fields of cell lines.

ghost use Rattle.std.specs.Prelude.{◌≡◌, ◌≤◌, ℕ, List, IfOk, OnOk, length, slice_get};
ghost use Rattle.jworld.specs.Members.{fields_of};
ghost use Rattle.kbind.specs.Named.{only_place, seen_in, seen_before, seen_from};
ghost use Rattle.kbind.specs.Cells.{cell_parts, is_instance, is_field_of, only_field, type_width, holds_cell, cell_at, cell_in, cell_named};
ghost use Rattle.kbind.specs.Kept.{field_seen, AreTables};

use crate::classes::{Classes, parts};
use crate::named::{Named, Seen};
use classfile::{Access, Field};
use jworld::{ClassId, FieldId, World};
use kconfig::CellLine;
use kes_text::{NoMemory, escape};
use std::alloc::Global;

/// The CLASS and the FIELD of a cell line; no bytes where there is no dot.
pub fn cell_parts(word: &[u8]) -> (&[u8], &[u8])
    ensures class { result.0.now ≡ (cell_parts word.now).0 }
    ensures field { result.1.now ≡ (cell_parts word.now).1 }
{
    match parts(word) {
        Some(both) => both,
        None => (&[], &[]),
    }
}

/// Whether a field isn't static.
pub fn is_instance(field: &Field<'_>) -> bool
    ensures { result ≡ is_instance field.now }
{
    field.flags.bits & Access::STATIC.bits == 0
}

/// Notes the name of a field, if it is an instance field.
fn add_field(
    alloc: Global,
    names: &mut Named,
    field: &Field<'_>,
    place: u16,
) -> Result<(), NoMemory>
    ensures { OnOk result ((name : List ℕ) → seen_in names.new name ≡ seen_before (is_field_of name field.now) place (seen_in names.old name)) }
{
    if !is_instance(field) {
        return Ok(());
    }
    names.add(escape(alloc, field.name)?, place)
}

/// The names of the instance fields.
fn fields_among(alloc: Global, fields: &[Field<'_>]) -> Result<Named, NoMemory>
    requires { length fields.now ≤ 65536 }
    ensures { IfOk result (λ names. (name : List ℕ) → seen_in names name ≡ seen_from (is_field_of name) 0 fields.now) }
{
    let mut names = Named::new(alloc);
    for place in (0..fields.len()).rev() {
        add_field(alloc, &mut names, &fields[place], place as u16)?;
    }
    Ok(names)
}

/// Those of one class.
fn fields_in(alloc: Global, world: &World<'_>, class: ClassId) -> Result<Named, NoMemory>
    ensures { IfOk result (λ names. (name : List ℕ) → seen_in names name ≡ field_seen world.now name class.n) }
{
    let Some(file) = world.get(class) else {
        return Ok(Named::new(alloc));
    };
    let names = fields_among(alloc, file.fields())?;
    Ok(names)
}

/// For each class the names of the instance fields.
pub fn field_names(alloc: Global, world: &World<'_>) -> Result<Vec<Named>, NoMemory>
    ensures { IfOk result (λ tables. AreTables (field_seen world.now) tables.items) }
{
    let mut tables = Vec::new(alloc);
    for n in 0..world.count() {
        tables.push(fields_in(alloc, world, ClassId { n })?)?;
    }
    Ok(tables)
}

/// The place of what was seen, if it doesn't stand again.
fn only(seen: Option<Seen>) -> Option<u16>
    ensures { result ≡ only_place seen }
{
    let seen = seen?;
    if seen.again { None } else { Some(seen.place) }
}

/// The place of the one instance field of a FIELD in a class.
fn only_field(classes: &Classes<'_, '_, '_>, name: &[u8], class: ClassId) -> Option<u16>
    ensures { result ≡ only_field name.now (fields_of classes.now class.n) }
{
    only(classes.field(name, class))
}

/// How many bytes a value of the type has, if the type may have a cell.
fn type_width(descriptor: &[u8]) -> Option<u64>
    ensures { result ≡ type_width descriptor.now }
{
    match descriptor {
        b"Z" => Some(1),
        b"B" => Some(1),
        b"C" => Some(2),
        b"S" => Some(2),
        b"I" => Some(4),
        b"J" => Some(8),
        _ => None,
    }
}

/// Whether a field's type is as wide as a cell, or wider.
fn holds_cell(width: u64, field: &Field<'_>) -> bool
    ensures { result ≡ holds_cell width field.now }
{
    match type_width(field.descriptor) {
        Some(most) => width <= most,
        None => false,
    }
}

/// The field at a place of a class, if it is wide enough.
fn cell_at(world: &World<'_>, width: u64, class: ClassId, place: u16) -> Option<FieldId>
    ensures { result ≡ cell_at width class.n place (slice_get (fields_of world.now class.n) place) }
{
    let field = world.get(class)?.fields().get(place as usize)?;
    if holds_cell(width, field) {
        Some(FieldId { class, n: place })
    } else {
        None
    }
}

/// The one instance field of a FIELD in a class, if it is wide enough.
fn cell_in(
    classes: &Classes<'_, '_, '_>,
    width: u64,
    name: &[u8],
    class: ClassId,
) -> Option<FieldId>
    ensures { result ≡ cell_in classes.now width name.now class.n }
{
    let place = only_field(classes, name, class)?;
    cell_at(classes.world(), width, class, place)
}

/// The field of a cell line.
pub fn cell_named<'t>(classes: &Classes<'t, '_, '_>, line: &'t CellLine) -> Option<FieldId>
    ensures { result ≡ cell_named classes.now line.now }
{
    let (class, name) = cell_parts(line.field.as_slice());
    let class = classes.named(class)?;
    cell_in(classes, line.width, name, class)
}
