//! The classes of cell lines.

ghost use Rattle.std.specs.Prelude.{◌≡◌, ◌++◌, ◌||◌, ℕ, List, IfOk, OnOk, filter_map, is_some, position, map, option_map};
ghost use Rattle.std.specs.List.{list_all, list_any};
ghost use Rattle.kbind.specs.Pairs.{is_among};
ghost use Rattle.kbind.specs.Cells.{cell_parts, cell_named, is_cell_of, is_of, has_cell, is_that, is_mapped, opens_class, cell_holds};
ghost use Rattle.kbind.specs.CellsKept.{ArePairs};
ghost use Rattle.kbind.specs.Bound.{cell_faults};

use crate::cells::{cell_named, cell_parts, is_instance};
use crate::classes::Classes;
use crate::noting::{blame, keep};
use crate::pairs::Pairs;
use crate::places::Index;
use classfile::Field;
use jworld::{ClassId, FieldId};
use kconfig::CellLine;
use kes_text::{Kind, NoMemory, Refusal, escape};
use sqlite_items::Items;
use std::alloc::Global;
use std::marker::Model;

/// The CLASSes of cell lines.
fn cell_classes<'t>(alloc: Global, lines: &'t [CellLine]) -> Result<Vec<&'t [u8]>, NoMemory>
    ensures { IfOk result (λ words. map (λ word. word.now) words.items ≡ map (λ line. (cell_parts line.field).0) lines.now) }
{
    let mut words = Vec::new(alloc);
    for line in lines {
        let (class, _) = cell_parts(line.field.as_slice());
        words.push(class)?;
    }
    Ok(words)
}

/// Notes the CLASS and the FIELD of a cell line.
fn add_parts<'t>(alloc: Global, pairs: &mut Pairs<'t>, line: &'t CellLine) -> Result<(), NoMemory>
    ensures { OnOk result ((class name : List ℕ) → is_among class name pairs.new ≡ (is_of class name line.now || is_among class name pairs.old)) }
{
    let (class, name) = cell_parts(line.field.as_slice());
    pairs.insert(class, name.to_vec(alloc)?)
}

/// The CLASS and the FIELD of each cell line.
fn all_parts<'t>(alloc: Global, lines: &'t [CellLine]) -> Result<Pairs<'t>, NoMemory>
    ensures { IfOk result (λ pairs. ArePairs lines.now pairs) }
{
    let mut pairs = Pairs::new(alloc);
    for n in (0..lines.len()).rev() {
        add_parts(alloc, &mut pairs, &lines[n])?;
    }
    Ok(pairs)
}

/// Cell lines of which the first of a CLASS is found, and whether there is one of a CLASS and a FIELD. Contracts see
/// their list.
#[derive(Drop)]
pub struct Cells<'t> {
    lines: &'t [CellLine],
    classes: Index<'t>,
    pairs: Pairs<'t>,
}

impl<'t> Model for Cells<'t> {
    ghost use Rattle.std.specs.Prelude.{List};
    ghost use Rattle.kconfig.specs.declared.config.CellLine.{CellLine};
    ghost use Rattle.kbind.specs.CellsKept.{AreCells};

    ghost Value = { List CellLine };

    ghost view = { λ c. c.lines.now };

    ghost invariant = { λ c. AreCells c.lines.now c.classes c.pairs };
}

impl<'t> Cells<'t> {
    pub fn of(alloc: Global, lines: &'t [CellLine]) -> Result<Cells<'t>, NoMemory>
        ensures { IfOk result (λ cells. cells ≡ lines.now) }
    {
        let classes = Index::of(alloc, cell_classes(alloc, lines)?)?;
        let pairs = all_parts(alloc, lines)?;
        Ok(Cells {
            lines,
            classes,
            pairs,
        })
    }

    pub fn lines(&self) -> &'t [CellLine]
        ensures { result.now ≡ self.now }
    {
        self.lines
    }

    /// The first line of a CLASS.
    pub fn first_of(&self, class: &'t [u8]) -> Option<usize>
        ensures { result ≡ position (is_cell_of class.now) self.now }
    {
        self.classes.first(class)
    }

    /// Whether there is a line of a CLASS and a FIELD.
    pub fn has(&self, class: &'t [u8], name: Vec<u8>) -> bool
        ensures { result ≡ list_any (is_of class.now name.items) self.now }
    {
        self.pairs.has(class, name)
    }
}

/// Whether a place is the one that was found.
fn is_place(found: Option<usize>, place: usize) -> bool
    ensures { result ≡ is_that found place }
{
    match found {
        Some(found) => found == place,
        None => false,
    }
}

/// Whether a class is the one that was found.
fn is_class(found: Option<ClassId>, class: u32) -> bool
    ensures { result ≡ is_that (option_map (λ c. c.n) found) class }
{
    match found {
        Some(found) => found.n == class,
        None => false,
    }
}

/// Whether a field of a CLASS is static or has a cell line.
fn has_cell<'t>(
    alloc: Global,
    cells: &Cells<'t>,
    class: &'t [u8],
    field: &Field<'_>,
) -> Result<bool, NoMemory>
    ensures { IfOk result (λ has. has ≡ has_cell cells.now class.now field.now) }
{
    if !is_instance(field) {
        return Ok(true);
    }
    Ok(cells.has(class, escape(alloc, field.name)?))
}

/// Whether each of these fields is static or has a cell line.
fn have_cells<'t>(
    alloc: Global,
    cells: &Cells<'t>,
    class: &'t [u8],
    fields: &[Field<'_>],
) -> Result<bool, NoMemory>
    ensures { IfOk result (λ have. have ≡ list_all (has_cell cells.now class.now) fields.now) }
{
    for field in fields {
        if !has_cell(alloc, cells, class, field)? {
            return Ok(false);
        }
    }
    Ok(true)
}

/// Whether a class may have cells, and has one for each instance field.
fn is_mapped<'t>(
    alloc: Global,
    classes: &Classes<'t, '_, '_>,
    cells: &Cells<'t>,
    word: &'t [u8],
    class: ClassId,
) -> Result<bool, NoMemory>
    ensures { IfOk result (λ mapped. mapped ≡ is_mapped classes.now cells.now word.now class.n) }
{
    let world = classes.world();
    let below_object = !world.is_interface(class) && is_class(world.super_of(class), 0);
    if !below_object || classes.has_subclass(class) {
        return Ok(false);
    }
    match world.get(class) {
        Some(file) => have_cells(alloc, cells, word, file.fields()),
        None => Ok(true),
    }
}

/// Whether the class of a line is mapped, if the line is the first of its CLASS.
fn opens_class<'t>(
    alloc: Global,
    classes: &Classes<'t, '_, '_>,
    cells: &Cells<'t>,
    n: usize,
    word: &'t [u8],
) -> Result<bool, NoMemory>
    ensures { IfOk result (λ holds. holds ≡ opens_class classes.now cells.now n word.now) }
{
    if !is_place(cells.first_of(word), n) {
        return Ok(true);
    }
    match classes.named(word) {
        Some(class) => is_mapped(alloc, classes, cells, word, class),
        None => Ok(false),
    }
}

/// Whether the rule of a line holds, if it has a field.
fn cell_holds<'t>(
    alloc: Global,
    classes: &Classes<'t, '_, '_>,
    cells: &Cells<'t>,
    n: usize,
    line: &'t CellLine,
    has_field: bool,
) -> Result<bool, NoMemory>
    requires { has_field ≡ is_some (cell_named classes.now line.now) }
    ensures { IfOk result (λ holds. holds ≡ cell_holds classes.now cells.now n line.now) }
{
    if !has_field {
        return Ok(false);
    }
    let (class, _) = cell_parts(line.field.as_slice());
    opens_class(alloc, classes, cells, n, class)
}

/// The fields of the cell lines, and the lines whose rule fails.
pub fn bind_cells<'t>(
    alloc: Global,
    classes: &Classes<'t, '_, '_>,
    cells: &Cells<'t>,
    faults: &mut Items<Refusal>,
) -> Result<Items<FieldId>, NoMemory>
    ensures members { IfOk result (λ members. members ≡ filter_map (cell_named classes.now) cells.now) }
    ensures faults { IfOk result (λ _. faults.new ≡ faults.old ++ cell_faults classes.now cells.now 0 cells.now) }
{
    let mut members = Items::new(alloc);
    for (n, line) in cells.lines().iter().enumerate() {
        let found = cell_named(classes, line);
        let holds = cell_holds(alloc, classes, cells, n, line, found.is_some())?;
        blame(faults, holds, Kind::BadMapped, line.line)?;
        keep(&mut members, found)?;
    }
    Ok(members)
}
