//! The objects of mapped classes.

ghost use Rattle.std.specs.Prelude.{◌≡◌, ◌++◌, ◌&&◌, IfOk, filter_map, not};
ghost use Rattle.std.specs.List.{list_any};
ghost use Rattle.kbind.specs.Cells.{is_cell_of};
ghost use Rattle.kbind.specs.Rooms.{has_room};
ghost use Rattle.kbind.specs.Bases.{is_taken};
ghost use Rattle.kbind.specs.Objects.{object_class};
ghost use Rattle.kbind.specs.Bound.{object_faults};

use crate::bases::Bases;
use crate::classes::Classes;
use crate::mapped::Cells;
use crate::noting::{blame, keep};
use crate::rooms::{Rooms, all_rooms};
use jworld::ClassId;
use kconfig::ObjectLine;
use kes_text::{Kind, NoMemory, Refusal};
use sqlite_items::Items;
use std::alloc::Global;

/// Whether a CLASS has a cell line.
fn has_cell<'t>(cells: &Cells<'t>, class: &'t [u8]) -> bool
    ensures { result ≡ list_any (is_cell_of class.now) cells.now }
{
    cells.first_of(class).is_some()
}

/// Whether the rule of a line holds, by what the cells leave and the bases that earlier lines have taken.
fn object_holds<'t>(
    rooms: &Rooms<'t>,
    bases: &Bases<'t>,
    cells: &Cells<'t>,
    line: &'t ObjectLine,
) -> bool
    ensures { result ≡ ((list_any (is_cell_of line.now.class) cells.now && not (is_taken bases.now line.now.base line.now.class)) && has_room rooms.now line.now.class line.now.base) }
{
    let has_cell = has_cell(cells, line.class.as_slice());
    let takes_base = bases.is_taken(line.base, line.class.as_slice());
    let ends_within = rooms.has(line.class.as_slice(), line.base);
    has_cell && !takes_base && ends_within
}

/// The class of an object line.
fn object_class<'t>(classes: &Classes<'t, '_, '_>, line: &'t ObjectLine) -> Option<ClassId>
    ensures { result ≡ object_class classes.now line.now }
{
    classes.named(line.class.as_slice())
}

/// The classes of the object lines, and the lines whose rule fails.
pub fn bind_objects<'t>(
    alloc: Global,
    classes: &Classes<'t, '_, '_>,
    size: u64,
    cells: &Cells<'t>,
    lines: &'t [ObjectLine],
    faults: &mut Items<Refusal>,
) -> Result<Items<ClassId>, NoMemory>
    ensures members { IfOk result (λ members. members ≡ filter_map (object_class classes.now) lines.now) }
    ensures faults { IfOk result (λ _. faults.new ≡ faults.old ++ object_faults size cells.now lines.now 0 lines.now) }
{
    let rooms = all_rooms(alloc, size, cells.lines())?;
    let mut bases = Bases::new(alloc);
    let mut members = Items::new(alloc);
    for line in lines {
        let holds = object_holds(&rooms, &bases, cells, line);
        blame(faults, holds, Kind::BadMapped, line.line)?;
        keep(&mut members, object_class(classes, line))?;
        bases.add(line.base, line.class.as_slice())?;
    }
    Ok(members)
}
