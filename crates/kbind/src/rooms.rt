//! Up to which base the cells of each CLASS end within the device bytes.

ghost use Rattle.std.specs.Prelude.{◌≡◌, ◌+◌, ◌&&◌, ◌||◌, [], ℕ, List, IfOk, OnOk, bytes_eq, nat_le, not};
ghost use Rattle.std.specs.List.{list_all};
ghost use Rattle.kconfig.specs.declared.config.ObjectLine.{ObjectLine};
ghost use Rattle.kbind.specs.Cells.{is_within};
ghost use Rattle.kbind.specs.Objects.{ends_within};
ghost use Rattle.kbind.specs.Rooms.{room_in, within_room, has_room, HasRoom};

use crate::cells::cell_parts;
use kconfig::CellLine;
use kes_text::NoMemory;
use std::alloc::Global;
use std::collections::BTreeMap;
use std::marker::Model;

/// For each CLASS that has cells the last base at which each of them ends within the device bytes, if there is one.
#[derive(Drop)]
pub struct Rooms<'t> {
    rooms: BTreeMap<&'t [u8], Option<u64>>,
}

impl<'t> Model for Rooms<'t> {
    ghost use Rattle.std.specs.Prelude.{map};
    ghost use Rattle.kbind.specs.Rooms as spec;

    ghost Value = { spec.Rooms };

    ghost view = { λ r. map (λ e. (e.0.now, e.1)) r.rooms.entries };
}

/// Whether a base isn't behind the last one.
fn is_within(last: Option<u64>, base: u64) -> bool
    ensures { result ≡ is_within base last }
{
    match last {
        Some(last) => base <= last,
        None => false,
    }
}

/// The last base at which a cell ends within so many bytes.
fn last_base(size: u64, at: u64, width: u64) -> Option<u64>
    ensures { (base : ℕ) → is_within base result ≡ nat_le (base + at + width) size }
{
    let rest = size.checked_sub(at)?;
    rest.checked_sub(width)
}

/// The earlier of two last bases.
fn earlier(one: Option<u64>, other: Option<u64>) -> Option<u64>
    ensures { (base : ℕ) → is_within base result ≡ (is_within base one && is_within base other) }
{
    let one = one?;
    let other = other?;
    if one <= other { Some(one) } else { Some(other) }
}

/// The last base of a CLASS with one cell more.
fn with_cell(before: Option<Option<u64>>, last: Option<u64>) -> Option<u64>
    ensures { (base : ℕ) → is_within base result ≡ (is_within base last && within_room base before) }
{
    match before {
        Some(before) => earlier(last, before),
        None => last,
    }
}

impl<'t> Rooms<'t> {
    fn new(alloc: Global) -> Rooms<'t>
        ensures { result ≡ [] }
    {
        Rooms {
            rooms: BTreeMap::new(alloc),
        }
    }

    fn get(&self, class: &'t [u8]) -> Option<Option<u64>>
        ensures { result ≡ room_in self.now class.now }
    {
        self.rooms.get(&class).copied()
    }

    fn set(&mut self, class: &'t [u8], last: Option<u64>) -> Result<(), NoMemory>
        ensures { OnOk result (HasRoom class.now last self.old self.new) }
    {
        self.rooms.insert(class, last)?;
        Ok(())
    }

    /// Whether each cell of a CLASS ends within the device bytes in an object at this base.
    pub fn has(&self, class: &'t [u8], base: u64) -> bool
        ensures { result ≡ has_room self.now class.now base }
    {
        match self.get(class) {
            Some(last) => is_within(last, base),
            None => true,
        }
    }

    /// One cell more of a CLASS.
    fn narrow(&mut self, class: &'t [u8], last: Option<u64>) -> Result<(), NoMemory>
        ensures { OnOk result ((other : List ℕ) (base : ℕ) → has_room self.new other base ≡ ((not (bytes_eq other class.now) || is_within base last) && has_room self.old other base)) }
    {
        let before = self.get(class);
        self.set(class, with_cell(before, last))
    }
}

/// One cell more.
fn add_cell<'t>(rooms: &mut Rooms<'t>, size: u64, cell: &'t CellLine) -> Result<(), NoMemory>
    ensures { OnOk result ((line : ObjectLine) → has_room rooms.new line.class line.base ≡ (ends_within size line cell.now && has_room rooms.old line.class line.base)) }
{
    let (class, _) = cell_parts(cell.field.as_slice());
    rooms.narrow(class, last_base(size, cell.at, cell.width))
}

/// What the cells leave to each CLASS.
pub fn all_rooms<'t>(alloc: Global, size: u64, cells: &'t [CellLine]) -> Result<Rooms<'t>, NoMemory>
    ensures { IfOk result (λ rooms. (line : ObjectLine) → has_room rooms line.class line.base ≡ list_all (ends_within size line) cells.now) }
{
    let mut rooms = Rooms::new(alloc);
    for n in (0..cells.len()).rev() {
        add_cell(&mut rooms, size, &cells[n])?;
    }
    Ok(rooms)
}
