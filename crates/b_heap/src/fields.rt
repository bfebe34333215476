//! A world with what its objects are made of.

ghost use Rattle.std.specs.Prelude.{◌≡◌, ◌<◌, ◌^◌, ◌++◌, [], map, reverse, length, slice_get, slice_index_or, IfOk, OnOk};
ghost use Rattle.std.specs.List.{flat_map};
ghost use Rattle.jworld.specs.Upwards.{upwards};
ghost use Rattle.values.specs.Values.{zero_of};
ghost use Rattle.b_heap.specs.Objects.{own_shapes, object_shapes, object_cost};
ghost use Rattle.b_heap.specs.Places.{place_of};

use crate::places::Place;
use crate::tables::Tables;
use jnames::Shape;
use jworld::{ClassId, FieldId, World};
use kes_text::NoMemory;
use sqlite_items::Items;
use std::alloc::Global;
use std::marker::Model;
use values::{Value, zero};

/// A world of classes with what their objects take and where their fields stand. Contracts see the class files.
#[derive(Drop)]
pub struct Fields<'a> {
    world: World<'a>,
    tables: Tables,
}

impl<'a> Model for Fields<'a> {
    ghost use Rattle.jworld.specs.Classes.{World as Files};
    ghost use Rattle.b_heap.specs.Held.{IsLaidOut};

    ghost Value = { Files };

    ghost view = { λ f. f.world };

    ghost invariant = { λ f. IsLaidOut f.world f.tables };
}

/// The bytes that an object takes without fields.
const BARE: u32 = 8;

/// The row of a class, which is empty where there is no such class.
fn row_at<T>(rows: &[Items<T>], class: ClassId) -> &[T]
    ensures { result.now ≡ slice_index_or rows.now class.n [] }
{
    match rows.get(class.n as usize) {
        Some(row) => row.as_slice(),
        None => &[],
    }
}

fn place_in(row: &[Place], n: u16) -> Option<Place>
    ensures { result ≡ slice_get row.now n }
{
    row.get(usize::from(n)).copied()
}

/// A class and those above it, upwards.
fn upwards(alloc: Global, world: &World<'_>, class: ClassId) -> Result<Vec<ClassId>, NoMemory>
    ensures { IfOk result (λ found. map (λ c. c.n) found.items ≡ upwards world.now class.n) }
{
    let mut found = Vec::new(alloc);
    let mut next = Some(class);
    for _step in 0..world.count() {
        let Some(class) = next else {
            return Ok(found);
        };
        found.push(class)?;
        next = world.super_of(class);
    }
    Ok(found)
}

/// Puts the zeros of these shapes behind other values.
fn push_zeros(values: &mut Items<Value>, shapes: &[Shape]) -> Result<(), NoMemory>
    ensures { OnOk result (values.new ≡ values.old ++ map zero_of shapes.now) }
{
    for shape in shapes {
        values.push(zero(*shape))?;
    }
    Ok(())
}

impl<'a> Fields<'a> {
    /// A world with its tables, in a time that grows with the number of its fields, and for each class with that of
    /// its superclasses.
    pub fn new(alloc: Global, world: World<'a>) -> Result<Fields<'a>, NoMemory>
        ensures { IfOk result (λ fields. fields ≡ world.entry) }
    {
        let tables = Tables::of(alloc, &world)?;
        Ok(Fields { world, tables })
    }

    /// The world.
    pub fn world(&self) -> &World<'a>
        ensures { result.now ≡ self.now }
    {
        &self.world
    }

    /// How many bytes of the heap an object of a class takes: 8, and for each class from Object downwards what its
    /// instance fields take, rounded up to 8.
    pub fn cost(&self, class: ClassId) -> u32
        ensures { result ≡ object_cost self.now class.n }
    {
        match self.tables.costs.get(class.n as usize) {
            Some(cost) => *cost,
            None => BARE,
        }
    }

    /// Where a field stands. None exactly where there is no such field.
    pub(crate) fn place(&self, field: FieldId) -> Option<Place>
        ensures { result ≡ place_of self.now field }
    {
        let row = row_at(self.tables.places.as_slice(), field.class);
        place_in(row, field.n)
    }

    /// Puts the zeros of the fields that a class itself declares behind other values.
    fn push_own(&self, values: &mut Items<Value>, class: ClassId) -> Result<(), NoMemory>
        ensures { OnOk result (values.new ≡ values.old ++ map zero_of (own_shapes self.now class.n)) }
    {
        push_zeros(values, row_at(self.tables.shapes.as_slice(), class))
    }

    /// The zeros of the fields that these classes themselves declare, those of the last first.
    fn zeros_down(&self, alloc: Global, classes: &[ClassId]) -> Result<Items<Value>, NoMemory>
        ensures { IfOk result (λ values. values ≡ map zero_of (flat_map (own_shapes self.now) (map (λ c. c.n) (reverse classes.now)))) }
    {
        let mut values = Items::new(alloc);
        for class in classes.iter().rev() {
            self.push_own(&mut values, *class)?;
        }
        Ok(values)
    }

    /// What the fields of a new object hold.
    pub(crate) fn zeros(&self, alloc: Global, class: ClassId) -> Result<Items<Value>, NoMemory>
        ensures value { IfOk result (λ values. values ≡ map zero_of (object_shapes self.now class.n)) }
        ensures few { IfOk result (λ values. length values < 2 ^ 31) }
    {
        let classes = upwards(alloc, &self.world, class)?;
        self.zeros_down(alloc, classes.as_slice())
    }
}
