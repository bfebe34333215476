//! Tables of a world's classes: what their objects have and take, and where their fields stand.

ghost use Rattle.std.specs.Prelude.{◌≡◌, ◌≤◌, ◌<◌, ◌+◌, ◌*◌, ◌^◌, length, All, map, sum_by, slice_index, slice_index_or, IfOk, []};
ghost use Rattle.std.specs.List.{range_with_len};
ghost use Rattle.jworld.specs.Classes.{count};
ghost use Rattle.jworld.specs.Members.{fields_of};
ghost use Rattle.b_heap.specs.Objects.{own_shapes, object_shapes, object_cost, level_cost};
ghost use Rattle.b_heap.specs.Places.{shapes_above, statics_in, statics_before};
ghost use Rattle.b_heap.specs.Held.{TellsShapes, TellsNumbers, AreFew, TellsPlaces, IsLaidOut};
ghost use Rattle.b_heap.specs.Rows.{places_from, row_of};

use crate::places::{Before, Place, count_statics, places_from};
use crate::shapes::instance_shapes;
use crate::sums::{level_cost, summed};
use jnames::Shape;
use jworld::{ClassId, World};
use kes_text::NoMemory;
use sqlite_items::Items;
use std::alloc::Global;

/// What is kept of each class, by its number: the shapes of the instance fields that it declares itself, the cost of
/// its objects, and where each of its fields stands.
#[derive(Drop)]
pub struct Tables {
    pub shapes: Items<Items<Shape>>,
    pub costs: Items<u32>,
    pub places: Items<Items<Place>>,
}

fn own_shapes(alloc: Global, world: &World<'_>, class: ClassId) -> Result<Items<Shape>, NoMemory>
    ensures value { IfOk result (λ shapes. shapes ≡ own_shapes world.now class.n) }
    ensures few { IfOk result (λ shapes. length shapes ≤ 65536) }
{
    match world.get(class) {
        Some(file) => instance_shapes(alloc, file.fields()),
        None => Ok(Items::new(alloc)),
    }
}

/// The shapes of each class's own instance fields.
fn all_shapes(alloc: Global, world: &World<'_>) -> Result<Items<Items<Shape>>, NoMemory>
    ensures value { IfOk result (λ shapes. shapes ≡ map (own_shapes world.now) (range_with_len 0 (count world.now))) }
    ensures few { IfOk result (λ shapes. All (λ own. length own ≤ 65536) shapes) }
    ensures classes { count world.now ≤ 2052 }
{
    let mut shapes = Items::new(alloc);
    for n in 0..world.count() {
        shapes.push(own_shapes(alloc, world, ClassId { n })?)?;
    }
    Ok(shapes)
}

/// What the fields of each class take that it declares itself.
fn level_costs(alloc: Global, shapes: &[Items<Shape>]) -> Result<Items<u32>, NoMemory>
    requires { All (λ own. length own ≤ 65536) shapes.now }
    ensures value { IfOk result (λ costs. costs ≡ map level_cost shapes.now) }
    ensures few { IfOk result (λ costs. All (λ n. n ≤ 524288) costs) }
{
    let mut costs = Items::new(alloc);
    for own in shapes {
        costs.push(level_cost(own.as_slice()))?;
    }
    Ok(costs)
}

/// How many instance fields each class declares itself.
fn counts(alloc: Global, shapes: &[Items<Shape>]) -> Result<Items<u32>, NoMemory>
    requires { All (λ own. length own ≤ 65536) shapes.now }
    ensures value { IfOk result (λ counts. counts ≡ map length shapes.now) }
    ensures few { IfOk result (λ counts. All (λ n. n ≤ 524288) counts) }
{
    let mut counts = Items::new(alloc);
    for own in shapes {
        counts.push(own.len() as u32)?;
    }
    Ok(counts)
}

/// What the objects of each class take.
fn object_costs(alloc: Global, world: &World<'_>, levels: &[u32]) -> Result<Items<u32>, NoMemory>
    requires few { All (λ n. n ≤ 524288) levels.now }
    requires tells { TellsNumbers (λ c. level_cost (own_shapes world.now c)) levels.now }
    ensures { IfOk result (λ costs. costs ≡ map (object_cost world.now) (range_with_len 0 (count world.now))) }
{
    let mut costs = Items::new(alloc);
    for n in 0..world.count() {
        costs.push(object_cost(world, levels, ClassId { n }))?;
    }
    Ok(costs)
}

fn object_cost(world: &World<'_>, levels: &[u32], class: ClassId) -> u32
    requires few { All (λ n. n ≤ 524288) levels.now }
    requires tells { TellsNumbers (λ c. level_cost (own_shapes world.now c)) levels.now }
    ensures { result ≡ object_cost world.now class.n }
{
    8 + summed(world, levels, Some(class))
}

/// How many fields an object has from the superclass of a class.
fn slots_above(world: &World<'_>, counts: &[u32], class: ClassId) -> u32
    requires few { All (λ n. n ≤ 524288) counts.now }
    requires tells { TellsNumbers (λ c. length (own_shapes world.now c)) counts.now }
    ensures value { result ≡ length (shapes_above world.now class.n) }
    ensures bound { result < 2 ^ 31 }
{
    summed(world, counts, world.super_of(class))
}

/// How many static fields a class declares.
fn statics_in(world: &World<'_>, class: ClassId) -> u32
    ensures value { result ≡ statics_in world.now class.n }
    ensures few { result ≤ 65536 }
{
    match world.get(class) {
        Some(file) => count_statics(file.fields()) as u32,
        None => 0,
    }
}

/// Where the fields of a class stand.
#[tactic(auto, unfolding(crate::specs::Rows::places_from))]
fn places_in(
    alloc: Global,
    world: &World<'_>,
    class: ClassId,
    before: Before,
) -> Result<Items<Place>, NoMemory>
    requires slots { before.slots < 2 ^ 31 }
    requires statics { before.statics < 2 ^ 31 }
    ensures { IfOk result (λ places. places ≡ places_from before (fields_of world.now class.n)) }
{
    match world.get(class) {
        Some(file) => places_from(alloc, before, file.fields()),
        None => Ok(Items::new(alloc)),
    }
}

/// Where the fields of each class stand.
fn all_places(
    alloc: Global,
    world: &World<'_>,
    counts: &[u32],
) -> Result<Items<Items<Place>>, NoMemory>
    requires few { All (λ n. n ≤ 524288) counts.now }
    requires tells { TellsNumbers (λ c. length (own_shapes world.now c)) counts.now }
    ensures { IfOk result (λ rows. rows ≡ map (row_of world.now) (range_with_len 0 (count world.now))) }
{
    let mut rows = Items::new(alloc);
    let mut statics = 0;
    for n in 0..world.count() {
        let class = ClassId { n };
        let slots = slots_above(world, counts, class);
        rows.push(places_in(alloc, world, class, Before { slots, statics })?)?;
        statics += statics_in(world, class);
    }
    Ok(rows)
}

impl Tables {
    /// The tables of a world.
    pub fn of(alloc: Global, world: &World<'_>) -> Result<Tables, NoMemory>
        ensures { IfOk result (λ tables. IsLaidOut world.now tables) }
    {
        let shapes = all_shapes(alloc, world)?;
        let levels = level_costs(alloc, shapes.as_slice())?;
        let costs = object_costs(alloc, world, levels.as_slice())?;
        let counts = counts(alloc, shapes.as_slice())?;
        let places = all_places(alloc, world, counts.as_slice())?;
        Ok(Tables {
            shapes,
            costs,
            places,
        })
    }
}
