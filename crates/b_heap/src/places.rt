//! Where fields stand.

ghost use Rattle.std.specs.Prelude.{◌≡◌, ◌+◌, ◌<◌, ◌≤◌, ◌^◌, length, filter, IfOk};
ghost use Rattle.b_heap.specs.Shapes.{is_static};
ghost use Rattle.b_heap.specs.Rows.{place_by, behind, places_from};

use crate::shapes::{is_static, shape_of};
use classfile::Field;
use jnames::Shape;
use kes_text::NoMemory;
use sqlite_items::Items;
use std::alloc::Global;

/// Where a field stands: an instance field among those of an object, a static field among all of its world.
#[derive(Clone, Copy)]
pub struct Place {
    pub at: u32,
    pub shape: Shape,
    pub is_static: bool,
}

/// How many instance fields of an object, and static fields of a world, stand before one.
#[derive(Clone, Copy)]
pub struct Before {
    pub slots: u32,
    pub statics: u32,
}

fn place_by(before: Before, field: &Field<'_>) -> Place
    ensures { result ≡ place_by before field.now }
{
    let is_static = is_static(field);
    Place {
        at: if is_static {
            before.statics
        } else {
            before.slots
        },
        shape: shape_of(field.descriptor),
        is_static,
    }
}

fn behind(before: Before, field: &Field<'_>) -> Before
    requires slots { before.slots + 1 < 2 ^ 32 }
    requires statics { before.statics + 1 < 2 ^ 32 }
    ensures { result ≡ behind before field.now }
{
    if is_static(field) {
        Before {
            slots: before.slots,
            statics: before.statics + 1,
        }
    } else {
        Before {
            slots: before.slots + 1,
            statics: before.statics,
        }
    }
}

/// Where these fields of a class stand.
#[tactic(auto, unfolding(crate::specs::Rows::places_from))]
pub fn places_from(
    alloc: Global,
    before: Before,
    fields: &[Field<'_>],
) -> Result<Items<Place>, NoMemory>
    requires slots { before.slots + length fields.now < 2 ^ 32 }
    requires statics { before.statics + length fields.now < 2 ^ 32 }
    ensures { IfOk result (λ places. places ≡ places_from before fields.now) }
{
    let mut places = Items::new(alloc);
    let mut before = before;
    for field in fields {
        places.push(place_by(before, field))?;
        before = behind(before, field);
    }
    Ok(places)
}

/// How many of the fields are static.
pub fn count_statics(fields: &[Field<'_>]) -> usize
    ensures value { result ≡ length (filter is_static fields.now) }
    ensures few { result ≤ length fields.now }
{
    fields.iter().filter(|field| is_static(field)).count()
}
