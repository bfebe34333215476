//! Verification types as a table spells them (JVMS SE 8, 4.7.4).

ghost use Rattle.std.specs.Prelude.{◌≡◌, [], option_map};
ghost use Rattle.classfile.specs.Scan.{OrNoMemory};
ghost use Rattle.classfile.specs.Pool.{class_name};
ghost use Rattle.stackmap.specs.Items.{object_of, object_at, uninit_at, item_of, item_at, items_at};

use crate::rest::Rest;
use crate::table::Table;
use crate::vtype::VType;
use kes_text::{Kind, Stop};
use sqlite_items::Items;
use std::alloc::Global;

/// The class that an index names, of the item that begins at `item`.
fn object_of<'b>(
    alloc: Global,
    table: &Table<'_, '_>,
    item: &Rest<'_>,
    name: Option<&[u8]>,
    rest: Rest<'b>,
) -> Result<(VType, Rest<'b>), Stop>
    ensures { OrNoMemory result (object_of table.now item.now (option_map (λ n. n.now) name.entry) rest.entry) }
{
    match name {
        Some(name) => Ok((VType::Object(Items::from_slice(alloc, name)?), rest)),
        None => Err(table.refused(Kind::FrameItem, item)),
    }
}

fn object_at<'b>(
    alloc: Global,
    table: &Table<'_, '_>,
    item: &Rest<'_>,
    rest: &Rest<'b>,
) -> Result<(VType, Rest<'b>), Stop>
    ensures { OrNoMemory result (object_at table.now item.now rest.now) }
{
    let (index, behind) = table.u16(rest)?;
    object_of(alloc, table, item, table.class.class_at(index), behind)
}

fn uninit_at<'b>(table: &Table<'_, '_>, rest: &Rest<'b>) -> Result<(VType, Rest<'b>), Stop>
    ensures { OrNoMemory result (uninit_at table.now rest.now) }
{
    let (pc, behind) = table.u16(rest)?;
    Ok((VType::Uninit(pc), behind))
}

/// The item of a tag, which begins at `item`.
#[tactic(auto, unfolding(crate::specs::Items::item_of))]
fn item_of<'b>(
    alloc: Global,
    table: &Table<'_, '_>,
    item: &Rest<'_>,
    tag: u8,
    rest: Rest<'b>,
) -> Result<(VType, Rest<'b>), Stop>
    ensures { OrNoMemory result (item_of table.now item.now tag rest.entry) }
{
    match tag {
        0 => Ok((VType::Top, rest)),
        1 => Ok((VType::Integer, rest)),
        2 => Ok((VType::Float, rest)),
        3 => Ok((VType::Double, rest)),
        4 => Ok((VType::Long, rest)),
        5 => Ok((VType::Null, rest)),
        6 => Ok((VType::UninitThis, rest)),
        7 => object_at(alloc, table, item, &rest),
        8 => uninit_at(table, &rest),
        _ => Err(table.refused(Kind::FrameItem, item)),
    }
}

/// The item at the front.
pub fn item_at<'b>(
    alloc: Global,
    table: &Table<'_, '_>,
    rest: &Rest<'b>,
) -> Result<(VType, Rest<'b>), Stop>
    ensures { OrNoMemory result (item_at table.now rest.now) }
{
    let (tag, behind) = table.u8(rest)?;
    item_of(alloc, table, rest, tag, behind)
}

/// So many items behind those before.
pub fn items_at<'b>(
    alloc: Global,
    table: &Table<'_, '_>,
    before: Items<VType>,
    count: u16,
    rest: Rest<'b>,
) -> Result<(Items<VType>, Rest<'b>), Stop>
    ensures { OrNoMemory result (items_at table.now before count rest.entry) }
{
    let mut items = before;
    let mut rest = rest;
    for _ in 0..count {
        let (item, behind) = item_at(alloc, table, &rest)?;
        items.push(item)?;
        rest = behind;
    }
    Ok((items, rest))
}
