//! The frames of a StackMapTable (JVMS SE 8, 4.7.4).

ghost use Rattle.std.specs.Prelude.{◌≡◌, ◌≤◌, [], option_copied};
ghost use Rattle.classfile.specs.Scan.{OrNoMemory, repeat};
ghost use Rattle.stackmap.specs.Frames.{delta_at, pc_at, one_item_at, chop_at, append_at, full_at, body_at, locals_before, least_place, frame_at, last_of, another_frame, frames_at, frames_of};

use crate::frame::{Declared, Frame};
use crate::items::{item_at, items_at};
use crate::rest::Rest;
use crate::table::Table;
use crate::vtype::{VType, all_copied};
use classfile::Class;
use kes_text::{Kind, NoMemory, Stop};
use sqlite_items::Items;
use std::alloc::Global;

/// How far the frame that begins at `frame` stands behind its least place.
fn delta_at<'b>(
    table: &Table<'_, '_>,
    frame: &Rest<'_>,
    tag: u8,
    rest: Rest<'b>,
) -> Result<(u16, Rest<'b>), Stop>
    ensures { result ≡ delta_at table.now frame.now tag rest.entry }
{
    match tag {
        0..=63 => Ok((u16::from(tag), rest)),
        64..=127 => Ok((u16::from(tag) - 64, rest)),
        128..=246 => Err(table.refused(Kind::FrameTag, frame)),
        247..=255 => table.u16(&rest),
    }
}

fn pc_at(table: &Table<'_, '_>, frame: &Rest<'_>, pc: u32) -> Result<u16, Stop>
    ensures { result ≡ pc_at table.now frame.now pc }
{
    match u16::try_from(pc) {
        Ok(pc) => Ok(pc),
        Err(_) => Err(table.refused(Kind::FramePlace, frame)),
    }
}

fn one_item_at<'b>(
    alloc: Global,
    table: &Table<'_, '_>,
    locals: Items<VType>,
    rest: &Rest<'b>,
) -> Result<(Frame, Rest<'b>), Stop>
    ensures { OrNoMemory result (one_item_at table.now locals rest.now) }
{
    let (item, behind) = item_at(alloc, table, rest)?;
    let mut stack = Items::new(alloc);
    stack.push(item)?;
    Ok((Frame { locals, stack }, behind))
}

/// The frame without the last `count` locals.
fn chop_at<'b>(
    alloc: Global,
    table: &Table<'_, '_>,
    frame: &Rest<'_>,
    locals: &[VType],
    count: u8,
    rest: Rest<'b>,
) -> Result<(Frame, Rest<'b>), Stop>
    ensures { OrNoMemory result (chop_at table.now frame.now locals.now count rest.entry) }
{
    let count = usize::from(count);
    if locals.len() < count {
        return Err(table.refused(Kind::FrameItem, frame));
    }
    let locals = all_copied(alloc, &locals[..locals.len() - count])?;
    let stack = Items::new(alloc);
    Ok((Frame { locals, stack }, rest))
}

fn append_at<'b>(
    alloc: Global,
    table: &Table<'_, '_>,
    locals: Items<VType>,
    count: u8,
    rest: Rest<'b>,
) -> Result<(Frame, Rest<'b>), Stop>
    ensures { OrNoMemory result (append_at table.now locals count rest.entry) }
{
    let (locals, behind) = items_at(alloc, table, locals, u16::from(count), rest)?;
    let stack = Items::new(alloc);
    Ok((Frame { locals, stack }, behind))
}

fn full_at<'b>(
    alloc: Global,
    table: &Table<'_, '_>,
    rest: &Rest<'b>,
) -> Result<(Frame, Rest<'b>), Stop>
    ensures { OrNoMemory result (full_at table.now rest.now) }
{
    let (count, behind) = table.u16(rest)?;
    let (locals, behind) = items_at(alloc, table, Items::new(alloc), count, behind)?;
    let (count, behind) = table.u16(&behind)?;
    let (stack, behind) = items_at(alloc, table, Items::new(alloc), count, behind)?;
    Ok((Frame { locals, stack }, behind))
}

/// The frame of a tag, from the locals of the frame before.
fn body_at<'b>(
    alloc: Global,
    table: &Table<'_, '_>,
    frame: &Rest<'_>,
    locals: &[VType],
    tag: u8,
    rest: Rest<'b>,
) -> Result<(Frame, Rest<'b>), Stop>
    ensures { OrNoMemory result (body_at table.now frame.now locals.now tag rest.entry) }
{
    match tag {
        0..=63 | 251 => {
            let locals = all_copied(alloc, locals)?;
            let stack = Items::new(alloc);
            Ok((Frame { locals, stack }, rest))
        }
        64..=127 | 247 => one_item_at(alloc, table, all_copied(alloc, locals)?, &rest),
        128..=250 => chop_at(alloc, table, frame, locals, 251 - tag, rest),
        252..=254 => append_at(alloc, table, all_copied(alloc, locals)?, tag - 251, rest),
        255 => full_at(alloc, table, &rest),
    }
}

/// The locals of the last frame that was declared, or of the start frame.
fn locals_before<'f>(start: &'f Frame, last: Option<&'f Declared>) -> &'f [VType]
    ensures { result.now ≡ locals_before start.now (option_copied last.entry) }
{
    match last {
        Some(last) => last.frame.locals.as_slice(),
        None => start.locals.as_slice(),
    }
}

/// The least place of the next frame.
fn least_place(last: Option<&Declared>) -> u32
    ensures place { result ≡ least_place (option_copied last.entry) }
    ensures low { result ≤ 65536 }
{
    match last {
        Some(last) => u32::from(last.pc) + 1,
        None => 0,
    }
}

/// The frame at the front, behind the last that was declared.
#[tactic(auto, unfolding(crate::specs::Frames::frame_at))]
fn frame_at<'b>(
    alloc: Global,
    table: &Table<'_, '_>,
    start: &Frame,
    last: Option<&Declared>,
    rest: &Rest<'b>,
) -> Result<(Declared, Rest<'b>), Stop>
    ensures { OrNoMemory result (frame_at table.now start.now (option_copied last.entry) rest.now) }
{
    let at = table.place(rest);
    let (tag, behind) = table.u8(rest)?;
    let (delta, behind) = delta_at(table, rest, tag, behind)?;
    let pc = pc_at(table, rest, least_place(last) + u32::from(delta))?;
    let (frame, behind) = body_at(alloc, table, rest, locals_before(start, last), tag, behind)?;
    Ok((Declared { at, pc, frame }, behind))
}

/// So many frames, and what stands behind them.
fn many_frames_at<'b>(
    alloc: Global,
    table: &Table<'_, '_>,
    start: &Frame,
    count: u16,
    rest: Rest<'b>,
) -> Result<(Items<Declared>, Rest<'b>), Stop>
    ensures { OrNoMemory result (repeat count (another_frame table.now start.now) ([], rest.entry)) }
{
    let mut frames = Items::new(alloc);
    let mut rest = rest;
    for _ in 0..count {
        let (frame, behind) = frame_at(alloc, table, start, frames.as_slice().last(), &rest)?;
        frames.push(frame)?;
        rest = behind;
    }
    Ok((frames, rest))
}

/// So many frames, and nothing behind them.
fn frames_at(
    alloc: Global,
    table: &Table<'_, '_>,
    start: &Frame,
    count: u16,
    rest: Rest<'_>,
) -> Result<Items<Declared>, Stop>
    ensures { OrNoMemory result (frames_at table.now start.now count rest.entry) }
{
    let (frames, rest) = many_frames_at(alloc, table, start, count, rest)?;
    if rest.len() == 0 {
        Ok(frames)
    } else {
        Err(table.unended())
    }
}

/// The frames of a StackMapTable (JVMS SE 8, 4.7.4), in their order. `table` is what stands behind the
/// attribute's length, `base` the offset of its first byte in the class file, `class` that class, and
/// `start` the frame at the start of the method, whose locals are those before the first frame.
///
/// It refuses, at an offset in the class file (no more than `u64::MAX`) and as file 0, the first in the
/// table's order of
/// - `FrameEnd`, at the table's end: its frames don't end there;
/// - `FrameTag`, at the tag: it is from 128 to 246;
/// - `FramePlace`, at the tag: the frame's place in the code is past 65535;
/// - `FrameItem`, at the item: its tag is above 8, or its index names no class; at a chop's own tag where
///   there are fewer locals than it takes away.
#[tactic(auto, unfolding(crate::specs::Frames::frames_of))]
pub fn read_frames(
    alloc: Global,
    table: &[u8],
    base: u64,
    class: &Class<'_>,
    start: &Frame,
) -> Result<Items<Declared>, Stop>
    ensures { OrNoMemory result (frames_of class.now base start.now table.now) }
{
    let bytes = Rest::new(table);
    let table = Table {
        base,
        size: bytes.len(),
        class,
    };
    let (count, rest) = table.u16(&bytes)?;
    frames_at(alloc, &table, start, count, rest)
}
