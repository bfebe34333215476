//! The Code of a method (JVMS SE 8, 4.7.3), with its first StackMapTable (4.7.4).

ghost use Rattle.std.specs.Prelude.{◌≡◌};
ghost use Rattle.classfile.specs.Scan.{OrNoMemory, repeat};
ghost use Rattle.classfile.specs.Codes.{code_bytes_at, handler_at, handlers_at, maps_at, code_attribute_at, code_attributes_at, code_at, code_attribute};

use crate::attributes::{closed, is_text, skipped_at};
use crate::class::Code;
use crate::pool::Pool;
use crate::scan::{Scan, refusal};
use crate::slice::Slice;
use crate::uses::{Use, Wanted};
use kes_text::{Kind, Stop};

const MAX_CODE_LENGTH: u32 = 65535;

/// Where the code begins, and its bytes.
fn code_bytes_at(scan: Scan<'_>) -> Result<((u64, Slice<'_>), Scan<'_>), Stop>
    ensures { result ≡ code_bytes_at scan.entry }
{
    let length_at = scan.at();
    let (length, scan) = scan.u32()?;
    if length == 0 || length > MAX_CODE_LENGTH {
        return Err(refusal(Kind::CodeLength, length_at));
    }
    let at = scan.at();
    let (bytes, scan) = scan.take(length as usize)?;
    Ok(((at, bytes), scan))
}

/// A handler; the class that it catches is an index field unless it is 0.
fn handler_at(scan: Scan<'_>) -> Result<Scan<'_>, Stop>
    ensures { OrNoMemory result (handler_at scan.entry) }
{
    let (_, scan) = scan.take(6)?;
    let at = scan.at();
    let (index, scan) = scan.u16()?;
    if index == 0 {
        return Ok(scan);
    }
    let wanted = Wanted::Class;
    Ok(scan.note(Use::Index { at, index, wanted })?)
}

/// So many handlers.
fn handlers_behind(count: u16, start: Scan<'_>) -> Result<Scan<'_>, Stop>
    ensures { OrNoMemory result (repeat count handler_at start.entry) }
{
    let mut scan = start;
    for _ in 0..count {
        scan = handler_at(scan)?;
    }
    Ok(scan)
}

/// The exception table: how many handlers it has.
fn exception_table_at(scan: Scan<'_>) -> Result<(u16, Scan<'_>), Stop>
    ensures { OrNoMemory result (handlers_at scan.entry) }
{
    let (count, scan) = scan.u16()?;
    let scan = handlers_behind(count, scan)?;
    Ok((count, scan))
}

/// A table of frames: where it begins behind its length, and its bytes.
type Maps<'a> = Option<(u64, Slice<'a>)>;

/// Behind its name, a StackMapTable.
fn maps_at(scan: Scan<'_>) -> Result<(Maps<'_>, Scan<'_>), Stop>
    ensures { result ≡ maps_at scan.entry }
{
    let (length, scan) = scan.u32()?;
    let at = scan.at();
    let (bytes, scan) = scan.take(length as usize)?;
    Ok((Some((at, bytes)), scan))
}

/// The next attribute of a Code, behind one with a StackMapTable or not.
fn code_attribute_at<'a>(
    pool: &Pool<'_>,
    found: Maps<'a>,
    scan: Scan<'a>,
) -> Result<(Maps<'a>, Scan<'a>), Stop>
    ensures { OrNoMemory result (code_attribute_at pool.now (found.entry, scan.entry)) }
{
    let (name, scan) = scan.index(Wanted::Text)?;
    if found.is_none() && is_text(pool, name, b"StackMapTable") {
        return maps_at(scan);
    }
    let scan = skipped_at(scan)?;
    Ok((found, scan))
}

/// The attributes of a Code: its first StackMapTable.
fn code_attributes_at<'a>(pool: &Pool<'_>, start: Scan<'a>) -> Result<(Maps<'a>, Scan<'a>), Stop>
    ensures { OrNoMemory result (code_attributes_at pool.now start.entry) }
{
    let (count, mut scan) = start.u16()?;
    let mut found = None;
    for _ in 0..count {
        let (next, behind) = code_attribute_at(pool, found, scan)?;
        found = next;
        scan = behind;
    }
    Ok((found, scan))
}

/// What stands in a Code behind its length.
#[tactic(auto, unfolding(crate::specs::Codes::code_at))]
fn code_at<'a>(pool: &Pool<'_>, scan: Scan<'a>) -> Result<(Code<'a>, Scan<'a>), Stop>
    ensures { OrNoMemory result (code_at pool.now scan.entry) }
{
    let (max_stack, scan) = scan.u16()?;
    let (max_locals, scan) = scan.u16()?;
    let ((at, bytes), scan) = code_bytes_at(scan)?;
    let handlers_at = scan.at();
    let (handlers, scan) = exception_table_at(scan)?;
    let (maps, scan) = code_attributes_at(pool, scan)?;
    let maps = match maps {
        Some((at, bytes)) => Some((at, bytes.get())),
        None => None,
    };
    let code = Code {
        at,
        max_stack,
        max_locals,
        bytes: bytes.get(),
        handlers,
        handlers_at,
        maps,
    };
    Ok((code, scan))
}

/// Behind its name, a Code.
pub fn code_attribute<'a>(
    pool: &Pool<'_>,
    scan: Scan<'a>,
) -> Result<(Option<Code<'a>>, Scan<'a>), Stop>
    ensures { OrNoMemory result (code_attribute pool.now scan.entry) }
{
    let at = scan.at();
    let (length, scan) = scan.u32()?;
    let start = scan.at();
    let (code, scan) = code_at(pool, scan)?;
    let scan = closed(at, start, length, scan)?;
    Ok((Some(code), scan))
}
