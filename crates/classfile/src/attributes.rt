//! Attributes that are skipped, and those of fields (JVMS SE 8, 4.7 and 4.7.2).

ghost use Rattle.std.specs.Prelude.{◌≡◌};
ghost use Rattle.classfile.specs.Scan.{OrNoMemory};
ghost use Rattle.classfile.specs.Attributes.{is_text, skipped_at, closed, attribute_at, attributes_at, constant_value_at, field_attribute_at, field_attributes_at};

use crate::pool::Pool;
use crate::scan::{Scan, refusal};
use crate::uses::Wanted;
use kes_text::{Kind, Stop};

/// Whether the entry is a Utf8 with this text.
pub fn is_text(pool: &Pool<'_>, index: u16, expected: &[u8]) -> bool
    ensures { result ≡ is_text pool.now index expected.now }
{
    match pool.text(index) {
        Some(text) => text.is(expected),
        None => false,
    }
}

/// Behind an attribute's name: passes over its length and so many bytes.
pub fn skipped_at(scan: Scan<'_>) -> Result<Scan<'_>, Stop>
    ensures { result ≡ skipped_at scan.entry }
{
    let (length, scan) = scan.u32()?;
    let (_, scan) = scan.take(length as usize)?;
    Ok(scan)
}

/// An attribute that was read ends here; its length stands at `at`, and its contents begin at `start`.
pub fn closed(at: u64, start: u64, length: u32, scan: Scan<'_>) -> Result<Scan<'_>, Stop>
    ensures { result ≡ closed at start length scan.entry }
{
    if scan.at().checked_sub(start) == Some(u64::from(length)) {
        Ok(scan)
    } else {
        Err(refusal(Kind::AttrLength, at))
    }
}

fn attribute_at(scan: Scan<'_>) -> Result<Scan<'_>, Stop>
    ensures { OrNoMemory result (attribute_at scan.entry) }
{
    let (_, scan) = scan.index(Wanted::Text)?;
    skipped_at(scan)
}

/// Attributes that are skipped.
pub fn attributes_at(start: Scan<'_>) -> Result<Scan<'_>, Stop>
    ensures { OrNoMemory result (attributes_at start.entry) }
{
    let (count, mut scan) = start.u16()?;
    for _ in 0..count {
        scan = attribute_at(scan)?;
    }
    Ok(scan)
}

/// Behind its name, a ConstantValue.
fn constant_value_at(scan: Scan<'_>) -> Result<(Option<u16>, Scan<'_>), Stop>
    ensures { OrNoMemory result (constant_value_at scan.entry) }
{
    let at = scan.at();
    let (length, scan) = scan.u32()?;
    let start = scan.at();
    let (value, scan) = scan.index(Wanted::Constant)?;
    let scan = closed(at, start, length, scan)?;
    Ok((Some(value), scan))
}

/// The next attribute of a field, behind one with a ConstantValue or not.
fn field_attribute_at<'a>(
    pool: &Pool<'_>,
    found: Option<u16>,
    scan: Scan<'a>,
) -> Result<(Option<u16>, Scan<'a>), Stop>
    ensures { OrNoMemory result (field_attribute_at pool.now (found, scan.entry)) }
{
    let (name, scan) = scan.index(Wanted::Text)?;
    if found.is_none() && is_text(pool, name, b"ConstantValue") {
        return constant_value_at(scan);
    }
    let scan = skipped_at(scan)?;
    Ok((found, scan))
}

/// The attributes of a field: the index of the first ConstantValue.
pub fn field_attributes_at<'a>(
    pool: &Pool<'_>,
    start: Scan<'a>,
) -> Result<(Option<u16>, Scan<'a>), Stop>
    ensures { OrNoMemory result (field_attributes_at pool.now start.entry) }
{
    let (count, mut scan) = start.u16()?;
    let mut found = None;
    for _ in 0..count {
        let (next, behind) = field_attribute_at(pool, found, scan)?;
        found = next;
        scan = behind;
    }
    Ok((found, scan))
}
