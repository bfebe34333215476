//! Reading the constant pool (JVMS SE 8, 4.4).

ghost use Rattle.std.specs.Prelude.{◌≡◌};
ghost use Rattle.classfile.specs.Scan.{OrNoMemory};
ghost use Rattle.classfile.specs.Entries.{utf8_at, integer_at, long_at, opaque_at, class_at, one_index_at, reference_at, name_and_type_at, referred, method_handle_at, invoke_dynamic_at, body_at, entry_at, is_wide, place_at, pool_at};
ghost use Rattle.classfile.specs.declared.pool.Entry.TheVariants as entry;
ghost use Rattle.classfile.specs.declared.uses.Wanted.TheVariants as wanted;

use crate::pool::{Entry, Pool};
use crate::scan::{Scan, refusal};
use crate::text::Text;
use crate::uses::Wanted;
use kes_text::{Kind, Stop};
use std::alloc::Global;

fn utf8_at<'a>(scan: Scan<'a>) -> Result<(Entry<'a>, Scan<'a>), Stop>
    ensures { result ≡ utf8_at scan.entry }
{
    let (length, scan) = scan.u16()?;
    let (bytes, scan) = scan.take(usize::from(length))?;
    Ok((Entry::Utf8(Text::new(bytes.get())), scan))
}

fn integer_at<'a>(scan: Scan<'a>) -> Result<(Entry<'a>, Scan<'a>), Stop>
    ensures { result ≡ integer_at scan.entry }
{
    let (number, scan) = scan.u32()?;
    Ok((Entry::Integer(number.cast_signed()), scan))
}

fn long_at<'a>(scan: Scan<'a>) -> Result<(Entry<'a>, Scan<'a>), Stop>
    ensures { result ≡ long_at scan.entry }
{
    let (number, scan) = scan.u64()?;
    Ok((Entry::Long(number.cast_signed()), scan))
}

fn opaque_at<'a>(
    kept: Entry<'a>,
    count: usize,
    scan: Scan<'a>,
) -> Result<(Entry<'a>, Scan<'a>), Stop>
    ensures { result ≡ opaque_at kept.entry count scan.entry }
{
    let (_, scan) = scan.take(count)?;
    Ok((kept, scan))
}

fn class_at<'a>(scan: Scan<'a>) -> Result<(Entry<'a>, Scan<'a>), Stop>
    ensures { OrNoMemory result (class_at scan.entry) }
{
    let (name, scan) = scan.index(Wanted::ClassText)?;
    Ok((Entry::Class { name }, scan))
}

fn one_index_at<'a>(
    kept: Entry<'a>,
    wanted: Wanted,
    scan: Scan<'a>,
) -> Result<(Entry<'a>, Scan<'a>), Stop>
    ensures { OrNoMemory result (one_index_at kept.entry wanted scan.entry) }
{
    let (_, scan) = scan.index(wanted)?;
    Ok((kept, scan))
}

fn fieldref_at<'a>(scan: Scan<'a>) -> Result<(Entry<'a>, Scan<'a>), Stop>
    ensures { OrNoMemory result (reference_at entry.Fieldref wanted.FieldType scan.entry) }
{
    let (class, scan) = scan.index(Wanted::Class)?;
    let (name_and_type, scan) = scan.index(Wanted::FieldType)?;
    Ok((
        Entry::Fieldref {
            class,
            name_and_type,
        },
        scan,
    ))
}

fn methodref_at<'a>(scan: Scan<'a>) -> Result<(Entry<'a>, Scan<'a>), Stop>
    ensures { OrNoMemory result (reference_at entry.Methodref wanted.MethodType scan.entry) }
{
    let (class, scan) = scan.index(Wanted::Class)?;
    let (name_and_type, scan) = scan.index(Wanted::MethodType)?;
    Ok((
        Entry::Methodref {
            class,
            name_and_type,
        },
        scan,
    ))
}

fn interface_methodref_at<'a>(scan: Scan<'a>) -> Result<(Entry<'a>, Scan<'a>), Stop>
    ensures { OrNoMemory result (reference_at entry.InterfaceMethodref wanted.MethodType scan.entry) }
{
    let (class, scan) = scan.index(Wanted::Class)?;
    let (name_and_type, scan) = scan.index(Wanted::MethodType)?;
    Ok((
        Entry::InterfaceMethodref {
            class,
            name_and_type,
        },
        scan,
    ))
}

fn name_and_type_at<'a>(scan: Scan<'a>) -> Result<(Entry<'a>, Scan<'a>), Stop>
    ensures { OrNoMemory result (name_and_type_at scan.entry) }
{
    let (name, scan) = scan.index(Wanted::Text)?;
    let (descriptor, scan) = scan.index(Wanted::AnyText)?;
    Ok((Entry::NameAndType { name, descriptor }, scan))
}

/// What a method handle of this kind refers to.
fn referred(version: u16, kind: u8) -> Wanted
    ensures { result ≡ referred version kind }
{
    match kind {
        1..=4 => Wanted::Fieldref,
        6 | 7 if version >= 52 => Wanted::AnyMethodref,
        5..=8 => Wanted::Methodref,
        9 => Wanted::InterfaceMethodref,
        _ => Wanted::Nothing,
    }
}

fn method_handle_at<'a>(version: u16, scan: Scan<'a>) -> Result<(Entry<'a>, Scan<'a>), Stop>
    ensures { OrNoMemory result (method_handle_at version scan.entry) }
{
    let (kind, scan) = scan.u8()?;
    one_index_at(Entry::MethodHandle, referred(version, kind), scan)
}

fn invoke_dynamic_at<'a>(scan: Scan<'a>) -> Result<(Entry<'a>, Scan<'a>), Stop>
    ensures { OrNoMemory result (invoke_dynamic_at scan.entry) }
{
    let (_, scan) = scan.u16()?;
    one_index_at(Entry::InvokeDynamic, Wanted::MethodType, scan)
}

/// What stands behind the tag at `at`, by the tag (JVMS SE 8, table 4.4-A).
fn body_at<'a>(
    version: u16,
    at: u64,
    tag: u8,
    scan: Scan<'a>,
) -> Result<(Entry<'a>, Scan<'a>), Stop>
    ensures { OrNoMemory result (body_at version at tag scan.entry) }
{
    match tag {
        1 => utf8_at(scan),
        3 => integer_at(scan),
        4 => opaque_at(Entry::Float, 4, scan),
        5 => long_at(scan),
        6 => opaque_at(Entry::Double, 8, scan),
        7 => class_at(scan),
        8 => one_index_at(Entry::String, Wanted::Text, scan),
        9 => fieldref_at(scan),
        10 => methodref_at(scan),
        11 => interface_methodref_at(scan),
        12 => name_and_type_at(scan),
        15 => method_handle_at(version, scan),
        16 => one_index_at(Entry::MethodType, Wanted::MethodText, scan),
        18 => invoke_dynamic_at(scan),
        _ => Err(refusal(Kind::PoolTag, at)),
    }
}

#[tactic(auto, unfolding(crate::specs::Entries::entry_at))]
fn entry_at<'a>(version: u16, scan: Scan<'a>) -> Result<(Entry<'a>, Scan<'a>), Stop>
    ensures { OrNoMemory result (entry_at version scan.entry) }
{
    let at = scan.at();
    let (tag, scan) = scan.u8()?;
    body_at(version, at, tag, scan)
}

/// Whether the entry takes two places.
fn is_wide(entry: &Entry<'_>) -> bool
    ensures { result ≡ is_wide entry.now }
{
    matches!(entry, Entry::Long(_) | Entry::Double)
}

/// The next place of the pool: behind a wide entry, or an entry; and whether it is a wide one.
fn place_at<'a>(
    version: u16,
    wide: bool,
    scan: Scan<'a>,
) -> Result<(Entry<'a>, bool, Scan<'a>), Stop>
    ensures { OrNoMemory result (place_at version wide scan.entry) }
{
    if wide {
        return Ok((Entry::Behind, false, scan));
    }
    let (entry, scan) = entry_at(version, scan)?;
    let wide = is_wide(&entry);
    Ok((entry, wide, scan))
}

/// The constant pool.
pub fn pool_at<'a>(
    alloc: Global,
    version: u16,
    start: Scan<'a>,
) -> Result<(Pool<'a>, Scan<'a>), Stop>
    ensures { OrNoMemory result (pool_at version start.entry) }
{
    let (count, mut scan) = start.u16()?;
    let mut entries = Vec::new(alloc);
    let mut wide = false;
    for _ in 0..count.saturating_sub(1) {
        let (entry, is_wide, behind) = place_at(version, wide, scan)?;
        entries.push(entry)?;
        wide = is_wide;
        scan = behind;
    }
    Ok((Pool::new(entries), scan))
}
