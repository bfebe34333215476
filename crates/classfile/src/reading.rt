//! Reading a class file (JVMS SE 8, 4.1).

ghost use Rattle.std.specs.Prelude.{◌≡◌, Ok, IfOk};
ghost use Rattle.classfile.specs.ClassFile.{ClassInfo};
ghost use Rattle.classfile.specs.Scan.{OrNoMemory};
ghost use Rattle.classfile.specs.Sound.{IsSound};
ghost use Rattle.classfile.specs.Spelled.{IsSpelled};
ghost use Rattle.classfile.specs.Reading.{version_at, class_named, super_at, interface_at, interfaces_at, ended, body_at, structure_at, class_file};

use crate::access::Access;
use crate::attributes::attributes_at;
use crate::checks::first_of_both;
use crate::class::Class;
use crate::entries::pool_at;
use crate::members::{fields_at, methods_at};
use crate::names::Names;
use crate::pool::Pool;
use crate::scan::{Scan, refusal};
use crate::slice::Slice;
use crate::uses::{Use, Wanted};
use kes_text::{Kind, Stop};
use std::alloc::Global;

const MAGIC: u32 = 0xCAFEBABE;

/// The major version.
fn version_at(scan: Scan<'_>) -> Result<(u16, Scan<'_>), Stop>
    ensures { result ≡ version_at scan.entry }
{
    let at = scan.at();
    let (magic, scan) = scan.u32()?;
    if magic != MAGIC {
        return Err(refusal(Kind::Magic, at));
    }
    let (_, scan) = scan.u16()?;
    let at = scan.at();
    let (major, scan) = scan.u16()?;
    if !matches!(major, 50..=52) {
        return Err(refusal(Kind::Version, at));
    }
    Ok((major, scan))
}

/// The name of a Class entry, and no bytes where there is none.
fn class_named<'a>(pool: &Pool<'a>, index: u16) -> &'a [u8]
    ensures { result.now ≡ class_named pool.now index }
{
    match pool.class_name(index) {
        Some(name) => name.as_slice(),
        None => &[],
    }
}

/// super_class, which is 0 in java/lang/Object alone.
fn super_at<'a>(name: &[u8], scan: Scan<'a>) -> Result<(u16, Scan<'a>), Stop>
    ensures { OrNoMemory result (super_at name.now scan.entry) }
{
    let at = scan.at();
    let (index, scan) = scan.u16()?;
    if index == 0 && name == b"java/lang/Object".as_slice() {
        return Ok((index, scan));
    }
    let wanted = Wanted::Class;
    let scan = scan.note(Use::Index { at, index, wanted })?;
    Ok((index, scan))
}

/// The name of an interface.
fn interface_at<'a>(pool: &Pool<'a>, scan: Scan<'a>) -> Result<(Slice<'a>, Scan<'a>), Stop>
    ensures { OrNoMemory result (interface_at pool.now scan.entry) }
{
    let (index, scan) = scan.index(Wanted::Class)?;
    Ok((Slice::new(class_named(pool, index)), scan))
}

/// The names of the interfaces.
fn interfaces_at<'a>(
    alloc: Global,
    pool: &Pool<'a>,
    start: Scan<'a>,
) -> Result<(Names<'a>, Scan<'a>), Stop>
    ensures { OrNoMemory result (interfaces_at pool.now start.entry) }
{
    let (count, mut scan) = start.u16()?;
    let mut names = Names::new(alloc);
    for _ in 0..count {
        let (name, behind) = interface_at(pool, scan)?;
        names.push(name.get())?;
        scan = behind;
    }
    Ok((names, scan))
}

/// Nothing stands behind.
fn ended(scan: Scan<'_>) -> Result<Scan<'_>, Stop>
    ensures { result ≡ ended scan.entry }
{
    if scan.is_at_end() {
        Ok(scan)
    } else {
        Err(refusal(Kind::Trailing, scan.at()))
    }
}

/// What stands behind the pool.
#[tactic(auto, unfolding(crate::specs::Reading::body_at))]
fn body_at<'a>(
    alloc: Global,
    version: u16,
    pool: Pool<'a>,
    scan: Scan<'a>,
) -> Result<(Class<'a>, Scan<'a>), Stop>
    ensures { OrNoMemory result (body_at version pool.entry scan.entry) }
{
    let (bits, scan) = scan.u16()?;
    let (this, scan) = scan.index(Wanted::Class)?;
    let name = class_named(&pool, this);
    let at = scan.at();
    let (super_class, scan) = super_at(name, scan)?;
    let (interfaces, scan) = interfaces_at(alloc, &pool, scan)?;
    let (fields, scan) = fields_at(alloc, &pool, scan)?;
    let (methods, scan) = methods_at(alloc, &pool, scan)?;
    let scan = attributes_at(scan)?;
    let scan = ended(scan)?;
    let super_name = class_named(&pool, super_class);
    let class = Class {
        version,
        flags: Access { bits },
        name,
        super_name,
        super_at: at,
        interfaces,
        fields,
        methods,
        pool,
    };
    Ok((class, scan))
}

/// The first pass: the structure of the file. The first scan stands behind the constant pool, and the
/// second, which has passed over what stands behind that, at the end.
#[tactic(auto, unfolding(crate::specs::Reading::structure_at))]
pub fn structure_at<'a>(
    alloc: Global,
    scan: Scan<'a>,
) -> Result<(Class<'a>, Scan<'a>, Scan<'a>), Stop>
    ensures { OrNoMemory result (structure_at scan.entry) }
{
    let (version, scan) = version_at(scan)?;
    let (pool, scan) = pool_at(alloc, version, scan)?;
    let (class, end) = body_at(alloc, version, pool, scan.anew(alloc))?;
    Ok((class, scan, end))
}

/// The class file, or its first fault.
fn class_of(alloc: Global, bytes: &[u8]) -> Result<Class<'_>, Stop>
    ensures { OrNoMemory result (class_file bytes.now) }
{
    let (class, behind_pool, end) = structure_at(alloc, Scan::new(alloc, bytes))?;
    match first_of_both(alloc, &class.pool, behind_pool.uses(), end.uses())? {
        Some(fault) => Err(Stop::Refused(fault)),
        None => Ok(class),
    }
}

/// The class file that all of the bytes are (JVMS SE 8, 4.1 to 4.7), or why they are none.
///
/// The first pass finds the first fault of structure in the file's order: Truncated, Magic, Version,
/// PoolTag, CodeLength, AttrLength, CodeCount, Trailing. Where there is none, the second finds the first
/// index field or member in the file's order that shows PoolIndex, BadDescriptor or TwoMembers. A
/// refusal has 0 for its file, which the caller sets. All attributes but Code, the first ConstantValue of
/// a field and the first StackMapTable of a Code are passed over by their length. Names and code are
/// slices of the file. Memory is in proportion to the file's length, and time to that and its logarithm.
pub fn read_class(alloc: Global, bytes: &[u8]) -> Result<Class<'_>, Stop>
    // What is answered is what the bytes say, or their first fault.
    ensures exact { OrNoMemory result (class_file bytes.now) }
    // No index of an accepted constant pool is broken: each class and member that it names is told.
    ensures sound { IfOk result (λ class. IsSound class.pool) }
    // What is answered is what all of the bytes spell.
    ensures spelled { IfOk result (λ class. IsSpelled class bytes.now) }
    // What bytes spell is answered.
    ensures only { (class : ClassInfo) → IsSpelled class bytes.now → OrNoMemory result (Ok class) }
{
    class_of(alloc, bytes)
}
