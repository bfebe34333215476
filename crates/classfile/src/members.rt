//! Fields and methods (JVMS SE 8, 4.5 and 4.6).

ghost use Rattle.std.specs.Prelude.{◌≡◌};
ghost use Rattle.classfile.specs.Scan.{OrNoMemory};
ghost use Rattle.classfile.specs.Members.{name_at, is_set, wanted_text, head_at, is_int_text, fitting, constant_in, field_at, fields_at, is_bare, method_attribute_at, all_method_attributes_at, method_attributes_at, method_at, methods_at};

use crate::access::Access;
use crate::attributes::{field_attributes_at, is_text, skipped_at};
use crate::class::{Code, Field, Method};
use crate::codes::code_attribute;
use crate::member::Constant;
use crate::pool::Pool;
use crate::rows::Rows;
use crate::scan::{Scan, refusal};
use crate::uses::{Use, Wanted};
use kes_text::{Kind, Stop};
use std::alloc::Global;

/// The text of a Utf8 entry, and no bytes where there is none.
pub fn name_at<'a>(pool: &Pool<'a>, index: u16) -> &'a [u8]
    ensures { result.now ≡ name_at pool.now index }
{
    match pool.text(index) {
        Some(text) => text.as_slice(),
        None => &[],
    }
}

/// access_flags, name_index and descriptor_index.
#[derive(Clone, Copy)]
pub struct Head {
    pub flags: u16,
    pub name: u16,
    pub descriptor: u16,
}

fn is_set(flags: u16, flag: u16) -> bool
    ensures { result ≡ is_set flags flag }
{
    flags & flag != 0
}

/// What the descriptor of a member is to be.
fn wanted_text(is_method: bool, flags: u16) -> Wanted
    ensures { result ≡ wanted_text is_method flags }
{
    if !is_method {
        Wanted::FieldText
    } else if is_set(flags, Access::STATIC.bits) {
        Wanted::MethodText
    } else {
        Wanted::InstanceText
    }
}

/// The head of a member, which is noted with its two index fields.
fn head_at<'a>(is_method: bool, scan: Scan<'a>) -> Result<(Head, Scan<'a>), Stop>
    ensures { OrNoMemory result (head_at is_method scan.entry) }
{
    let at = scan.at();
    let (flags, scan) = scan.u16()?;
    let name_at = scan.at();
    let (name, scan) = scan.u16()?;
    let descriptor_at = scan.at();
    let (descriptor, scan) = scan.u16()?;
    let scan = scan.note(Use::Member {
        at,
        is_method,
        name,
        descriptor,
    })?;
    let scan = scan.note(Use::Index {
        at: name_at,
        index: name,
        wanted: Wanted::Text,
    })?;
    let scan = scan.note(Use::Index {
        at: descriptor_at,
        index: descriptor,
        wanted: wanted_text(is_method, flags),
    })?;
    let head = Head {
        flags,
        name,
        descriptor,
    };
    Ok((head, scan))
}

/// Whether an int stands for the values of this type.
fn is_int_text(descriptor: &[u8]) -> bool
    ensures { result ≡ is_int_text descriptor.now }
{
    descriptor == b"I".as_slice()
        || descriptor == b"S".as_slice()
        || descriptor == b"C".as_slice()
        || descriptor == b"B".as_slice()
        || descriptor == b"Z".as_slice()
}

/// The value of a constant that fits a type.
fn fitting(descriptor: &[u8], constant: Option<Constant>) -> Option<i64>
    ensures { result ≡ fitting descriptor.now constant }
{
    match constant {
        Some(Constant::Int(value)) if is_int_text(descriptor) => Some(i64::from(value)),
        Some(Constant::Long(value)) if descriptor == b"J".as_slice() => Some(value),
        _ => None,
    }
}

/// The constant of a static field, whose entry fits its type.
fn constant_in(pool: &Pool<'_>, flags: u16, descriptor: &[u8], index: Option<u16>) -> Option<i64>
    ensures { result ≡ constant_in pool.now flags descriptor.now index }
{
    match index {
        Some(index) if is_set(flags, Access::STATIC.bits) => {
            fitting(descriptor, pool.constant(index))
        }
        _ => None,
    }
}

#[tactic(auto, unfolding(crate::specs::Members::field_at))]
fn field_at<'a>(pool: &Pool<'a>, scan: Scan<'a>) -> Result<(Field<'a>, Scan<'a>), Stop>
    ensures { OrNoMemory result (field_at pool.now scan.entry) }
{
    let at = scan.at();
    let (head, scan) = head_at(false, scan)?;
    let (index, scan) = field_attributes_at(pool, scan)?;
    let descriptor = name_at(pool, head.descriptor);
    let field = Field {
        at,
        flags: Access { bits: head.flags },
        name: name_at(pool, head.name),
        descriptor,
        constant: constant_in(pool, head.flags, descriptor, index),
    };
    Ok((field, scan))
}

/// Whether a method is native or abstract, and so has no code.
fn is_bare(flags: u16) -> bool
    ensures { result ≡ is_bare flags }
{
    is_set(flags, Access::NATIVE.bits) || is_set(flags, Access::ABSTRACT.bits)
}

/// The next attribute of a method that stands at `at`, behind one with a Code or not.
fn method_attribute_at<'a>(
    pool: &Pool<'a>,
    at: u64,
    bare: bool,
    found: Option<Code<'a>>,
    scan: Scan<'a>,
) -> Result<(Option<Code<'a>>, Scan<'a>), Stop>
    ensures { OrNoMemory result (method_attribute_at pool.now at bare (found.entry, scan.entry)) }
{
    let (name, scan) = scan.index(Wanted::Text)?;
    if is_text(pool, name, b"Code") {
        if bare || found.is_some() {
            return Err(refusal(Kind::CodeCount, at));
        }
        return code_attribute(pool, scan);
    }
    let scan = skipped_at(scan)?;
    Ok((found, scan))
}

/// The attributes of a method that stands at `at`: its Code, if it has one.
fn all_method_attributes_at<'a>(
    pool: &Pool<'a>,
    at: u64,
    bare: bool,
    start: Scan<'a>,
) -> Result<(Option<Code<'a>>, Scan<'a>), Stop>
    ensures { OrNoMemory result (all_method_attributes_at pool.now at bare start.entry) }
{
    let (count, mut scan) = start.u16()?;
    let mut found = None;
    for _ in 0..count {
        let (next, behind) = method_attribute_at(pool, at, bare, found, scan)?;
        found = next;
        scan = behind;
    }
    Ok((found, scan))
}

/// The attributes of a method that stands at `at`, which has a Code unless it is bare.
fn method_attributes_at<'a>(
    pool: &Pool<'a>,
    at: u64,
    bare: bool,
    scan: Scan<'a>,
) -> Result<(Option<Code<'a>>, Scan<'a>), Stop>
    ensures { OrNoMemory result (method_attributes_at pool.now at bare scan.entry) }
{
    let (found, scan) = all_method_attributes_at(pool, at, bare, scan)?;
    if bare || found.is_some() {
        Ok((found, scan))
    } else {
        Err(refusal(Kind::CodeCount, at))
    }
}

#[tactic(auto, unfolding(crate::specs::Members::method_at))]
fn method_at<'a>(pool: &Pool<'a>, scan: Scan<'a>) -> Result<(Method<'a>, Scan<'a>), Stop>
    ensures { OrNoMemory result (method_at pool.now scan.entry) }
{
    let at = scan.at();
    let (head, scan) = head_at(true, scan)?;
    let (code, scan) = method_attributes_at(pool, at, is_bare(head.flags), scan)?;
    let method = Method {
        at,
        flags: Access { bits: head.flags },
        name: name_at(pool, head.name),
        descriptor: name_at(pool, head.descriptor),
        code,
    };
    Ok((method, scan))
}

/// The fields of a class.
pub fn fields_at<'a>(
    alloc: Global,
    pool: &Pool<'a>,
    start: Scan<'a>,
) -> Result<(Rows<Field<'a>>, Scan<'a>), Stop>
    ensures { OrNoMemory result (fields_at pool.now start.entry) }
{
    let (count, mut scan) = start.u16()?;
    let mut fields = Vec::new(alloc);
    for _ in 0..count {
        let (field, behind) = field_at(pool, scan)?;
        fields.push(field)?;
        scan = behind;
    }
    Ok((Rows::new(fields), scan))
}

/// The methods of a class.
pub fn methods_at<'a>(
    alloc: Global,
    pool: &Pool<'a>,
    start: Scan<'a>,
) -> Result<(Rows<Method<'a>>, Scan<'a>), Stop>
    ensures { OrNoMemory result (methods_at pool.now start.entry) }
{
    let (count, mut scan) = start.u16()?;
    let mut methods = Vec::new(alloc);
    for _ in 0..count {
        let (method, behind) = method_at(pool, scan)?;
        methods.push(method)?;
        scan = behind;
    }
    Ok((Rows::new(methods), scan))
}
