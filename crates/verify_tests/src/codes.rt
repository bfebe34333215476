//! Codes in place of those of methods of the class Codes.

use crate::classes::declared;
use classfile::{Class, Code, Method};
use jcode::decode;
use jworld::{ClassId, MethodId, World};
use kes_text::Stop;
use sqlite_items::Items;
use stackmap::Frame;
use std::alloc::{AllocError, Global};
use verify::verify;

/// A code in place of a method's, and the table of its frames, as hexadecimal digits.
#[derive(Drop)]
pub struct Case<'t> {
    pub what: &'t str,
    method: &'t str,
    code: &'t str,
    table: &'t str,
}

/// What a line says.
pub fn case_of(line: &str) -> Option<Case<'_>> {
    let (what, rest) = line.split_once('|')?;
    let mut words = rest.split_whitespace();
    Some(Case {
        what: what.trim(),
        method: words.next()?,
        code: words.next()?,
        table: words.next()?,
    })
}

/// The bytes of hexadecimal digits; none for another text.
fn bytes_of(alloc: Global, text: &str) -> Result<Vec<u8>, AllocError> {
    match hex::decode(alloc, text) {
        Ok(bytes) => Ok(bytes),
        Err(_) => Ok(Vec::new(alloc)),
    }
}

/// A method of a name in a class, its number, and its code.
fn method_named<'c, 'w>(
    class: &'c Class<'w>,
    name: &str,
) -> Option<(u16, &'c Method<'w>, &'c Code<'w>)> {
    for (n, method) in class.methods().iter().enumerate() {
        if method.name == name.as_bytes() {
            return Some((u16::try_from(n).ok()?, method, method.code.as_ref()?));
        }
    }
    None
}

/// The class Codes and its number.
fn codes<'c, 'w>(world: &'c World<'w>) -> Option<(ClassId, &'c Class<'w>)> {
    let id = world.class(b"Codes")?;
    Some((id, world.get(id)?))
}

/// The frames of a code in place of a method's.
pub fn frames_of(alloc: Global, world: &World<'_>, case: &Case<'_>) -> Result<Items<Frame>, Stop> {
    let Some((own, class)) = codes(world) else {
        return Err(Stop::NoMemory);
    };
    let Some((n, method, code)) = method_named(class, case.method) else {
        return Err(Stop::NoMemory);
    };
    let bytes = bytes_of(alloc, case.code)?;
    let table = bytes_of(alloc, case.table)?;
    let instructions = decode(alloc, bytes.as_slice(), code.at, class)?;
    let maps = declared(alloc, class, method, code.at, table.as_slice())?;
    let id = MethodId { class: own, n };
    verify(alloc, world, id, instructions.as_slice(), maps.as_slice())
}

/// The offset of the first byte of the method's own code.
pub fn base_of(world: &World<'_>, case: &Case<'_>) -> Option<u64> {
    let (_, class) = codes(world)?;
    let (_, _, code) = method_named(class, case.method)?;
    Some(code.at)
}
