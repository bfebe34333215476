//! Class files of the first form: a class with a native method and an entry, whose code calls the native
//! method, drops what it answers, and returns.

ghost use Rattle.std.specs.Prelude.{◌≡◌, IfOk};
ghost use Rattle.first_form.specs.Class.{is_built_in, is_own_name, is_plain_class, class_with, class_of};

mod code;
mod held;
mod method;
#[cfg(test)]
mod tests;

use classfile::{Access, Class, Code};
use code::{is_lawful, is_plain, operations_of};
use kes_text::NoMemory;
use method::native_and_entry;
use sqlite_items::Items;
use std::alloc::Global;

/// What an instruction of the entry's code does (JVMS 6.5).
#[derive(Clone, Copy, Debug, PartialEq, Eq)]
pub enum Op {
    /// Pushes the int of these 32 bits.
    Const(u32),
    /// Pushes the int in the local of this slot.
    Load(u16),
    /// Pops an int into the local of this slot.
    Store(u16),
    Add,
    Sub,
    Mul,
    /// Calls the native method, and pushes what it answers.
    Invoke,
    Pop,
    Return,
}

/// An instruction, at the place of its first byte in the code.
#[derive(Clone, Copy, Debug, PartialEq, Eq)]
pub struct Placed {
    pub pc: u16,
    pub op: Op,
}

/// What a class of the first form has. Names are bytes of the class file.
#[derive(Drop)]
pub struct FirstClass {
    pub name: Items<u8>,
    /// The name of the native method.
    pub native: Items<u8>,
    /// The name of the entry.
    pub entry: Items<u8>,
    pub max_stack: u16,
    pub max_locals: u16,
    pub code: Items<Placed>,
}

/// Whether every program has a class of this name.
fn is_built_in(name: &[u8]) -> bool
    ensures { result ≡ is_built_in name.now }
{
    name == b"java/lang/Object".as_slice()
        || name == b"java/lang/Throwable".as_slice()
        || name == b"java/lang/Exception".as_slice()
        || name == b"java/lang/RuntimeException".as_slice()
}

fn is_own_name(name: &[u8]) -> bool
    ensures { result ≡ is_own_name name.now }
{
    let is_array = match name {
        [] => false,
        [first, ..] => *first == b'[',
    };
    !is_array && !is_built_in(name)
}

fn is_plain_class(class: &Class<'_>) -> bool
    ensures { result ≡ is_plain_class class.now }
{
    !method::is_set(class.flags(), Access::INTERFACE)
        && is_own_name(class.name())
        && class.super_name() == b"java/lang/Object".as_slice()
        && class.interfaces().is_empty()
        && class.fields().is_empty()
}

/// The class of these names and of this code, if the code is lawful.
#[tactic(auto, unfolding(crate::specs::Class::class_with))]
fn class_with(
    alloc: Global,
    class: &Class<'_>,
    native: &[u8],
    entry: &[u8],
    code: &Code<'_>,
) -> Result<Option<FirstClass>, NoMemory>
    ensures { IfOk result (λ found. found ≡ class_with class.now native.now entry.now code.now) }
{
    let Some(operations) = operations_of(alloc, class, native, code)? else {
        return Ok(None);
    };
    if !is_plain_class(class)
        || !is_plain(code)
        || !is_lawful(
            alloc,
            code.max_stack,
            code.max_locals,
            operations.as_slice(),
        )?
    {
        return Ok(None);
    }
    Ok(Some(FirstClass {
        name: Items::from_slice(alloc, class.name())?,
        native: Items::from_slice(alloc, native)?,
        entry: Items::from_slice(alloc, entry)?,
        max_stack: code.max_stack,
        max_locals: code.max_locals,
        code: operations,
    }))
}

/// The class of the first form that a class file has, or None where it has none.
#[tactic(auto, unfolding(crate::specs::Class::class_of))]
pub fn first_class(alloc: Global, class: &Class<'_>) -> Result<Option<FirstClass>, NoMemory>
    ensures { IfOk result (λ found. found ≡ class_of class.now) }
{
    let Some((native, entry)) = native_and_entry(class.methods()) else {
        return Ok(None);
    };
    match &entry.code {
        Some(code) => class_with(alloc, class, native.name, entry.name, code),
        None => Ok(None),
    }
}
