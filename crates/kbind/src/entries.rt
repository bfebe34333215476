//! The methods with which tasks begin.

ghost use Rattle.std.specs.Prelude.{◌≡◌, ◌≤◌, ◌++◌, ℕ, List, IfOk, OnOk, filter_map, option_map, length};
ghost use Rattle.jworld.specs.Members.{method_id};
ghost use Rattle.kbind.specs.Named.{seen_in, seen_before, seen_from};
ghost use Rattle.kbind.specs.Entries.{may_be_entry, is_entry_of, entry_in};
ghost use Rattle.kbind.specs.Kept.{entry_seen, AreTables};
ghost use Rattle.kbind.specs.Bound.{entry_of, entry_faults};

use crate::classes::{Classes, parts};
use crate::named::{Named, Seen};
use crate::natives::is_static;
use crate::noting::{blame, keep};
use classfile::Method;
use jworld::{ClassId, MethodId, World};
use kconfig::TaskLine;
use kes_text::{Kind, NoMemory, Refusal, escape};
use sqlite_items::Items;
use std::alloc::Global;

/// Whether a method may be an entry.
fn may_be_entry(method: &Method<'_>) -> bool
    ensures { result ≡ may_be_entry method.now }
{
    is_static(method) && method.code.is_some() && method.descriptor == b"()V".as_slice()
}

/// Notes the name of a method, if the method may be an entry.
fn add_entry(
    alloc: Global,
    names: &mut Named,
    method: &Method<'_>,
    place: u16,
) -> Result<(), NoMemory>
    ensures { OnOk result ((name : List ℕ) → seen_in names.new name ≡ seen_before (is_entry_of name method.now) place (seen_in names.old name)) }
{
    if !may_be_entry(method) {
        return Ok(());
    }
    names.add(escape(alloc, method.name)?, place)
}

/// The names of the methods that may be entries.
fn entries_among(alloc: Global, methods: &[Method<'_>]) -> Result<Named, NoMemory>
    requires { length methods.now ≤ 65536 }
    ensures { IfOk result (λ names. (name : List ℕ) → seen_in names name ≡ seen_from (is_entry_of name) 0 methods.now) }
{
    let mut names = Named::new(alloc);
    for place in (0..methods.len()).rev() {
        add_entry(alloc, &mut names, &methods[place], place as u16)?;
    }
    Ok(names)
}

/// Those of one class.
fn entries_in(alloc: Global, world: &World<'_>, class: ClassId) -> Result<Named, NoMemory>
    ensures { IfOk result (λ names. (name : List ℕ) → seen_in names name ≡ entry_seen world.now name class.n) }
{
    let Some(file) = world.get(class) else {
        return Ok(Named::new(alloc));
    };
    let names = entries_among(alloc, file.methods())?;
    Ok(names)
}

/// For each class the names of the methods that may be entries.
pub fn entry_names(alloc: Global, world: &World<'_>) -> Result<Vec<Named>, NoMemory>
    ensures { IfOk result (λ tables. AreTables (entry_seen world.now) tables.items) }
{
    let mut tables = Vec::new(alloc);
    for n in 0..world.count() {
        tables.push(entries_in(alloc, world, ClassId { n })?)?;
    }
    Ok(tables)
}

/// The method of a class that was seen.
fn method_seen(class: ClassId, seen: Option<Seen>) -> Option<MethodId>
    ensures { result ≡ option_map (λ s. method_id class.n s.place) seen }
{
    let seen = seen?;
    Some(MethodId {
        class,
        n: seen.place,
    })
}

/// The entry of a NAME in a class.
fn entry_in(classes: &Classes<'_, '_, '_>, name: &[u8], class: ClassId) -> Option<MethodId>
    ensures { result ≡ entry_in classes.now name.now class.n }
{
    if classes.world().is_interface(class) {
        return None;
    }
    method_seen(class, classes.entry(name, class))
}

/// The method that the CLASS.NAME of a task's entry names.
#[tactic(auto, unfolding(crate::specs::Entries::entry_named))]
fn entry_of<'t>(classes: &Classes<'t, '_, '_>, line: &'t TaskLine) -> Option<MethodId>
    ensures { result ≡ entry_of classes.now line.now }
{
    let (class, name) = parts(line.entry.as_slice())?;
    let class = classes.named(class)?;
    entry_in(classes, name, class)
}

/// The entries of the tasks, and the lines that have none.
pub fn bind_entries<'t>(
    alloc: Global,
    classes: &Classes<'t, '_, '_>,
    lines: &'t [TaskLine],
    faults: &mut Items<Refusal>,
) -> Result<Items<MethodId>, NoMemory>
    ensures members { IfOk result (λ members. members ≡ filter_map (entry_of classes.now) lines.now) }
    ensures faults { IfOk result (λ _. faults.new ≡ faults.old ++ entry_faults classes.now lines.now) }
{
    let mut members = Items::new(alloc);
    for line in lines {
        let found = entry_of(classes, line);
        blame(faults, found.is_some(), Kind::NoEntry, line.line)?;
        keep(&mut members, found)?;
    }
    Ok(members)
}
