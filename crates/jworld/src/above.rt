//! What stands above each class.

ghost use Rattle.std.specs.Prelude.{◌≡◌, ◌≤◌, ◌++◌, ℕ, length, filter_map, option_map, option_to_list, IfOk, OnOk};
ghost use Rattle.jworld.specs.Classes.{class_named, interfaces_of, count};
ghost use Rattle.jworld.specs.Above.{supers_of, TellsAbove};
ghost use Rattle.jworld.specs.Edges.{graph_of, AreWithin};

use crate::classes::Classes;
use crate::closure::Closure;
use crate::ids::ClassId;
use classfile::Class;
use kes_text::NoMemory;
use sqlite_items::Items;
use std::alloc::Global;

/// One more class, if it is there.
fn push_some(found: &mut Items<u32>, class: Option<ClassId>) -> Result<(), NoMemory>
    ensures { OnOk result (found.new ≡ found.old ++ option_to_list (option_map (λ c. c.n) class)) }
{
    if let Some(class) = class {
        found.push(class.n)?;
    }
    Ok(())
}

/// The superinterfaces that a file names directly.
fn push_interfaces(
    found: &mut Items<u32>,
    classes: &Classes<'_>,
    file: &Class<'_>,
) -> Result<(), NoMemory>
    ensures { OnOk result (found.new ≡ found.old ++ filter_map (class_named classes.now) file.now.interfaces) }
{
    for name in file.interfaces() {
        push_some(found, classes.class(name))?;
    }
    Ok(())
}

/// The superclass of a class and its direct superinterfaces, by number.
fn supers_of(alloc: Global, classes: &Classes<'_>, class: ClassId) -> Result<Items<u32>, NoMemory>
    ensures { IfOk result (λ supers. supers ≡ supers_of classes.now class.n) }
{
    let mut supers = Items::new(alloc);
    push_some(&mut supers, classes.super_of(class))?;
    if let Some(file) = classes.get(class) {
        push_interfaces(&mut supers, classes, file)?;
    }
    Ok(supers)
}

/// The same for each class.
fn all_supers(alloc: Global, classes: &Classes<'_>) -> Result<Items<Items<u32>>, NoMemory>
    ensures count { IfOk result (λ supers. length supers ≡ count classes.now) }
    ensures few { IfOk result (λ supers. length supers ≤ 2052) }
    ensures supers { IfOk result (λ supers. (class : ℕ) → graph_of supers class ≡ supers_of classes.now class) }
{
    let mut all = Items::new(alloc);
    for n in 0..classes.count() {
        all.push(supers_of(alloc, classes, ClassId { n })?)?;
    }
    Ok(all)
}

/// Which classes stand above which, for any classes: a class may also stand above itself.
pub fn above_of(alloc: Global, classes: &Classes<'_>) -> Result<Closure, NoMemory>
    ensures { IfOk result (λ closure. TellsAbove classes.now closure) }
{
    let supers = all_supers(alloc, classes)?;
    Closure::of(alloc, supers.as_slice())
}
