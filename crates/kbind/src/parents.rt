//! The classes that have direct subclasses.

ghost use Rattle.std.specs.Prelude.{◌≡◌, ◌<◌, ◌||◌, ℕ, false, IfOk, IfSome, option_map, slice_index_or, length};
ghost use Rattle.kbind.specs.Cells.{is_that};
ghost use Rattle.kbind.specs.Kept.{HaveSubclasses};

use jworld::{ClassId, World};
use kes_text::NoMemory;
use std::alloc::Global;

/// Marks a class, if there is one.
fn mark(marks: &mut Vec<bool>, class: Option<ClassId>)
    requires { IfSome class (λ c. c.n < length marks.old.items) }
    ensures len { length marks.new.items ≡ length marks.old.items }
    ensures marks { (k : ℕ) → slice_index_or marks.new.items k false ≡ (is_that (option_map (λ c. c.n) class) k || slice_index_or marks.old.items k false) }
{
    let Some(class) = class else {
        return;
    };
    marks[class.n as usize] = true;
}

/// For each class whether it is the direct superclass of another.
pub fn all_parents(alloc: Global, world: &World<'_>) -> Result<Vec<bool>, NoMemory>
    ensures { IfOk result (λ parents. HaveSubclasses world.now parents.items) }
{
    let mut parents = vec![in alloc; false; world.count() as usize]?;
    for n in (0..world.count()).rev() {
        mark(&mut parents, world.super_of(ClassId { n }));
    }
    Ok(parents)
}
