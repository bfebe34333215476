//! The superinterfaces of each class, direct and indirect.

ghost use Rattle.std.specs.Prelude.{◌≡◌, IfOk};
ghost use Rattle.jworld.specs.Above.{TellsAbove};
ghost use Rattle.jworld.specs.Superinterfaces.{is_superinterface, superinterfaces, TellsSuperinterfaces};

use crate::classes::Classes;
use crate::closure::Closure;
use crate::ids::ClassId;
use kes_text::NoMemory;
use sqlite_items::Items;
use std::alloc::Global;

/// Whether a class is a superinterface of another.
fn is_superinterface(classes: &Classes<'_>, above: &Closure, class: ClassId, of: ClassId) -> bool
    requires { TellsAbove classes.now above.now }
    ensures { result ≡ is_superinterface classes.now of.n class.n }
{
    classes.is_interface(class) && above.has(of.n, class.n)
}

/// Those of a class, by number.
fn superinterfaces_of(
    alloc: Global,
    classes: &Classes<'_>,
    above: &Closure,
    class: ClassId,
) -> Result<Items<u32>, NoMemory>
    requires { TellsAbove classes.now above.now }
    ensures { IfOk result (λ found. found ≡ superinterfaces classes.now class.n) }
{
    let mut found = Items::new(alloc);
    for n in 0..classes.count() {
        if is_superinterface(classes, above, ClassId { n }, class) {
            found.push(n)?;
        }
    }
    Ok(found)
}

/// Those of each class.
pub fn all_superinterfaces(
    alloc: Global,
    classes: &Classes<'_>,
    above: &Closure,
) -> Result<Items<Items<u32>>, NoMemory>
    requires { TellsAbove classes.now above.now }
    ensures { IfOk result (λ lists. TellsSuperinterfaces classes.now lists) }
{
    let mut all = Items::new(alloc);
    for n in 0..classes.count() {
        all.push(superinterfaces_of(alloc, classes, above, ClassId { n })?)?;
    }
    Ok(all)
}
