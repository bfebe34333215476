//! Methods that only their package may override, declared again in another package (JVMS SE 8, 5.4.5).

ghost use Rattle.std.specs.Prelude.{◌≡◌, ◌<◌, ◌&&◌, bytes_eq, not, IfOk};
ghost use Rattle.std.specs.List.{list_any};
ghost use Rattle.jworld.specs.Above.{is_above, TellsAbove};
ghost use Rattle.jworld.specs.Alone.{AreAlone};
ghost use Rattle.jworld.specs.Packages.{package_of, package_at, is_split};
ghost use Rattle.jworld.specs.Faults.{refusal, first_of_files, split_in, split_fault};
ghost use Rattle.kes_text.specs.declared.refusal.Kind.TheVariants as kind;

use crate::alone::{Alone, alone_of};
use crate::classes::{BUILT_IN_COUNT, Classes};
use crate::closure::Closure;
use crate::ids::ClassId;
use crate::members::is_inherited;
use classfile::Method;
use kes_text::{Kind, NoMemory, Refusal};
use std::alloc::Global;

/// A class's name up to its last slash.
fn package_of(name: &[u8]) -> &[u8]
    ensures { result.now ≡ package_of name.now }
{
    let mut end = 0;
    for (i, byte) in name.iter().enumerate() {
        if *byte == b'/' {
            end = i;
        }
    }
    &name[..end]
}

/// Whether two classes are in one package.
fn is_same_package(classes: &Classes<'_>, one: ClassId, other: ClassId) -> bool
    ensures { result ≡ bytes_eq (package_at classes.now one.n) (package_at classes.now other.n) }
{
    package_of(classes.name(one)) == package_of(classes.name(other))
}

/// Whether one of these classes stands above a class in another package.
fn is_below_another_package(
    classes: &Classes<'_>,
    above: &Closure,
    class: ClassId,
    others: &[u32],
) -> bool
    requires { TellsAbove classes.now above.now }
    ensures { result ≡ list_any (λ other. is_above classes.now class.n other && not (bytes_eq (package_at classes.now other) (package_at classes.now class.n))) others.now }
{
    others.iter().any(|n| {
        let other = ClassId { n: *n };
        above.has(class.n, *n) && !is_same_package(classes, other, class)
    })
}

/// Whether a class above declares a method for its package alone, which this one of a class in another package
/// declares again.
fn is_split<'a>(
    classes: &Classes<'a>,
    above: &Closure,
    alone: &Alone<'a>,
    class: ClassId,
    method: &Method<'a>,
) -> bool
    requires above { TellsAbove classes.now above.now }
    requires alone { AreAlone classes.now alone.now }
    ensures { result ≡ is_split classes.now class.n method.now }
{
    is_inherited(method)
        && is_below_another_package(
            classes,
            above,
            class,
            alone.owners(method.name, method.descriptor),
        )
}

fn split_at(file: u32, at: u64) -> Refusal
    ensures { result ≡ refusal file kind.SplitPackage at }
{
    let kind = Kind::SplitPackage;
    Refusal { file, kind, at }
}

/// The first method of a file that is declared again in another package.
fn split_in<'a>(
    classes: &Classes<'a>,
    above: &Closure,
    alone: &Alone<'a>,
    file: u32,
    methods: &[Method<'a>],
) -> Option<Refusal>
    requires few { file < 2048 }
    requires above { TellsAbove classes.now above.now }
    requires alone { AreAlone classes.now alone.now }
    ensures { result ≡ split_in classes.now file methods.now }
{
    let class = ClassId {
        n: BUILT_IN_COUNT + file,
    };
    for method in methods {
        if is_split(classes, above, alone, class, method) {
            return Some(split_at(file, method.at));
        }
    }
    None
}

/// The first method of the first file that is declared again in another package.
pub fn split_fault(
    alloc: Global,
    classes: &Classes<'_>,
    above: &Closure,
) -> Result<Option<Refusal>, NoMemory>
    requires { TellsAbove classes.now above.now }
    ensures { IfOk result (λ fault. fault ≡ first_of_files split_fault classes.now) }
{
    let alone = alone_of(alloc, classes)?;
    for (i, file) in classes.files().iter().enumerate() {
        let fault = split_in(classes, above, &alone, i as u32, file.methods());
        if fault.is_some() {
            return Ok(fault);
        }
    }
    Ok(None)
}
