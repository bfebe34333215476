//! Why classes are no world, file by file.

ghost use Rattle.std.specs.Prelude.{◌≡◌, ◌+◌, ◌<◌, ◌≤◌, ◌^◌, length, map};
ghost use Rattle.jworld.specs.Classes.{class_named};
ghost use Rattle.jworld.specs.Faults.{kind_of_super, super_fault, interface_fault, supers_fault, large_fault, first_of_files};

use crate::classes::Classes;
use classfile::Class;
use kes_text::{Kind, Refusal};

/// The most fields and methods of a world.
const MAX_MEMBERS: usize = 65_536;

/// What is wrong with the name of a superclass or of an interface.
fn kind_of_super(classes: &Classes<'_>, wants_interface: bool, name: &[u8]) -> Option<Kind>
    ensures { result ≡ kind_of_super classes.now wants_interface (class_named classes.now name.now) }
{
    let Some(class) = classes.class(name) else {
        return Some(Kind::MissingClass);
    };
    if classes.is_interface(class) == wants_interface {
        None
    } else {
        Some(Kind::SuperKind)
    }
}

fn super_fault(
    classes: &Classes<'_>,
    file: u32,
    wants_interface: bool,
    name: &[u8],
    at: u64,
) -> Option<Refusal>
    ensures { result ≡ super_fault classes.now file wants_interface name.now at }
{
    let kind = kind_of_super(classes, wants_interface, name)?;
    Some(Refusal { file, kind, at })
}

/// The first fault of the interfaces of a file whose super_class stands at a place.
fn interface_fault(
    classes: &Classes<'_>,
    file: u32,
    super_at: u64,
    names: &[&[u8]],
) -> Option<Refusal>
    ensures { result ≡ interface_fault classes.now file (super_at + 4) (map (λ name. name.now) names.now) }
{
    let mut at = super_at.saturating_add(4);
    for name in names {
        let fault = super_fault(classes, file, true, name, at);
        if fault.is_some() {
            return fault;
        }
        at = at.saturating_add(2);
    }
    None
}

/// A superclass or an interface of a file that isn't there or is of the other kind.
fn supers_fault(classes: &Classes<'_>, file: u32, class: &Class<'_>) -> Option<Refusal>
    ensures { result ≡ supers_fault classes.now file class.now }
{
    let at = class.super_at();
    let fault = super_fault(classes, file, false, class.super_name(), at);
    if fault.is_some() {
        return fault;
    }
    interface_fault(classes, file, at, class.interfaces())
}

/// The first superclass or interface that isn't there or is of the other kind.
pub fn first_supers_fault(classes: &Classes<'_>) -> Option<Refusal>
    ensures { result ≡ first_of_files supers_fault classes.now }
{
    for (i, class) in classes.files().iter().enumerate() {
        let fault = supers_fault(classes, i as u32, class);
        if fault.is_some() {
            return fault;
        }
    }
    None
}

/// The first file with which there are more than 65,536 fields and methods.
pub fn first_large_fault(classes: &Classes<'_>) -> Option<Refusal>
    ensures { result ≡ first_of_files large_fault classes.now }
{
    let mut members: usize = 0;
    for (i, class) in classes.files().iter().enumerate() {
        members = members
            .saturating_add(class.fields().len())
            .saturating_add(class.methods().len());
        if members > MAX_MEMBERS {
            let kind = Kind::Large;
            let file = i as u32;
            return Some(Refusal { file, kind, at: 0 });
        }
    }
    None
}
