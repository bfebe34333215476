//! The fields and methods of classes by name and descriptor.

ghost use Rattle.std.specs.Prelude.{◌≡◌, IfOk, OnOk, slice_index_or};
ghost use Rattle.jworld.specs.Classes.{file_of};
ghost use Rattle.jworld.specs.Members.{fields_of, methods_in};
ghost use Rattle.jworld.specs.Keyed.{AreFirst, HasPlaceBy};
ghost use Rattle.jworld.specs.Found.{is_wanted, is_field_named, is_method_named, nothing, field_in, method_in, TellsMembers, TellsAllMembers};

use crate::classes::Classes;
use crate::ids::ClassId;
use crate::keyed::Keyed;
use crate::members::{is_abstract, is_inherited};
use classfile::{Class, Field, Method};
use jnames::{FieldKey, MethodKey};
use kes_text::NoMemory;
use std::alloc::Global;
use std::marker::Model;

/// Which methods are looked for: all, the instance methods that aren't private, and of these those that aren't abstract.
#[derive(Clone, Copy)]
pub enum Wanted {
    Any,
    Inherited,
    Concrete,
}

fn is_wanted(which: Wanted, method: &Method<'_>) -> bool
    ensures { result ≡ is_wanted which method.now }
{
    match which {
        Wanted::Any => true,
        Wanted::Inherited => is_inherited(method),
        Wanted::Concrete => is_inherited(method) && !is_abstract(method),
    }
}

/// A method's place, if it is wanted.
fn put_method<'a>(
    places: &mut Keyed<'a>,
    alloc: Global,
    which: Wanted,
    method: &Method<'a>,
    place: usize,
) -> Result<(), NoMemory>
    ensures { OnOk result (HasPlaceBy (is_method_named which) method.now place places.old places.new) }
{
    if is_wanted(which, method) {
        places.set(alloc, method.name, method.descriptor, place)?;
    }
    Ok(())
}

/// The place of the first wanted method of each name and descriptor: from the last place to the first, so that an
/// earlier one takes the place of a later one.
fn first_methods<'a>(
    alloc: Global,
    which: Wanted,
    methods: &[Method<'a>],
) -> Result<Keyed<'a>, NoMemory>
    ensures { IfOk result (λ places. AreFirst (is_method_named which) places 0 methods.now) }
{
    let mut places = Keyed::new(alloc);
    for place in (0..methods.len()).rev() {
        put_method(&mut places, alloc, which, &methods[place], place)?;
    }
    Ok(places)
}

/// A field's place.
fn put_field<'a>(
    places: &mut Keyed<'a>,
    alloc: Global,
    field: &Field<'a>,
    place: usize,
) -> Result<(), NoMemory>
    ensures { OnOk result (HasPlaceBy is_field_named field.now place places.old places.new) }
{
    places.set(alloc, field.name, field.descriptor, place)
}

/// The place of the first field of each name and descriptor.
fn first_fields<'a>(alloc: Global, fields: &[Field<'a>]) -> Result<Keyed<'a>, NoMemory>
    ensures { IfOk result (λ places. AreFirst is_field_named places 0 fields.now) }
{
    let mut places = Keyed::new(alloc);
    for place in (0..fields.len()).rev() {
        put_field(&mut places, alloc, &fields[place], place)?;
    }
    Ok(places)
}

/// The fields and methods of a class's file by name and descriptor.
#[derive(Drop)]
struct Found<'a> {
    fields: Keyed<'a>,
    methods: Keyed<'a>,
    inherited: Keyed<'a>,
    concrete: Keyed<'a>,
}

impl<'a> Model for Found<'a> {
    ghost use Rattle.jworld.specs.Found as spec;

    ghost Value = { spec.Found };

    ghost view = { λ f. record { fields = f.fields; methods = f.methods; inherited = f.inherited; concrete = f.concrete } };
}

impl<'a> Found<'a> {
    /// Those of no file.
    fn none(alloc: Global) -> Found<'a>
        ensures { result ≡ nothing }
    {
        Found {
            fields: Keyed::new(alloc),
            methods: Keyed::new(alloc),
            inherited: Keyed::new(alloc),
            concrete: Keyed::new(alloc),
        }
    }

    fn of(alloc: Global, file: &Class<'a>) -> Result<Found<'a>, NoMemory>
        ensures { IfOk result (λ found. TellsMembers file.now.fields file.now.methods found) }
    {
        Ok(Found {
            fields: first_fields(alloc, file.fields())?,
            methods: first_methods(alloc, Wanted::Any, file.methods())?,
            inherited: first_methods(alloc, Wanted::Inherited, file.methods())?,
            concrete: first_methods(alloc, Wanted::Concrete, file.methods())?,
        })
    }

    fn field(&self, name: &[u8], descriptor: &[u8]) -> Option<usize>
        ensures { result ≡ field_in self.now name.now descriptor.now }
    {
        self.fields.get(name, descriptor)
    }

    fn method(&self, which: Wanted, name: &[u8], descriptor: &[u8]) -> Option<usize>
        ensures { result ≡ method_in which self.now name.now descriptor.now }
    {
        match which {
            Wanted::Any => self.methods.get(name, descriptor),
            Wanted::Inherited => self.inherited.get(name, descriptor),
            Wanted::Concrete => self.concrete.get(name, descriptor),
        }
    }
}

fn found_of<'a>(alloc: Global, classes: &Classes<'a>, class: ClassId) -> Result<Found<'a>, NoMemory>
    ensures { IfOk result (λ found. TellsMembers (fields_of classes.now class.n) (methods_in (file_of classes.now class.n)) found) }
{
    match classes.get(class) {
        Some(file) => Found::of(alloc, file),
        None => Ok(Found::none(alloc)),
    }
}

/// The fields and methods of each class by name and descriptor.
#[derive(Drop)]
pub struct AllFound<'a> {
    classes: Vec<Found<'a>>,
}

impl<'a> Model for AllFound<'a> {
    ghost use Rattle.std.specs.Prelude.{List};
    ghost use Rattle.jworld.specs.Found as spec;

    ghost Value = { List spec.Found };

    ghost view = { λ all. all.classes.items };
}

impl<'a> AllFound<'a> {
    /// Those of all classes.
    pub fn of(alloc: Global, classes: &Classes<'a>) -> Result<AllFound<'a>, NoMemory>
        ensures { IfOk result (λ all. TellsAllMembers classes.now all) }
    {
        let mut all = Vec::new(alloc);
        for n in 0..classes.count() {
            all.push(found_of(alloc, classes, ClassId { n })?)?;
        }
        Ok(AllFound { classes: all })
    }

    /// The place of the field of a name and a descriptor in the file of a class.
    pub fn field(&self, class: ClassId, name: &[u8], descriptor: &[u8]) -> Option<usize>
        ensures { result ≡ field_in (slice_index_or self.now class.n nothing) name.now descriptor.now }
    {
        match self.classes.get(class.n as usize) {
            Some(found) => found.field(name, descriptor),
            None => None,
        }
    }

    /// The place of the first wanted method of a name and a descriptor in the file of a class.
    pub fn method(
        &self,
        class: ClassId,
        which: Wanted,
        name: &[u8],
        descriptor: &[u8],
    ) -> Option<usize>
        ensures { result ≡ method_in which (slice_index_or self.now class.n nothing) name.now descriptor.now }
    {
        match self.classes.get(class.n as usize) {
            Some(found) => found.method(which, name, descriptor),
            None => None,
        }
    }
}
