//! Classes by number and by name, before anything is known of how they fit together.

ghost use Rattle.std.specs.Prelude.{◌≡◌, ◌≤◌, ◌<◌, ◌+◌, length, map, option_map, slice_index_or, [], IfOk};
ghost use Rattle.std.specs.Option.{option_copied};
ghost use Rattle.kes_text.specs.Answers.{OrNoMemory};
ghost use Rattle.jworld.specs.Classes.{names, class_named, file_of, super_of, is_interface, count};
ghost use Rattle.jworld.specs.Upwards.{is_subclass};
ghost use Rattle.jworld.specs.Faults.{is_array_name, refusal, unless, first_of_files, duplicate_fault};
ghost use Rattle.jworld.specs.Held.{built_in_supers, supers_in};

use crate::files::Files;
use crate::ids::ClassId;
use crate::names::Names;
use crate::supers::Supers;
use classfile::{Access, Class};
use kes_text::{Kind, NoMemory, Refusal, Stop};
use std::alloc::Global;
use std::marker::Model;

/// How many classes every world has before those of its files.
pub const BUILT_IN_COUNT: u32 = 4;

/// Class files of which no two have the same name, with the built-in classes before them. Contracts see the files.
/// Nothing is known yet of their superclasses and interfaces: they may be missing, or lead round in a circle.
#[derive(Drop)]
pub struct Classes<'a> {
    files: Files<'a>,
    names: Names<'a>,
    supers: Supers,
}

impl<'a> Model for Classes<'a> {
    ghost use Rattle.jworld.specs.Classes.{World};
    ghost use Rattle.jworld.specs.Held.{IsHeld};

    ghost Value = { World };

    ghost view = { λ c. c.files };

    ghost invariant = { λ c. IsHeld c.files c.names c.supers };
}

fn is_array_name(name: &[u8]) -> bool
    ensures { result ≡ is_array_name name.now }
{
    matches!(name, [b'[', ..])
}

/// The names of all classes, or the first file whose name stands already, is built in or is that of an array.
fn all_names<'a>(alloc: Global, classes: &[Class<'a>]) -> Result<Names<'a>, Stop>
    requires { length classes.now ≤ 2048 }
    ensures { OrNoMemory result (unless (first_of_files duplicate_fault classes.now) (names classes.now)) }
{
    let mut names = Names::built_in(alloc)?;
    for (i, class) in classes.iter().enumerate() {
        let name = class.name();
        if is_array_name(name) || !names.insert(name)? {
            let kind = Kind::Duplicate;
            let file = i as u32;
            return Err(Stop::Refused(Refusal { file, kind, at: 0 }));
        }
    }
    Ok(names)
}

/// The superclasses of all classes.
fn all_supers(alloc: Global, classes: &[Class<'_>], known: &Names<'_>) -> Result<Supers, NoMemory>
    requires few { length classes.now ≤ 2048 }
    requires named { known.now ≡ names classes.now }
    ensures { IfOk result (λ supers. supers ≡ supers_in classes.now) }
{
    let mut supers = Supers::built_in(alloc)?;
    for class in classes {
        let above = known.number(class.super_name());
        supers.push(above.map(|n| ClassId { n: n as u32 }))?;
    }
    Ok(supers)
}

impl<'a> Classes<'a> {
    /// The classes of at most 2,048 files. Refused where two of them have one name, or one has that of a built-in
    /// class or of an array.
    pub fn new(alloc: Global, classes: Vec<Class<'a>>) -> Result<Classes<'a>, Stop>
        requires { length classes.items ≤ 2048 }
        ensures { OrNoMemory result (unless (first_of_files duplicate_fault classes.entry.items) classes.entry.items) }
    {
        let names = all_names(alloc, classes.as_slice())?;
        let supers = all_supers(alloc, classes.as_slice(), &names)?;
        let files = Files::new(classes);
        Ok(Classes {
            files,
            names,
            supers,
        })
    }

    /// The class files, in their order.
    pub fn files(&self) -> &[Class<'a>]
        ensures files { result.now ≡ self.now }
        ensures few { length self.now ≤ 2048 }
    {
        self.files.as_slice()
    }

    /// How many classes there are, the built-in ones counted in.
    pub fn count(&self) -> u32
        ensures count { result ≡ count self.now }
        ensures few { result ≤ 2052 }
    {
        self.files.as_slice().len() as u32 + BUILT_IN_COUNT
    }

    /// The class of a name.
    pub fn class(&self, name: &[u8]) -> Option<ClassId>
        ensures { option_map (λ class. class.n) result ≡ class_named self.now name.now }
    {
        let n = self.names.number(name)?;
        Some(ClassId { n: n as u32 })
    }

    /// The file of a class. None exactly where the class is built in, or there is none of its number.
    pub fn get(&self, class: ClassId) -> Option<&Class<'a>>
        ensures { option_copied result ≡ file_of self.now class.n }
    {
        let place = class.n.checked_sub(BUILT_IN_COUNT)?;
        self.files.as_slice().get(place as usize)
    }

    /// The name of a class; no bytes where there is none of its number.
    pub fn name(&self, class: ClassId) -> &[u8]
        ensures { result.now ≡ slice_index_or (names self.now) class.n [] }
    {
        self.names.get(class.n as usize)
    }

    /// The direct superclass. None for Object, where there is no class of the number, and where the superclass
    /// that the file names isn't there.
    pub fn super_of(&self, class: ClassId) -> Option<ClassId>
        ensures { option_map (λ above. above.n) result ≡ super_of self.now class.n }
    {
        self.supers.get(class.n as usize)
    }

    /// Whether a class is another, or below it along superclasses.
    pub fn is_subclass(&self, class: ClassId, of: ClassId) -> bool
        ensures { result ≡ is_subclass self.now class.n of.n }
    {
        let mut next = Some(class);
        for _step in 0..self.count() {
            let Some(class) = next else {
                return false;
            };
            if class.n == of.n {
                return true;
            }
            next = self.super_of(class);
        }
        false
    }

    /// Whether a class is an interface.
    pub fn is_interface(&self, class: ClassId) -> bool
        ensures { result ≡ is_interface self.now class.n }
    {
        match self.get(class) {
            Some(file) => file.flags().bits & Access::INTERFACE.bits != 0,
            None => false,
        }
    }
}
