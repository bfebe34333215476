//! A world of classes that fit together.

ghost use Rattle.std.specs.Prelude.{◌≡◌, ◌≤◌, None, IfSome, IfOk, IfErr, ◌+◌, length, option_map, position, slice_index_or, []};
ghost use Rattle.std.specs.Option.{option_copied};
ghost use Rattle.jworld.specs.Classes.{names, class_named, file_of, super_of, interfaces_of, is_interface, count};
ghost use Rattle.jworld.specs.Upwards.{is_subclass};
ghost use Rattle.jworld.specs.Above.{is_above, TellsAbove};
ghost use Rattle.jworld.specs.Superinterfaces.{superinterfaces};
ghost use Rattle.jworld.specs.Members.{is_field, is_method, fields_of, methods_in, declared_field, declared_method};
ghost use Rattle.jworld.specs.Found.{is_method_named};
ghost use Rattle.jworld.specs.Fields.{first_found, resolved_field};
ghost use Rattle.jworld.specs.Passed.{FindNothing};
ghost use Rattle.jworld.specs.Methods.{inherited_method, concrete_method, selected_method};
ghost use Rattle.jworld.specs.Faults.{world_fault, misfit, world_of, IsOfFile};
ghost use Rattle.kes_text.specs.Answers.{OrNoMemory};

use crate::above::above_of;
use crate::classes::Classes;
use crate::closure::Closure;
use crate::cycles::cycle_fault;
use crate::faults::{first_large_fault, first_supers_fault};
use crate::found::{AllFound, Wanted};
use crate::ids::{ClassId, FieldId, MethodId};
use crate::members::built_in_place;
use crate::passed::Passed;
use crate::splits::split_fault;
use crate::superinterfaces::all_superinterfaces;
use classfile::Class;
use jnames::{FieldKey, MethodKey};
use kes_text::{NoMemory, Refusal, Stop};
use sqlite_items::Items;
use std::alloc::Global;
use std::marker::Model;

/// At most 2,048 class files that fit together, with the built-in classes before them. Contracts see the files; a
/// world has none of the faults for which class files are refused.
#[derive(Drop)]
pub struct World<'a> {
    classes: Classes<'a>,
    above: Closure,
    superinterfaces: Items<Items<u32>>,
    found: AllFound<'a>,
}

impl<'a> Model for World<'a> {
    ghost use Rattle.jworld.specs.Classes.{World as Files};
    ghost use Rattle.jworld.specs.Held.{IsWorld};

    ghost Value = { Files };

    ghost view = { λ w. w.classes };

    ghost invariant = { λ w. IsWorld w.classes w.above w.superinterfaces w.found };
}

/// Why classes of different names don't fit together.
fn misfit(
    alloc: Global,
    classes: &Classes<'_>,
    above: &Closure,
) -> Result<Option<Refusal>, NoMemory>
    requires { TellsAbove classes.now above.now }
    ensures { IfOk result (λ fault. fault ≡ misfit classes.now) }
{
    let fault = first_supers_fault(classes);
    if fault.is_some() {
        return Ok(fault);
    }
    let fault = cycle_fault(classes, above);
    if fault.is_some() {
        return Ok(fault);
    }
    let fault = split_fault(alloc, classes, above)?;
    if fault.is_some() {
        return Ok(fault);
    }
    Ok(first_large_fault(classes))
}

impl<'a> World<'a> {
    /// The world of these class files, or their first fault.
    fn of_classes(alloc: Global, classes: Vec<Class<'a>>) -> Result<World<'a>, Stop>
        requires { length classes.items ≤ 2048 }
        ensures { OrNoMemory result (world_of classes.entry.items) }
    {
        let classes = Classes::new(alloc, classes)?;
        let above = above_of(alloc, &classes)?;
        match misfit(alloc, &classes, &above)? {
            Some(fault) => Err(Stop::Refused(fault)),
            None => {
                let superinterfaces = all_superinterfaces(alloc, &classes, &above)?;
                let found = AllFound::of(alloc, &classes)?;
                Ok(World {
                    classes,
                    above,
                    superinterfaces,
                    found,
                })
            }
        }
    }

    /// The world of at most 2,048 class files. They are refused where two of them have one name, or one has that of a
    /// built-in class or of an array; where a superclass or an interface isn't there or is of the other kind; where a
    /// class stands above itself; where a method that a class declares for its package alone is declared again in
    /// another package below; and where they have more than 65,536 fields and methods.
    pub fn new(alloc: Global, classes: Vec<Class<'a>>) -> Result<World<'a>, Stop>
        requires { length classes.items ≤ 2048 }
        ensures says { OrNoMemory result (world_of classes.entry.items) }
        ensures file { IfErr result (IsOfFile (length classes.entry.items)) }
    {
        World::of_classes(alloc, classes)
    }

    /// The class files, in their order. They have none of the faults for which class files are refused.
    pub fn files(&self) -> &[Class<'a>]
        ensures files { result.now ≡ self.now }
        ensures few { length self.now ≤ 2048 }
        ensures faultless { world_fault self.now ≡ None }
    {
        self.classes.files()
    }

    /// The classes by number and by name.
    pub(crate) fn classes(&self) -> &Classes<'a>
        ensures { result.now ≡ self.now }
    {
        &self.classes
    }

    /// How many classes there are, the built-in ones counted in.
    pub fn count(&self) -> u32
        ensures count { result ≡ count self.now }
        ensures few { result ≤ 2052 }
    {
        self.classes.count()
    }

    /// The class of a name.
    pub fn class(&self, name: &[u8]) -> Option<ClassId>
        ensures { option_map (λ class. class.n) result ≡ class_named self.now name.now }
    {
        self.classes.class(name)
    }

    /// The file of a class. None exactly where the class is built in, or there is none of its number.
    pub fn get(&self, class: ClassId) -> Option<&Class<'a>>
        ensures file { option_copied result ≡ file_of self.now class.n }
        ensures small { IfSome result (λ file. length file.now.fields + length file.now.methods ≤ 65536) }
    {
        self.classes.get(class)
    }

    /// The name of a class; no bytes where there is none of its number.
    pub fn name(&self, class: ClassId) -> &[u8]
        ensures { result.now ≡ slice_index_or (names self.now) class.n [] }
    {
        self.classes.name(class)
    }

    /// The direct superclass. None exactly for Object, and where there is no class of the number.
    pub fn super_of(&self, class: ClassId) -> Option<ClassId>
        ensures { option_map (λ above. above.n) result ≡ super_of self.now class.n }
    {
        self.classes.super_of(class)
    }

    /// Whether a class is another, or below it along superclasses.
    pub fn is_subclass(&self, class: ClassId, of: ClassId) -> bool
        ensures { result ≡ is_subclass self.now class.n of.n }
    {
        self.classes.is_subclass(class, of)
    }

    /// Whether a class stands above another: whether superclasses and superinterfaces lead up to it.
    pub fn is_above(&self, class: ClassId, above: ClassId) -> bool
        ensures { result ≡ is_above self.now class.n above.n }
    {
        self.above.has(class.n, above.n)
    }

    /// The superinterfaces of a class, direct and indirect, by number.
    pub(crate) fn superinterfaces(&self, class: ClassId) -> &[u32]
        ensures { result.now ≡ superinterfaces self.now class.n }
    {
        match self.superinterfaces.get(class.n as usize) {
            Some(found) => found.as_slice(),
            None => &[],
        }
    }

    /// Whether a class is an interface.
    pub fn is_interface(&self, class: ClassId) -> bool
        ensures { result ≡ is_interface self.now class.n }
    {
        self.classes.is_interface(class)
    }

    /// The place of a field in the file of a class.
    fn field_place(&self, class: ClassId, key: &FieldKey) -> Option<usize>
        ensures { result ≡ position (is_field key.now) (fields_of self.now class.n) }
    {
        self.found
            .field(class, key.name.as_slice(), key.descriptor.as_slice())
    }

    /// The place of the first method in the file of a class that is wanted.
    fn place_in_file(&self, class: ClassId, which: Wanted, key: &MethodKey) -> Option<usize>
        ensures { result ≡ position (is_method_named which key.now.name key.now.descriptor) (methods_in (file_of self.now class.n)) }
    {
        self.found.method(class, which, key.name.as_slice(), key.descriptor.as_slice())
    }

    /// The field of a name and a descriptor that a class itself declares.
    pub fn declared_field(&self, class: ClassId, key: &FieldKey) -> Option<FieldId>
        ensures { result ≡ declared_field self.now key.now class.n }
    {
        let _file = self.get(class)?;
        let place = self.field_place(class, key)?;
        Some(FieldId {
            class,
            n: place as u16,
        })
    }

    /// The first method of a class that is wanted.
    fn wanted_method(&self, class: ClassId, which: Wanted, key: &MethodKey) -> Option<MethodId>
        ensures { result ≡ declared_method self.now (is_method_named which key.now.name key.now.descriptor) class.n }
    {
        let place = match self.get(class) {
            Some(_file) => self.place_in_file(class, which, key)?,
            None => built_in_place(class, key)?,
        };
        Some(MethodId {
            class,
            n: place as u16,
        })
    }

    /// The method of a name and a descriptor that a class itself declares.
    pub fn declared_method(&self, class: ClassId, key: &MethodKey) -> Option<MethodId>
        ensures { result ≡ declared_method self.now (is_method key.now) class.n }
    {
        self.wanted_method(class, Wanted::Any, key)
    }

    /// The same, if it is an instance method that isn't private.
    pub fn inherited_method(&self, class: ClassId, key: &MethodKey) -> Option<MethodId>
        ensures { result ≡ inherited_method self.now key.now class.n }
    {
        self.wanted_method(class, Wanted::Inherited, key)
    }

    /// The same, if it is abstract no more.
    pub fn concrete_method(&self, class: ClassId, key: &MethodKey) -> Option<MethodId>
        ensures { result ≡ concrete_method self.now key.now class.n }
    {
        self.wanted_method(class, Wanted::Concrete, key)
    }

    /// The method that a receiver of a class runs (JVMS SE 8, 5.4.6): the first from its class upwards that is an
    /// instance method and not private.
    pub fn select(&self, class: ClassId, key: &MethodKey) -> Option<MethodId>
        ensures { result ≡ selected_method self.now key.now class.n }
    {
        let mut next = Some(class);
        for _step in 0..self.count() {
            let class = next?;
            let found = self.inherited_method(class, key);
            if found.is_some() {
                return found;
            }
            next = self.super_of(class);
        }
        None
    }

    /// The field to which a name and a descriptor resolve from a class (JVMS SE 8, 5.4.3.2): that of the class itself,
    /// or else of the first of its superinterfaces and then its superclass from which one is found.
    pub fn resolve_field(&self, class: ClassId, key: &FieldKey) -> Option<FieldId>
        ensures { result ≡ resolved_field self.now key.now class.n }
    {
        let mut passed = Passed::new();
        self.search_field(class, key, &mut passed)
    }

    /// The same, where nothing is found from the classes that were passed.
    #[cycle(fields)]
    fn search_field(&self, class: ClassId, key: &FieldKey, passed: &mut Passed) -> Option<FieldId>
        requires { FindNothing self.now key.now passed.old }
        ensures found { result ≡ resolved_field self.now key.now class.n }
        ensures passed { FindNothing self.now key.now passed.new }
    {
        if passed.has(class) {
            return None;
        }
        let above = self.classes.super_of(class);
        let found = self.declared_field(class, key);
        if found.is_some() {
            return found;
        }
        let found = self.search_interfaces(class, key, passed);
        if found.is_some() {
            return found;
        }
        let Some(above) = above else {
            return None;
        };
        let found = self.search_field(above, key, passed);
        if found.is_some() {
            return found;
        }
        passed.add(class);
        None
    }

    /// What is found from the superinterfaces of a class.
    #[cycle(fields)]
    fn search_interfaces(
        &self,
        class: ClassId,
        key: &FieldKey,
        passed: &mut Passed,
    ) -> Option<FieldId>
        requires { FindNothing self.now key.now passed.old }
        ensures found { result ≡ first_found (resolved_field self.now key.now) (interfaces_of self.now class.n) }
        ensures passed { FindNothing self.now key.now passed.new }
    {
        let Some(file) = self.classes.get(class) else {
            return None;
        };
        for name in file.interfaces() {
            let Some(above) = self.classes.class(name) else {
                continue;
            };
            let found = self.search_field(above, key, passed);
            if found.is_some() {
                return found;
            }
        }
        None
    }
}
