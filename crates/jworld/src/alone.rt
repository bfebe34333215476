//! Methods that classes declare for their package alone (JVMS SE 8, 5.4.5), by name and descriptor.

ghost use Rattle.std.specs.Prelude.{◌≡◌, ◌++◌, ◌∷◌, [], ◌&&◌, ◌||◌, ℕ, Bool, List, IfOk, OnOk, if◌then◌else◌};
ghost use Rattle.std.specs.List.{list_any};
ghost use Rattle.jworld.specs.Packages.{is_package_private};
ghost use Rattle.jworld.specs.Alone.{is_key, owners, declare_alone, AreAlone};

use crate::classes::{BUILT_IN_COUNT, Classes};
use classfile::Method;
use kes_text::NoMemory;
use sqlite_items::Items;
use std::alloc::Global;
use std::collections::BTreeMap;
use std::marker::Model;

/// For the name and the descriptor of each method that some class declares for its package alone, the classes that do.
#[derive(Drop)]
pub struct Alone<'a> {
    owners: BTreeMap<(&'a [u8], &'a [u8]), Items<u32>>,
}

impl<'a> Model for Alone<'a> {
    ghost use Rattle.std.specs.Prelude.{map};
    ghost use Rattle.jworld.specs.Alone.{Alone as Listed};

    ghost Value = { Listed };

    ghost view = { λ a. map (λ e. ((e.0.0.now, e.0.1.now), e.1)) a.owners.entries };
}

/// Whether a method is an instance method, no constructor, that is neither public, private nor protected.
fn is_package_private(method: &Method<'_>) -> bool
    ensures { result ≡ is_package_private method.now }
{
    method.name != b"<init>".as_slice() && method.flags.bits & 0x000F == 0
}

impl<'a> Alone<'a> {
    fn new(alloc: Global) -> Alone<'a>
        ensures { result ≡ [] }
    {
        Alone {
            owners: BTreeMap::new(alloc),
        }
    }

    /// One more class for a name and a descriptor.
    fn add(
        &mut self,
        alloc: Global,
        name: &'a [u8],
        descriptor: &'a [u8],
        class: u32,
    ) -> Result<(), NoMemory>
        ensures { OnOk result ((n d : List ℕ) → owners self.new n d ≡ owners self.old n d ++ (if is_key name.now descriptor.now (n, d) then class ∷ [] else [])) }
    {
        let mut classes = self
            .owners
            .remove(&(name, descriptor))
            .unwrap_or(Items::new(alloc));
        classes.push(class)?;
        self.owners.insert((name, descriptor), classes)?;
        Ok(())
    }

    /// The classes of a name and a descriptor.
    pub fn owners(&self, name: &'a [u8], descriptor: &'a [u8]) -> &[u32]
        ensures { result.now ≡ owners self.now name.now descriptor.now }
    {
        match self.owners.get(&(name, descriptor)) {
            Some(classes) => classes.as_slice(),
            None => &[],
        }
    }
}

/// One more class that declares these methods.
fn add_methods<'a>(
    alone: &mut Alone<'a>,
    alloc: Global,
    class: u32,
    methods: &[Method<'a>],
) -> Result<(), NoMemory>
    ensures { OnOk result ((name descriptor : List ℕ) (test : ℕ → Bool) → list_any test (owners alone.new name descriptor) ≡ (list_any test (owners alone.old name descriptor) || (test class && declare_alone name descriptor methods.now))) }
{
    for method in methods {
        if is_package_private(method) {
            alone.add(alloc, method.name, method.descriptor, class)?;
        }
    }
    Ok(())
}

/// The methods that the classes of a world declare for their package alone.
pub fn alone_of<'a>(alloc: Global, classes: &Classes<'a>) -> Result<Alone<'a>, NoMemory>
    ensures { IfOk result (λ alone. AreAlone classes.now alone) }
{
    let mut alone = Alone::new(alloc);
    for (i, file) in classes.files().iter().enumerate() {
        add_methods(&mut alone, alloc, BUILT_IN_COUNT + i as u32, file.methods())?;
    }
    Ok(alone)
}
