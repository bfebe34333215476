//! Which class a CLASS names.

ghost use Rattle.std.specs.Prelude.{◌≡◌, IfOk, map, option_map, reverse, position};
ghost use Rattle.kes_text.specs.Shown.{shown};
ghost use Rattle.jworld.specs.Classes.{names};
ghost use Rattle.kconfig.specs.Words.{is_dot, parts};
ghost use Rattle.kbind.specs.Cells.{has_subclass};
ghost use Rattle.kbind.specs.Kept.{AreShown, entry_seen, field_seen};
ghost use Rattle.kbind.specs.Shown.{class_shown};

use crate::cells::field_names;
use crate::entries::entry_names;
use crate::named::{Named, Seen, seen_of};
use crate::parents::all_parents;
use crate::places::Index;
use jworld::{ClassId, World};
use kes_text::{NoMemory, escape};
use std::alloc::Global;
use std::marker::Model;

/// The shown names of all classes, by number.
pub fn shown_names(alloc: Global, world: &World<'_>) -> Result<Vec<Vec<u8>>, NoMemory>
    ensures { IfOk result (λ texts. AreShown world.now (map (λ text. text.items) texts.items)) }
{
    let mut texts = Vec::new(alloc);
    for n in 0..world.count() {
        texts.push(escape(alloc, world.name(ClassId { n }))?)?;
    }
    Ok(texts)
}

/// Texts as slices.
fn slices<'t>(alloc: Global, texts: &'t [Vec<u8>]) -> Result<Vec<&'t [u8]>, NoMemory>
    ensures { IfOk result (λ slices. map (λ slice. slice.now) slices.items ≡ map (λ text. text.items) texts.now) }
{
    let mut slices = Vec::new(alloc);
    for text in texts {
        slices.push(text.as_slice())?;
    }
    Ok(slices)
}

/// A world whose classes are found by their shown names, and their members as well. Contracts see the world's files.
#[derive(Drop)]
pub struct Classes<'t, 'w, 'a> {
    world: &'w World<'a>,
    index: Index<'t>,
    entries: Vec<Named>,
    fields: Vec<Named>,
    parents: Vec<bool>,
}

impl<'t, 'w, 'a> Model for Classes<'t, 'w, 'a> {
    ghost use Rattle.jworld.specs.Classes as spec;

    ghost Value = { spec.World };

    ghost use Rattle.kbind.specs.Kept.{AreKept};

    ghost view = { λ c. c.world.now };

    ghost invariant = { λ c. AreKept c.world.now c.index c.entries.items c.fields.items c.parents.items };
}

impl<'t, 'w, 'a> Classes<'t, 'w, 'a> {
    /// With the shown names of the world's classes.
    pub fn of(
        alloc: Global,
        world: &'w World<'a>,
        names: &'t [Vec<u8>],
    ) -> Result<Classes<'t, 'w, 'a>, NoMemory>
        requires { AreShown world.now (map (λ text. text.items) names.now) }
        ensures { IfOk result (λ classes. classes ≡ world.now) }
    {
        let index = Index::of(alloc, slices(alloc, names)?)?;
        let entries = entry_names(alloc, world)?;
        let fields = field_names(alloc, world)?;
        let parents = all_parents(alloc, world)?;
        Ok(Classes {
            world,
            index,
            entries,
            fields,
            parents,
        })
    }

    pub fn world(&self) -> &'w World<'a>
        ensures { result.now ≡ self.now }
    {
        self.world
    }

    /// The class that is shown so.
    pub fn named(&self, word: &'t [u8]) -> Option<ClassId>
        ensures { option_map (λ class. class.n) result ≡ class_shown self.now word.now }
    {
        let n = self.index.first(word)?;
        Some(ClassId { n: n as u32 })
    }

    /// The methods of a class that may be entries of this NAME.
    pub fn entry(&self, name: &[u8], class: ClassId) -> Option<Seen>
        ensures { result ≡ entry_seen self.now name.now class.n }
    {
        seen_of(self.entries.as_slice(), name, class)
    }

    /// The instance fields of a class of this FIELD.
    pub fn field(&self, name: &[u8], class: ClassId) -> Option<Seen>
        ensures { result ≡ field_seen self.now name.now class.n }
    {
        seen_of(self.fields.as_slice(), name, class)
    }

    /// Whether a class is the direct superclass of another.
    pub fn has_subclass(&self, class: ClassId) -> bool
        ensures { result ≡ has_subclass self.now class.n }
    {
        match self.parents.get(class.n as usize) {
            Some(is_parent) => *is_parent,
            None => false,
        }
    }
}

/// How many bytes stand behind the last dot.
fn behind_last_dot(word: &[u8]) -> Option<usize>
    ensures { result ≡ position is_dot (reverse word.now) }
{
    word.iter().rev().position(|byte| *byte == b'.')
}

/// What stands before the last dot and what behind it.
pub fn parts(word: &[u8]) -> Option<(&[u8], &[u8])>
    ensures { option_map (λ both. (both.0.now, both.1.now)) result ≡ parts word.now }
{
    let behind = behind_last_dot(word)?;
    let (before, member) = word.split_at(word.len() - behind);
    Some((&before[..before.len() - 1], member))
}
