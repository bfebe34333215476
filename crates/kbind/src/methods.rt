//! Which method a METHOD names.

ghost use Rattle.std.specs.Prelude.{◌≡◌, ◌≤◌, ◌++◌, ◌∷◌, [], IfOk, OnOk, map, length, All, bytes_eq};
ghost use Rattle.std.specs.Option.{option_copied};
ghost use Rattle.kes_text.specs.Shown.{shown};
ghost use Rattle.kbind.specs.Methods.{method_named, methods_from, declared_methods};

use crate::places::Index;
use classfile::{Class, Method};
use jworld::{ClassId, MethodId};
use kes_text::{NoMemory, escape};
use std::alloc::Global;
use std::marker::Model;

/// How many classes every world has before its files.
const BUILT_IN: u32 = 4;

/// A method of a class file, with the METHOD that shows it.
#[derive(Drop)]
pub struct Declared<'w, 'a> {
    pub id: MethodId,
    pub word: Vec<u8>,
    pub method: &'w Method<'a>,
}

impl<'w, 'a> Model for Declared<'w, 'a> {
    ghost use Rattle.kbind.specs.Methods as spec;

    ghost Value = { spec.Declared };

    ghost view = { λ d. record { id = d.id; word = d.word.items; method = d.method.now } };
}

/// The METHOD of a method, behind the shown name of its class.
fn method_word(alloc: Global, class: &[u8], method: &Method<'_>) -> Result<Vec<u8>, NoMemory>
    ensures { IfOk result (λ word. word.items ≡ (class.now ++ 46 ∷ shown method.now.name) ++ shown method.now.descriptor) }
{
    let name = escape(alloc, method.name)?;
    let descriptor = escape(alloc, method.descriptor)?;
    let mut word = class.to_vec(alloc)?;
    word.push(b'.')?;
    word.extend_from_slice(name.as_slice())?;
    word.extend_from_slice(descriptor.as_slice())?;
    Ok(word)
}

/// The methods of one file more.
fn add_methods<'w, 'a>(
    alloc: Global,
    declared: &mut Vec<Declared<'w, 'a>>,
    class: ClassId,
    file: &'w Class<'a>,
) -> Result<(), NoMemory>
    requires { length file.now.methods ≤ 65536 }
    ensures { OnOk result (declared.new.items ≡ declared.old.items ++ methods_from file.now class.n 0 file.now.methods) }
{
    let name = escape(alloc, file.name())?;
    for (n, method) in file.methods().iter().enumerate() {
        let id = MethodId { class, n: n as u16 };
        let word = method_word(alloc, name.as_slice(), method)?;
        declared.push(Declared { id, word, method })?;
    }
    Ok(())
}

/// The methods of all class files.
pub fn declared_methods<'w, 'a>(
    alloc: Global,
    files: &'w [Class<'a>],
) -> Result<Vec<Declared<'w, 'a>>, NoMemory>
    requires few { length files.now ≤ 2048 }
    requires small { All (λ file. length file.methods ≤ 65536) files.now }
    ensures { IfOk result (λ declared. declared.items ≡ declared_methods files.now) }
{
    let mut declared = Vec::new(alloc);
    for (k, file) in files.iter().enumerate() {
        let class = ClassId {
            n: k as u32 + BUILT_IN,
        };
        add_methods(alloc, &mut declared, class, file)?;
    }
    Ok(declared)
}

/// The METHODs of methods.
fn words<'t>(alloc: Global, methods: &'t [Declared<'_, '_>]) -> Result<Vec<&'t [u8]>, NoMemory>
    ensures { IfOk result (λ words. map (λ word. word.now) words.items ≡ map (λ d. d.word) methods.now) }
{
    let mut words = Vec::new(alloc);
    for method in methods {
        words.push(method.word.as_slice())?;
    }
    Ok(words)
}

/// Methods of which the first that a METHOD shows is found. Contracts see their list.
#[derive(Drop)]
pub struct Methods<'t, 'w, 'a> {
    declared: &'t [Declared<'w, 'a>],
    index: Index<'t>,
}

impl<'t, 'w, 'a> Model for Methods<'t, 'w, 'a> {
    ghost use Rattle.std.specs.Prelude.{◌≡◌, List, map};
    ghost use Rattle.kbind.specs.Methods as spec;

    ghost Value = { List spec.Declared };

    ghost view = { λ m. m.declared.now };

    ghost invariant = { λ m. m.index ≡ map (λ d. d.word) m.declared.now };
}

impl<'t, 'w, 'a> Methods<'t, 'w, 'a> {
    pub fn of(
        alloc: Global,
        declared: &'t [Declared<'w, 'a>],
    ) -> Result<Methods<'t, 'w, 'a>, NoMemory>
        ensures { IfOk result (λ methods. methods ≡ declared.now) }
    {
        let index = Index::of(alloc, words(alloc, declared)?)?;
        Ok(Methods { declared, index })
    }

    /// The first method that a METHOD shows.
    pub fn named(&self, word: &'t [u8]) -> Option<&'t Declared<'w, 'a>>
        ensures { option_copied result ≡ method_named self.now word.now }
    {
        let place = self.index.first(word)?;
        Some(&self.declared[place])
    }
}
