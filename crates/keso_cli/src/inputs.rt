//! The inputs of a command as they are read: the bytes of files, and class files.

ghost use Rattle.std.specs.Prelude.{◌≡◌, [], ◌∷◌, ◌++◌, map, OnOk};

use classfile::Class;
use kes_text::NoMemory;
use std::alloc::Global;
use std::marker::Model;

/// The bytes of files, one file after the other, which contracts see as their list.
#[derive(Drop)]
pub struct FileBytes {
    files: Vec<Vec<u8>>,
}

impl Model for FileBytes {
    ghost use Rattle.std.specs.Prelude.{ℕ, List, map};

    ghost Value = { List (List ℕ) };

    ghost view = { λ f. map (λ bytes. bytes.items) f.files.items };
}

impl FileBytes {
    pub fn new(alloc: Global) -> FileBytes
        ensures { result ≡ [] }
    {
        FileBytes {
            files: Vec::new(alloc),
        }
    }

    pub fn push(&mut self, bytes: Vec<u8>) -> Result<(), NoMemory>
        ensures { OnOk result (self.new ≡ self.old ++ bytes.items ∷ []) }
    {
        self.files.push(bytes)?;
        Ok(())
    }

    pub fn as_slice(&self) -> &[Vec<u8>]
        ensures { map (λ bytes. bytes.items) result.now ≡ self.now }
    {
        self.files.as_slice()
    }
}

/// Class files, which contracts see as their list.
#[derive(Drop)]
pub struct Classes<'a> {
    classes: Vec<Class<'a>>,
}

impl<'a> Model for Classes<'a> {
    ghost use Rattle.std.specs.Prelude.{List};
    ghost use Rattle.classfile.specs.ClassFile.{ClassInfo};

    ghost Value = { List ClassInfo };

    ghost view = { λ c. c.classes.items };
}

impl<'a> Classes<'a> {
    pub fn new(alloc: Global) -> Classes<'a>
        ensures { result ≡ [] }
    {
        Classes {
            classes: Vec::new(alloc),
        }
    }

    pub fn push(&mut self, class: Class<'a>) -> Result<(), NoMemory>
        ensures { OnOk result (self.new ≡ self.old ++ class.entry ∷ []) }
    {
        self.classes.push(class)?;
        Ok(())
    }

    pub fn into_vec(self) -> Vec<Class<'a>>
        ensures { result.items ≡ self.entry }
    {
        self.classes
    }
}
