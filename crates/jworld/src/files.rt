ghost use Rattle.std.specs.Prelude.{◌≡◌};

use classfile::Class;
use std::marker::Model;

/// Class files one after the other, which contracts see as their list.
#[derive(Drop)]
pub struct Files<'a> {
    classes: Vec<Class<'a>>,
}

impl<'a> Model for Files<'a> {
    ghost use Rattle.std.specs.Prelude.{List};
    ghost use Rattle.classfile.specs.ClassFile.{ClassInfo};

    ghost Value = { List ClassInfo };

    ghost view = { λ f. f.classes.items };
}

impl<'a> Files<'a> {
    pub fn new(classes: Vec<Class<'a>>) -> Files<'a>
        ensures { result ≡ classes.entry.items }
    {
        Files { classes }
    }

    pub fn as_slice(&self) -> &[Class<'a>]
        ensures { result.now ≡ self.now }
    {
        self.classes.as_slice()
    }
}
