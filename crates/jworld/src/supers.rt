ghost use Rattle.std.specs.Prelude.{◌≡◌, ◌++◌, [], ◌∷◌, length, Some, option_map, option_and_then, slice_get, IfOk, OnOk};
ghost use Rattle.jworld.specs.Held.{built_in_supers};

use crate::ids::ClassId;
use kes_text::NoMemory;
use std::alloc::Global;
use std::marker::Model;

/// Of the built-in classes each but the first is below the one before it.
const BUILT_IN: [Option<ClassId>; 4] = [
    None,
    Some(ClassId { n: 0 }),
    Some(ClassId { n: 1 }),
    Some(ClassId { n: 2 }),
];

/// The superclass of each class, which contracts see as their numbers.
#[derive(Drop)]
pub struct Supers {
    classes: Vec<Option<ClassId>>,
}

impl Model for Supers {
    ghost use Rattle.std.specs.Prelude.{ℕ, List, Option, map, option_map};

    ghost Value = { List (Option ℕ) };

    ghost view = { λ s. map (option_map (λ class. class.n)) s.classes.items };
}

impl Supers {
    fn new(alloc: Global) -> Supers
        ensures { result ≡ [] }
    {
        Supers {
            classes: Vec::new(alloc),
        }
    }

    /// Those of the built-in classes.
    pub fn built_in(alloc: Global) -> Result<Supers, NoMemory>
        ensures { IfOk result (λ supers. supers ≡ built_in_supers) }
    {
        let mut supers = Supers::new(alloc);
        for above in BUILT_IN {
            supers.push(above)?;
        }
        Ok(supers)
    }

    /// The superclass of the next class.
    pub fn push(&mut self, class: Option<ClassId>) -> Result<(), NoMemory>
        ensures { OnOk result (self.new ≡ self.old ++ option_map (λ c. c.n) class ∷ []) }
    {
        self.classes.push(class)?;
        Ok(())
    }

    /// The superclass of a class; None also where there is no such class.
    pub fn get(&self, class: usize) -> Option<ClassId>
        ensures { option_map (λ c. c.n) result ≡ option_and_then (λ above. above) (slice_get self.now class) }
    {
        self.classes.get(class).copied().flatten()
    }
}
