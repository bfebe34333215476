ghost use Rattle.std.specs.Prelude.{◌≡◌, ◌⊎◌, ℕ, true, false};
ghost use Rattle.jworld.specs.Passed.{has_passed};

use crate::ids::ClassId;
use std::marker::Model;

/// At most so many classes are in a world.
const MAX_CLASSES: usize = 2052;

/// The classes of a world that a search has passed.
#[derive(Drop)]
pub struct Passed {
    classes: [bool; MAX_CLASSES],
}

impl Model for Passed {
    ghost use Rattle.std.specs.Prelude.{List, Bool};

    ghost Value = { List Bool };

    ghost view = { λ p. p.classes };
}

impl Passed {
    pub fn new() -> Passed
        ensures { (class : ℕ) → has_passed result class ≡ false }
    {
        Passed {
            classes: [false; MAX_CLASSES],
        }
    }

    pub fn has(&self, class: ClassId) -> bool
        ensures { result ≡ has_passed self.now class.n }
    {
        match self.classes.get(class.n as usize) {
            Some(passed) => *passed,
            None => false,
        }
    }

    pub fn add(&mut self, class: ClassId)
        ensures { (other : ℕ) → has_passed self.new other ≡ true → (other ≡ class.n) ⊎ (has_passed self.old other ≡ true) }
    {
        let n = class.n as usize;
        if n < MAX_CLASSES {
            self.classes[n] = true;
        }
    }
}
