//! Mapped classes.

ghost use Rattle.std.specs.Prelude.{◌≡◌, ◌||◌, ◌==◌, [], ℕ, IfOk, OnOk};
ghost use Rattle.mentions.specs.Mapped.{is_among, classes_of, is_mapped};

use indexmap::IndexSet;
use jworld::{ClassId, FieldId};
use kbind::Bound;
use kes_text::NoMemory;
use std::alloc::Global;
use std::marker::Model;

/// The classes that have cells, which are found in a time that hardly grows with their number.
#[derive(Drop)]
pub struct Mapped {
    classes: IndexSet<u32>,
}

impl Model for Mapped {
    ghost use Rattle.std.specs.Prelude.{ℕ, List};

    ghost Value = { List ℕ };

    ghost view = { λ m. m.classes.keys };
}

impl Mapped {
    fn new(alloc: Global) -> Mapped
        ensures { result ≡ [] }
    {
        Mapped {
            classes: IndexSet::new(alloc),
        }
    }

    /// Whether a class has cells.
    pub fn has(&self, class: ClassId) -> bool
        ensures { result ≡ is_among class.n self.now }
    {
        self.classes.contains(&class.n)
    }

    fn add(&mut self, class: ClassId) -> Result<(), NoMemory>
        ensures { OnOk result ((n : ℕ) → is_among n self.new ≡ (is_among n self.old || n == class.n)) }
    {
        self.classes.insert(class.n)?;
        Ok(())
    }

    fn add_all(&mut self, cells: &[FieldId]) -> Result<(), NoMemory>
        ensures { OnOk result ((n : ℕ) → is_among n self.new ≡ (is_among n self.old || is_among n (classes_of cells.now))) }
    {
        for cell in cells {
            self.add(cell.class)?;
        }
        Ok(())
    }

    /// The mapped classes of a configuration.
    #[tactic(auto, unfolding(crate::specs::Mapped::is_mapped))]
    pub fn of(alloc: Global, bound: &Bound) -> Result<Mapped, NoMemory>
        ensures { IfOk result (λ mapped. (n : ℕ) → is_among n mapped ≡ is_mapped bound.now n) }
    {
        let mut mapped = Mapped::new(alloc);
        mapped.add_all(bound.cells.as_slice())?;
        Ok(mapped)
    }
}
