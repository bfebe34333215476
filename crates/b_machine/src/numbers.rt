//! The numbers of methods.

ghost use Rattle.std.specs.Prelude.{◌≡◌, [], position, length, ◌<◌, ◌^◌, if◌then◌else◌, Some, None, IfOk, OnOk};
ghost use Rattle.jworld.specs.declared.ids.MethodId.{MethodId as Id};
ghost use Rattle.mentions.specs.Bindings.{is_method};
ghost use Rattle.jworld.specs.Fields.{or_else};
ghost use Rattle.b_machine.specs.Numbers.{number_in};

use indexmap::IndexMap;
use jworld::MethodId;
use kes_text::NoMemory;
use method_code::MethodCode;
use std::alloc::Global;
use std::marker::Model;

/// Methods with their numbers, which are found in a time that hardly grows with how many they are.
#[derive(Drop)]
pub struct Numbers {
    numbers: IndexMap<(u32, u16), u32>,
}

impl Model for Numbers {
    ghost use Rattle.std.specs.Prelude.{ℕ, List};

    ghost Value = { List ((ℕ × ℕ) × ℕ) };

    ghost view = { λ n. n.numbers.entries };
}

impl Numbers {
    fn new(alloc: Global) -> Numbers
        ensures { result ≡ [] }
    {
        Numbers {
            numbers: IndexMap::new(alloc),
        }
    }

    /// The number of a method.
    pub fn get(&self, method: MethodId) -> Option<u32>
        ensures { result ≡ number_in method self.now }
    {
        self.numbers.get(&(method.class.n, method.n)).copied()
    }

    /// Gives a method a number, if it has none yet.
    fn add(&mut self, method: MethodId, number: u32) -> Result<(), NoMemory>
        ensures { OnOk result ((id : Id) → number_in id self.new ≡ or_else (number_in id self.old) (if is_method id method then Some number else None)) }
    {
        if let None = self.get(method) {
            self.numbers.insert((method.class.n, method.n), number)?;
        }
        Ok(())
    }

    /// The numbers of methods, by the first place of each.
    pub fn of(alloc: Global, methods: &[MethodCode]) -> Result<Numbers, NoMemory>
        requires { length methods.now < 2 ^ 32 }
        ensures { IfOk result (λ numbers. (id : Id) → number_in id numbers ≡ position (λ method. is_method id method.id) methods.now) }
    {
        let mut numbers = Numbers::new(alloc);
        for n in 0..methods.len() {
            numbers.add(methods[n].id(), n as u32)?;
        }
        Ok(numbers)
    }
}
