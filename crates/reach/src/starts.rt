//! The initialisers in the order in which they run.

ghost use Rattle.std.specs.Prelude.{◌≡◌, ◌≤◌, [], length, map, slice_index_or, IfOk, OnOk};
ghost use Rattle.jworld.specs.Classes.{names};
ghost use Rattle.jworld.specs.Upwards.{upwards};
ghost use Rattle.std.specs.BTreeMap.{insert_entry};
ghost use Rattle.reach.specs.Starts.{is_start, comes_before, key_of, with_start, in_order, starts_of};

use jworld::{ClassId, World};
use kes_text::NoMemory;
use mentions::is_initialiser;
use reaching::{Pair, Pairs};
use sqlite_items::Items;
use std::alloc::Global;
use std::collections::BTreeMap;
use std::marker::Model;

/// Numbers of initialisers' pairs by domain, by how many classes their class and its superclasses are, and by its name.
#[derive(Drop)]
struct Starts<'w> {
    numbers: BTreeMap<(u32, u32, &'w [u8]), u32>,
}

impl<'w> Model for Starts<'w> {
    ghost use Rattle.std.specs.Prelude.{map};
    ghost use Rattle.reach.specs.Starts as spec;

    ghost Value = { spec.Starts };

    ghost view = { λ s. map (λ e. ((e.0.0, e.0.1, e.0.2.now), e.1)) s.numbers.entries };
}

/// How many classes a class and its superclasses are.
fn height(world: &World<'_>, class: ClassId) -> u32
    ensures { result ≡ length (upwards world.now class.n) }
{
    let mut height = 0;
    let mut next = Some(class);
    for _step in 0..world.count() {
        let Some(class) = next else {
            return height;
        };
        height += 1;
        next = world.super_of(class);
    }
    height
}

/// Whether a pair's method is an initialiser.
fn is_start(world: &World<'_>, pair: Pair) -> bool
    ensures { result ≡ is_start world.now pair }
{
    let Some(file) = world.get(pair.method.class) else {
        return false;
    };
    match file.methods().get(usize::from(pair.method.n)) {
        Some(method) => is_initialiser(method),
        None => false,
    }
}

impl<'w> Starts<'w> {
    fn new(alloc: Global) -> Starts<'w>
        ensures { result ≡ [] }
    {
        Starts {
            numbers: BTreeMap::new(alloc),
        }
    }

    /// Puts the number of a pair to its place.
    fn put(&mut self, world: &'w World<'_>, pair: Pair, number: u32) -> Result<(), NoMemory>
        ensures { OnOk result (self.new ≡ insert_entry comes_before self.old (key_of world.now pair) number) }
    {
        let class = pair.method.class;
        let key = (pair.domain, height(world, class), world.name(class));
        self.numbers.insert(key, number)?;
        Ok(())
    }

    /// Puts the number of a pair to its place, if it is an initialiser's.
    fn add(&mut self, world: &'w World<'_>, pair: Option<Pair>, number: u32) -> Result<(), NoMemory>
        ensures { OnOk result (self.new ≡ with_start world.now self.old number pair) }
    {
        match pair {
            Some(pair) if is_start(world, pair) => self.put(world, pair, number),
            _ => Ok(()),
        }
    }

    /// The numbers, in their order.
    fn numbers(&self, alloc: Global) -> Result<Items<u32>, NoMemory>
        ensures { IfOk result (λ numbers. numbers ≡ map (λ start. start.1) self.now) }
    {
        let mut numbers = Items::new(alloc);
        for number in self.numbers.values() {
            numbers.push(*number)?;
        }
        Ok(numbers)
    }
}

/// Initialisers among pairs, by their keys.
fn in_order<'w>(alloc: Global, world: &'w World<'_>, pairs: &Pairs) -> Result<Starts<'w>, NoMemory>
    requires { length pairs.now ≤ 1048577 }
    ensures { IfOk result (λ starts. starts ≡ in_order world.now pairs.now) }
{
    let mut starts = Starts::new(alloc);
    for number in 0..pairs.len() {
        starts.add(world, pairs.get(number), number as u32)?;
    }
    Ok(starts)
}

/// The numbers of the initialisers among pairs, in the order in which they run: by domain, in each by how many
/// superclasses their class has, and then by the bytes of its name.
pub fn starts_of(alloc: Global, world: &World<'_>, pairs: &Pairs) -> Result<Items<u32>, NoMemory>
    requires { length pairs.now ≤ 1048577 }
    ensures { IfOk result (λ starts. starts ≡ starts_of world.now pairs.now) }
{
    let starts = in_order(alloc, world, pairs)?;
    starts.numbers(alloc)
}
