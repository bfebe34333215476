//! The targets of calls.

ghost use Rattle.std.specs.Prelude.{◌≡◌, [], map, IfOk, OnOk};
ghost use Rattle.mentions.specs.Initialisers.{in_domain};
ghost use Rattle.mentions.specs.Targets.{is_receiver, has_code, selection, put, targets_of};

use jnames::MethodKey;
use jworld::{ClassId, MethodId, World};
use kes_text::NoMemory;
use linking::has_objects;
use reaching::Pair;
use sqlite_items::Items;
use std::alloc::Global;
use std::collections::BTreeMap;
use std::marker::Model;

/// Methods in the order of the names of their classes, each once.
#[derive(Drop)]
pub struct Targets<'w> {
    methods: BTreeMap<&'w [u8], MethodId>,
}

impl<'w> Model for Targets<'w> {
    ghost use Rattle.std.specs.Prelude.{map};
    ghost use Rattle.mentions.specs.Targets as spec;

    ghost Value = { spec.Targets };

    ghost view = { λ t. map (λ e. (e.0.now, e.1)) t.methods.entries };
}

impl<'w> Targets<'w> {
    fn new(alloc: Global) -> Targets<'w>
        ensures { result ≡ [] }
    {
        Targets {
            methods: BTreeMap::new(alloc),
        }
    }

    /// The methods in a domain, in their order.
    pub fn in_domain(&self, alloc: Global, domain: u32) -> Result<Items<Pair>, NoMemory>
        ensures { IfOk result (λ pairs. pairs ≡ map (λ e. in_domain domain e.1) self.now) }
    {
        let mut pairs = Items::new(alloc);
        for method in self.methods.values() {
            let method = *method;
            pairs.push(Pair { domain, method })?;
        }
        Ok(pairs)
    }

    /// Puts a method of the class of this name to its place.
    fn put(&mut self, name: &'w [u8], method: MethodId) -> Result<(), NoMemory>
        ensures { OnOk result (self.new ≡ put self.old name.now method) }
    {
        self.methods.insert(name, method)?;
        Ok(())
    }
}

/// Whether a class has objects, and is the called one or below it.
fn is_receiver(world: &World<'_>, called: ClassId, class: ClassId) -> bool
    ensures { result ≡ is_receiver world.now called.n class.n }
{
    has_objects(world, class) && (class.n == called.n || world.is_above(class, called))
}

/// Whether a method has code; the constructor of a built-in class has none.
pub fn has_code(world: &World<'_>, id: MethodId) -> bool
    ensures { result ≡ has_code world.now id }
{
    let Some(file) = world.get(id.class) else {
        return false;
    };
    match file.methods().get(usize::from(id.n)) {
        Some(method) => method.code.is_some(),
        None => false,
    }
}

/// The method with code that a receiver of a class runs.
fn selection(world: &World<'_>, key: &MethodKey, class: ClassId) -> Option<MethodId>
    ensures { result ≡ selection world.now key.now class.n }
{
    match world.select(class, key) {
        Some(id) if has_code(world, id) => Some(id),
        _ => None,
    }
}

/// The methods that a call of a method of this key runs, by the class that is called; or None where a receiver runs no method
/// with code.
pub fn targets_of<'w>(
    alloc: Global,
    world: &'w World<'_>,
    key: &MethodKey,
    called: ClassId,
) -> Result<Option<Targets<'w>>, NoMemory>
    ensures { IfOk result (λ found. found ≡ targets_of world.now key.now called.n) }
{
    let mut targets = Targets::new(alloc);
    for n in 0..world.count() {
        let class = ClassId { n };
        if !is_receiver(world, called, class) {
            continue;
        }
        let Some(method) = selection(world, key, class) else {
            return Ok(None);
        };
        targets.put(world.name(method.class), method)?;
    }
    Ok(Some(targets))
}
