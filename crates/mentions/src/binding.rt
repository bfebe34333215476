//! What native methods are bound to.

ghost use Rattle.std.specs.Prelude.{◌≡◌, [], IfOk, OnOk};
ghost use Rattle.std.specs.Prelude.{map, zip};
ghost use Rattle.mentions.specs.Bindings.{Entry as AnEntry, native, device, portal, bound_as, add, add_all, binding_of};

use indexmap::IndexMap;
use jworld::MethodId;
use kbind::Bound;
use kconfig::{DeviceLine, NativeLine, PortalLine, Service};
use kes_text::NoMemory;
use std::alloc::Global;
use std::marker::Model;

/// What a line of the configuration binds a native method to.
#[derive(Clone, Copy, Debug, PartialEq, Eq)]
pub enum Binding {
    Service(Service),
    /// The object of this number, in the order of the lines, which it answers.
    Device { object: u32 },
    /// The method that it calls, in the domain of this number.
    Portal { domain: u32, target: MethodId },
}

/// A line of the configuration, beside what it names in a world, binds a method.
trait Binds<Named> {
    /// The method, and what it is bound to.
    ghost member: { Self → Named → AnEntry };

    fn member(&self, named: &Named) -> (MethodId, Binding)
        ensures { result ≡ member self.now named.now };
}

impl Binds<MethodId> for NativeLine {
    ghost member = { λ line named. native (line, named) };

    fn member(&self, named: &MethodId) -> (MethodId, Binding) {
        (*named, Binding::Service(self.service))
    }
}

impl Binds<MethodId> for DeviceLine {
    ghost member = { λ line named. device (line, named) };

    fn member(&self, named: &MethodId) -> (MethodId, Binding) {
        let object = self.object;
        (*named, Binding::Device { object })
    }
}

impl Binds<(MethodId, MethodId)> for PortalLine {
    ghost member = { λ line named. portal (line, named) };

    fn member(&self, named: &(MethodId, MethodId)) -> (MethodId, Binding) {
        let (method, target) = *named;
        let domain = self.domain;
        (method, Binding::Portal { domain, target })
    }
}

/// The native methods that are bound, which are found in a time that hardly grows with their number.
#[derive(Drop)]
pub struct Bindings {
    bound: IndexMap<(u32, u16), Binding>,
}

impl Model for Bindings {
    ghost use Rattle.std.specs.Prelude.{List, map};
    ghost use Rattle.mentions.specs.Bindings.{Entry, entry_of};

    ghost Value = { List Entry };

    ghost view = { λ b. map entry_of b.bound.entries };
}

impl Bindings {
    fn new(alloc: Global) -> Bindings
        ensures { result ≡ [] }
    {
        Bindings {
            bound: IndexMap::new(alloc),
        }
    }

    /// What a method is bound to.
    pub fn get(&self, method: MethodId) -> Option<Binding>
        ensures { result ≡ bound_as method self.now }
    {
        self.bound.get(&(method.class.n, method.n)).copied()
    }

    /// Binds a method that isn't bound yet.
    fn add(&mut self, method: MethodId, binding: Binding) -> Result<(), NoMemory>
        ensures { OnOk result (self.new ≡ add self.old (method, binding)) }
    {
        if let None = self.get(method) {
            self.bound.insert((method.class.n, method.n), binding)?;
        }
        Ok(())
    }

    /// Binds the methods of lines, each line beside what it names.
    fn add_lines<Named, Line: Binds<Named>>(
        &mut self,
        lines: &[Line],
        named: &[Named],
    ) -> Result<(), NoMemory>
        ensures { OnOk result (self.new ≡ add_all self.old (map (λ both. Line.member both.0 both.1) (zip lines.now named.now))) }
    {
        for n in 0..named.len() {
            let Some(line) = lines.get(n) else {
                return Ok(());
            };
            let (method, binding) = line.member(&named[n]);
            self.add(method, binding)?;
        }
        Ok(())
    }

    /// The bindings of a configuration.
    pub fn of(alloc: Global, bound: &Bound) -> Result<Bindings, NoMemory>
        ensures { IfOk result (λ bindings. (id : MethodId) → bound_as id bindings ≡ binding_of bound.now id) }
    {
        let mut bindings = Bindings::new(alloc);
        let config = &bound.config;
        bindings.add_lines(config.natives.as_slice(), bound.natives.as_slice())?;
        bindings.add_lines(
            config.device_methods.as_slice(),
            bound.device_methods.as_slice(),
        )?;
        bindings.add_lines(config.portals.as_slice(), bound.portals.as_slice())?;
        Ok(bindings)
    }
}
