//! The system over the kernel.
ghost use Rattle.std.specs.Prelude.{◌≡◌, ◌<◌, ◌&&◌, not, Some, IfOk, map, length};
ghost use Rattle.osek_core.specs.declared.event.Who.TheVariants.{Start};
ghost use Rattle.osek_core.specs.declared.event.Event.TheVariants.{Lost};
ghost use Rattle.osek_core.specs.Tables.WellConfigured.{IsWellConfigured};
ghost use Rattle.osek_core.specs.Kernel.Service.{service};
ghost use Rattle.osek_core.specs.Kernel.System.{acting, new_system, start_system, shut_system, tick_system};
ghost use Rattle.osek_model.specs.Call.{IsCallOf};
ghost use Rattle.osek_model.specs.Plan.{plan_of, OfItsTables};
ghost use Rattle.system.specs.Lost.{lost_alarms};
ghost use Rattle.system.specs.Value.{first_system, IsJob};

use osek_core::{Call, Tables, Who};
use osek_model::{Answer, Kernel};
use std::alloc::{AllocError, Global};
use std::marker::Model;

/// A system as a run keeps it. Only `new` takes memory.
#[derive(Drop)]
pub struct System {
    kernel: Kernel,
    /// Whether the kernel was started; until then the start runs the initialisers.
    started: bool,
}

impl Model for System {
    ghost use Rattle.system.specs.Value.{PlannedSystem};

    ghost Value = { PlannedSystem };

    ghost use Rattle.system.specs.Value.{planned};
    ghost use Rattle.system.specs.Kept.{IsKept};

    ghost view = { λ s. planned s.kernel s.started };

    ghost invariant = { λ s. IsKept (planned s.kernel s.started) };
}

impl System {
    /// The system of these tables. Without initialisers to run, its kernel is started at once.
    pub fn new(alloc: Global, tables: &Tables, has_initialisers: bool) -> Result<System, AllocError>
        requires { IsWellConfigured tables.now }
        ensures plan { IfOk result (λ s. s.plan ≡ plan_of tables.now) }
        ensures system { IfOk result (λ s. s.system ≡ first_system tables.now has_initialisers) }
    {
        let mut system = System::idle(alloc, tables)?;
        if has_initialisers {
            return Ok(system);
        }
        system.start();
        Ok(system)
    }

    /// The system of these tables before the kernel's start.
    fn idle(alloc: Global, tables: &Tables) -> Result<System, AllocError>
        requires { IsWellConfigured tables.now }
        ensures plan { IfOk result (λ s. s.plan ≡ plan_of tables.now) }
        ensures system { IfOk result (λ s. s.system ≡ new_system tables.now) }
    {
        Ok(System {
            kernel: Kernel::new(alloc, tables)?,
            started: false,
        })
    }

    /// Who makes the next step: nobody once the system is shut, and else the start, or the running job.
    pub fn acting(&self) -> Option<Who>
        ensures { result ≡ acting self.now.system }
    {
        if self.kernel.shut() {
            return None;
        }
        if !self.started {
            return Some(Who::Start);
        }
        self.kernel.running().map(Who::Task)
    }

    /// The initialisers are done, and the kernel starts.
    pub fn start(&mut self)
        requires { acting self.old.system ≡ Some Start }
        ensures state { OfItsTables self.old.plan (λ tables. self.new ≡ record self.old { system = start_system tables self.old.system }) }
        ensures plan { self.new.plan ≡ self.old.plan }
    {
        self.kernel.start();
        self.started = true;
    }

    /// A service that the acting job calls.
    pub fn service(&mut self, call: Call) -> Answer
        requires job { IsJob (acting self.old.system) }
        requires objects { IsCallOf self.old.plan call }
        ensures value { OfItsTables self.old.plan (λ tables. result.value ≡ (service tables self.old.system.kernel call).answer) }
        ensures ended { OfItsTables self.old.plan (λ tables. result.ended ≡ (service tables self.old.system.kernel call).ended) }
        ensures state { OfItsTables self.old.plan (λ tables. self.new ≡ record self.old { system = record self.old.system { kernel = (service tables self.old.system.kernel call).kernel } }) }
        ensures plan { self.new.plan ≡ self.old.plan }
    {
        self.kernel.service(call)
    }

    /// A tick of the counter: the set of the alarms whose action was lost, bit k for alarm k. Before the kernel's start
    /// and once the system is shut a tick does nothing.
    pub fn tick(&mut self, counter: u32) -> u64
        requires { counter < length self.old.plan.clock.counters }
        ensures lost { OfItsTables self.old.plan (λ tables. map Lost (lost_alarms result) ≡ (tick_system tables self.old.system counter).events) }
        ensures state { OfItsTables self.old.plan (λ tables. self.new ≡ record self.old { system = (tick_system tables self.old.system counter).system }) }
        ensures plan { self.new.plan ≡ self.old.plan }
    {
        if !self.is_running() {
            return 0;
        }
        self.kernel.tick(counter)
    }

    /// Whether the kernel was started and the system isn't shut.
    fn is_running(&self) -> bool
        ensures { result ≡ (self.now.system.started && not self.now.system.kernel.shut) }
    {
        self.started && !self.kernel.shut()
    }

    /// ShutdownOS: from now on nobody acts.
    pub fn shut_down(&mut self)
        ensures { self.new ≡ record self.old { system = shut_system self.old.system } }
    {
        self.kernel.shutdown();
    }
}

#[cfg(test)]
mod tests;
