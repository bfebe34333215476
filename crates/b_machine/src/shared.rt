ghost use Rattle.std.specs.Prelude.{◌≡◌, ◌<◌, map, length};
ghost use Rattle.osek_core.specs.declared.event.Event.TheVariants.{Lost};
ghost use Rattle.osek_core.specs.Kernel.System.{acting, tick_system};
ghost use Rattle.osek_model.specs.Plan.{OfItsTables};
ghost use Rattle.system.specs.Lost.{lost_alarms};
ghost use Rattle.b_machine.specs.Shown.{with_system};

use b_step::Domain;
use osek_core::Who;
use std::marker::Model;
use system::System;

/// What the actors of a run share.
#[derive(Drop)]
pub struct Shared {
    pub domains: Vec<Domain>,
    pub system: System,
}

impl Model for Shared {
    ghost use Rattle.b_machine.specs.Shown.{Planned};

    ghost Value = { Planned };

    ghost view = { λ s. record { plan = s.system.plan; shared = record { domains = s.domains.items; system = s.system.system } } };
}

impl Shared {
    /// Who makes the next step.
    pub fn acting(&self) -> Option<Who>
        ensures { result ≡ acting self.now.shared.system }
    {
        self.system.acting()
    }

    /// A tick of a counter: the set of the alarms whose action was lost, bit k for alarm k.
    pub fn tick(&mut self, counter: u32) -> u64
        requires { counter < length self.old.plan.clock.counters }
        ensures lost { OfItsTables self.old.plan (λ tables. map Lost (lost_alarms result) ≡ (tick_system tables self.old.shared.system counter).events) }
        ensures state { OfItsTables self.old.plan (λ tables. self.new ≡ with_system self.old (tick_system tables self.old.shared.system counter).system) }
    {
        self.system.tick(counter)
    }
}
