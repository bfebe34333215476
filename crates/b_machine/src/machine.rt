//! The machine, move by move.

ghost use Rattle.std.specs.Prelude.{◌≡◌, ◌<◌, length, slice_get, Some, IfOk};
ghost use Rattle.osek_core.specs.declared.event.Who.TheVariants.{Start, Task as ATask};
ghost use Rattle.osek_core.specs.Kernel.System.{acting};
ghost use Rattle.osek_model.specs.Plan.{plan_of};
ghost use Rattle.b_machine.specs.Application.{tables};
ghost use Rattle.b_machine.specs.First.{state_of};
ghost use Rattle.b_machine.specs.State.{first_state};
ghost use Rattle.b_machine.specs.Trace.{move, IsMove, run, run_actor, tick_move};
ghost use Rattle.b_machine.specs.Moves.{Moves, IsMoved};
ghost use Rattle.kconfig.specs.Sound.{IsSound};

use crate::actor::Actor;
use crate::beginning::{First, first_parts};
use crate::program::Program;
use crate::shared::Shared;
use crate::stepping::step;
use kes_text::NoMemory;
use osek_core::{Event, Move, Who};
use std::alloc::Global;
use std::marker::Model;

/// What a move shows.
#[derive(Clone, Copy, Debug, PartialEq, Eq)]
pub struct Shown {
    pub event: Option<Event>,
    /// The alarms whose action was lost, bit k for alarm k, in whose order they are shown behind the event.
    pub lost: u64,
    /// How many steps it made: 1, or 0 where nobody acts, and for a tick and a poke.
    pub weight: u32,
}

const NOTHING: Shown = Shown {
    event: None,
    lost: 0,
    weight: 0,
};

/// A run of the bytecode of an application.
#[derive(Drop)]
pub struct Bm<'a> {
    program: Program<'a>,
    start: Actor,
    /// Of each task.
    jobs: Vec<Actor>,
    shared: Shared,
}

impl<'a> Model for Bm<'a> {
    ghost use Rattle.std.specs.Prelude.{◌≡◌};
    ghost use Rattle.osek_model.specs.Plan.{plan_of};
    ghost use Rattle.b_machine.specs.Application.{tables};
    ghost use Rattle.b_machine.specs.Moves.{Machine};

    ghost Value = { Machine };

    ghost view = { λ m. record { app = m.program; state = record { start = m.start; jobs = m.jobs.items; shared = m.shared.shared } } };

    ghost invariant = { λ m. m.shared.plan ≡ plan_of (tables m.program) };
}

/// A program that isn't run.
fn discard(_program: Program<'_>) {}

impl<'a> Bm<'a> {
    /// A run of these parts.
    fn begun(program: Program<'a>, first: First) -> Bm<'a>
        requires { first.shared.plan ≡ plan_of (tables program) }
        ensures { result ≡ record { app = program.entry; state = state_of first } }
    {
        Bm {
            program,
            start: first.start,
            jobs: first.jobs,
            shared: first.shared,
        }
    }

    /// A run before its first move.
    pub fn new(alloc: Global, program: Program<'a>) -> Result<Bm<'a>, NoMemory>
        requires { IsSound program.bound.config }
        ensures { IfOk result (λ m. m ≡ record { app = program.entry; state = first_state program.entry }) }
    {
        match first_parts(alloc, &program) {
            Ok(first) => Ok(Bm::begun(program, first)),
            Err(error) => {
                discard(program);
                Err(error)
            }
        }
    }
}

impl Bm<'_> {
    /// One step of the start.
    fn step_start(&mut self, alloc: Global) -> Result<Shown, NoMemory>
        requires { acting self.old.state.shared.system ≡ Some Start }
        ensures { Moves (run_actor self.old.app self.old.state Start (Some self.old.state.start)) self.old result self.new }
    {
        let start = &mut self.start;
        let event = step(alloc, &self.program, Who::Start, start, &mut self.shared)?;
        Ok(Shown {
            event,
            lost: 0,
            weight: 1,
        })
    }

    /// One step of a task's job.
    fn step_task(&mut self, alloc: Global, task: u32) -> Result<Shown, NoMemory>
        requires { acting self.old.state.shared.system ≡ Some (ATask task) }
        ensures { Moves (run_actor self.old.app self.old.state (ATask task) (slice_get self.old.state.jobs task)) self.old result self.new }
    {
        let at = task as usize;
        if at >= self.jobs.len() {
            return Ok(NOTHING);
        }
        let job = &mut self.jobs[at];
        let who = Who::Task(task);
        let event = step(alloc, &self.program, who, job, &mut self.shared)?;
        Ok(Shown {
            event,
            lost: 0,
            weight: 1,
        })
    }

    /// One step of whoever acts.
    fn run(&mut self, alloc: Global) -> Result<Shown, NoMemory>
        ensures { Moves (run self.old.app self.old.state (acting self.old.state.shared.system)) self.old result self.new }
    {
        match self.shared.acting() {
            Some(Who::Start) => self.step_start(alloc),
            Some(Who::Task(task)) => self.step_task(alloc, task),
            None => Ok(NOTHING),
        }
    }

    fn tick(&mut self, counter: u32) -> Shown
        requires { counter < length self.old.app.bound.config.counters }
        ensures { IsMoved (tick_move self.old.app self.old.state counter) self.old result self.new }
    {
        let lost = self.shared.tick(counter);
        Shown {
            event: None,
            lost,
            weight: 0,
        }
    }

    /// Makes a move, whose counter is there. Without memory all is as it was.
    pub fn apply(&mut self, alloc: Global, m: &Move) -> Result<Shown, NoMemory>
        requires { IsMove self.old.app m.now }
        ensures { Moves (move self.old.app self.old.state m.now) self.old result self.new }
    {
        match m {
            Move::Run => self.run(alloc),
            Move::Tick(counter) => Ok(self.tick(*counter)),
            Move::Poke { .. } => Ok(NOTHING),
        }
    }
}
