//! A run before its first move.

ghost use Rattle.std.specs.Prelude.{◌≡◌, ◌<◌, ◌^◌, length, reverse, map, IfOk};
ghost use Rattle.std.specs.List.{range_with_len};
ghost use Rattle.kconfig.specs.Sound.{IsSound};
ghost use Rattle.osek_model.specs.Plan.{plan_of};
ghost use Rattle.b_step.specs.Domain.{first_domain};
ghost use Rattle.b_machine.specs.Application.{tables};
ghost use Rattle.b_machine.specs.First.{state_of};
ghost use Rattle.b_machine.specs.State.{no_actor, begun, start_with, limit_of, first_system, first_state};

use crate::actor::Actor;
use crate::program::Program;
use crate::shared::Shared;
use b_step::Domain;
use kconfig::{DomainLine, tables};
use kes_text::NoMemory;
use reaching::Pair;
use std::alloc::Global;
use system::System;

/// Pairs from the last to the first.
fn turned(alloc: Global, pairs: &[Pair]) -> Result<Vec<Pair>, NoMemory>
    ensures { IfOk result (λ turned. turned.items ≡ reverse pairs.now) }
{
    let mut turned = Vec::with_capacity(alloc, pairs.len())?;
    turned.extend_from_slice(pairs)?;
    turned.reverse();
    Ok(turned)
}

/// The start, which begins at the first of the initialisers.
fn first_start(alloc: Global, program: &Program<'_>) -> Result<Actor, NoMemory>
    ensures { IfOk result (λ start. start ≡ start_with program.now no_actor program.now.initialisers) }
{
    let later = turned(alloc, program.initialisers())?;
    let mut start = Actor::new(alloc, later);
    let frame = program.frame_at(alloc, start.next_later())?;
    start.take_later();
    start.begin(frame);
    Ok(start)
}

/// The first job of a task, which begins at its entry.
fn first_job(alloc: Global, program: &Program<'_>, task: u32) -> Result<Actor, NoMemory>
    ensures { IfOk result (λ job. job ≡ begun program.now task no_actor) }
{
    let frame = program.frame_at(alloc, program.entry(task))?;
    let mut job = Actor::new(alloc, Vec::new(alloc));
    job.begin(frame);
    Ok(job)
}

/// The first job of each task.
fn first_jobs(alloc: Global, program: &Program<'_>) -> Result<Vec<Actor>, NoMemory>
    requires { length program.now.bound.config.tasks < 2 ^ 32 }
    ensures { IfOk result (λ jobs. jobs.items ≡ map (λ task. begun program.now task no_actor) (range_with_len 0 (length program.now.bound.config.tasks))) }
{
    let mut jobs = Vec::new(alloc);
    for task in 0..program.bound().config.tasks.len() {
        jobs.push(first_job(alloc, program, task as u32)?)?;
    }
    Ok(jobs)
}

/// The bytes of a domain's heap, in 32 bits.
fn limit_of(line: &DomainLine) -> u32
    ensures { result ≡ limit_of line.now }
{
    line.heap.min(u64::from(u32::MAX)) as u32
}

/// The domains, each with the heap of its line.
fn first_domains(alloc: Global, program: &Program<'_>) -> Result<Vec<Domain>, NoMemory>
    ensures { IfOk result (λ domains. domains.items ≡ map (λ line. first_domain program.now.files (limit_of line)) program.now.bound.config.domains) }
{
    let lines = program.bound().config.domains.as_slice();
    let mut domains = Vec::new(alloc);
    for line in lines {
        domains.push(Domain::new(alloc, program.fields(), limit_of(line))?)?;
    }
    Ok(domains)
}

/// The kernel's system. Without initialisers its kernel is started.
fn first_system(alloc: Global, program: &Program<'_>) -> Result<System, NoMemory>
    requires { IsSound program.now.bound.config }
    ensures plan { IfOk result (λ system. system.plan ≡ plan_of (tables program.now)) }
    ensures system { IfOk result (λ system. system.system ≡ first_system program.now program.now.initialisers) }
{
    let tables = tables(alloc, &program.bound().config)?;
    System::new(alloc, &tables, !program.initialisers().is_empty())
}

/// What a run has at first beside its application.
#[derive(Drop)]
pub struct First {
    pub start: Actor,
    pub jobs: Vec<Actor>,
    pub shared: Shared,
}

/// What the actors share at first.
fn first_shared(alloc: Global, program: &Program<'_>) -> Result<Shared, NoMemory>
    requires { IsSound program.now.bound.config }
    ensures plan { IfOk result (λ shared. shared.plan ≡ plan_of (tables program.now)) }
    ensures shared { IfOk result (λ shared. shared.shared ≡ (first_state program.now).shared) }
{
    let domains = first_domains(alloc, program)?;
    let system = first_system(alloc, program)?;
    Ok(Shared { domains, system })
}

/// What a run has at first.
pub fn first_parts(alloc: Global, program: &Program<'_>) -> Result<First, NoMemory>
    requires { IsSound program.now.bound.config }
    ensures plan { IfOk result (λ first. first.shared.plan ≡ plan_of (tables program.now)) }
    ensures state { IfOk result (λ first. state_of first ≡ first_state program.now) }
{
    let start = first_start(alloc, program)?;
    let jobs = first_jobs(alloc, program)?;
    let shared = first_shared(alloc, program)?;
    Ok(First {
        start,
        jobs,
        shared,
    })
}
