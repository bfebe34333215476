//! The plain program of the kernel's scheduler: OSEK/VDX OS 2.2.3, sections 4 and 8.
ghost use Rattle.std.specs.Prelude.{◌≡◌, ℕ, ◌+◌, ◌-◌, ◌<◌, ◌≤◌, ◌↔◌, true, false, [], ◌∷◌, ◌++◌, take, All, IfOk, IfSome, IsSome, IsTrue, Some, length, nat_eq, position, slice_get, slice_set, slice_index_or, vec_capacity};
ghost use Rattle.std.specs.List.{list_any, ends_with};
ghost use Rattle.osek_core.specs.declared.control.TaskState.TheVariants.{Ready, Waiting};
ghost use Rattle.osek_core.specs.Core.Queue.{queue, higher, top_job, without_first, with_top_running, with_first_moved};
ghost use Rattle.osek_core.specs.Core.Held.{without_last_taken, highest_of};
ghost use Rattle.osek_core.specs.Tables.Limits.{IsTaskRule};
ghost use Rattle.osek_core.specs.Kernel.Dispatch.{dispatch};
ghost use Rattle.osek_core.specs.Kernel.Invariant.{IsDispatched};
ghost use Rattle.osek_core.specs.Kernel.Rules.{rule_of};
ghost use Rattle.osek_core.specs.Kernel.Scheduler.{running, caller, is_running, idle, task_at, held_by, set_state, remove_first, current_priority};
ghost use Rattle.osek_core.specs.Kernel.State.{first_scheduler};
ghost use Rattle.osek_core.specs.Kernel.TaskServices.{activate_task, terminate_task, chain_task, schedule, activate, end_job, activated, terminated, is_at_limit, holds_resource};
ghost use Rattle.osek_core.specs.Kernel.ResourceServices.{get_resource, release_resource, is_held, is_ceiling_below, hold};
ghost use Rattle.osek_core.specs.Kernel.EventServices.{set_event, clear_event, get_event, wait_event, set_events, wake};
ghost use Rattle.osek_core.specs.Core.Waits.{IsWaiting, waits_for};

use crate::control::{TaskControl, TaskState};
use crate::tables::TaskRule;
use std::alloc::{AllocError, Global};
use std::marker::Model;

const E_OK: u8 = 0;

const E_OS_ACCESS: u8 = 1;

const E_OS_LIMIT: u8 = 4;

const E_OS_NOFUNC: u8 = 5;

const E_OS_RESOURCE: u8 = 6;

const E_OS_STATE: u8 = 7;

/// How many activations a task may have outstanding at most.
const MOST_ACTIVATIONS: usize = 15;

/// An activation of a task, and its current priority.
#[derive(Clone, Copy, Debug, PartialEq, Eq)]
struct Job {
    task: u32,
    priority: u8,
}

/// A resource that a task holds.
#[derive(Clone, Copy, Debug, PartialEq, Eq)]
struct Holding {
    task: u32,
    resource: u32,
}

/// Tasks, their jobs and their resources.
///
/// A service comes without its dispatch: call `dispatch` after it. Only `new` takes memory.
#[derive(Drop)]
pub struct Core {
    rules: Vec<TaskRule>,
    ceilings: Vec<u8>,
    controls: Vec<TaskControl>,
    /// The jobs that don't wait. Those of one priority stand in their order.
    jobs: Vec<Job>,
    /// The resources that are held, those taken last first.
    holdings: Vec<Holding>,
}

impl Model for Core {
    ghost use Rattle.osek_core.specs.Core.Value.{Scheduled};

    ghost Value = { Scheduled };

    ghost use Rattle.std.specs.Prelude.{vec_capacity};
    ghost use Rattle.osek_core.specs.Core.Kept.{scheduled, IsSound};

    ghost view = { λ c. scheduled c.rules.items c.ceilings.items c.controls.items c.jobs.items c.holdings.items };

    ghost invariant = { λ c. IsSound c.rules.items c.ceilings.items c.controls.items c.jobs.items c.holdings.items (vec_capacity c.jobs) (vec_capacity c.holdings) };
}

impl Core {
    /// A scheduler under which no task was activated yet. `ceilings` has each resource's ceiling.
    pub fn new(alloc: Global, tasks: &[TaskRule], ceilings: &[u8]) -> Result<Core, AllocError>
        requires tasks { length tasks.now ≤ 64 }
        requires resources { length ceilings.now ≤ 32 }
        requires rules { All IsTaskRule tasks.now }
        requires priorities { All (λ ceiling. ceiling ≤ 63) ceilings.now }
        ensures rules { IfOk result (λ core. core.rules ≡ record { tasks = tasks.now; ceilings = ceilings.now }) }
        ensures idle { IfOk result (λ core. core.scheduler ≡ first_scheduler core.rules) }
    {
        let rules = Vec::from_slice(alloc, tasks)?;
        let ceilings = Vec::from_slice(alloc, ceilings)?;
        let idle = TaskControl {
            state: TaskState::Suspended,
            activations: 0,
            events: 0,
        };
        let controls = Vec::from_elem(alloc, idle, tasks.len())?;
        let jobs = Vec::with_capacity(alloc, MOST_ACTIVATIONS * tasks.len())?;
        let holdings = Vec::with_capacity(alloc, ceilings.len())?;
        Ok(Core {
            rules,
            ceilings,
            controls,
            jobs,
            holdings,
        })
    }

    /// ActivateTask (section 13.2.3.1): its status.
    pub fn activate(&mut self, task: u32) -> u8
        requires { task < length self.old.rules.tasks }
        ensures status { result ≡ (activate_task self.old.rules self.old.scheduler task).status }
        ensures state { self.new ≡ record self.old { scheduler = (activate_task self.old.rules self.old.scheduler task).state } }
    {
        if self.is_at_limit(task) {
            return E_OS_LIMIT;
        }
        self.add_job(task);
        E_OK
    }

    /// TerminateTask (section 13.2.3.2) by the running task: its status.
    pub fn terminate(&mut self) -> u8
        requires { IsSome (running self.old.scheduler) }
        ensures status { result ≡ (terminate_task self.old.rules self.old.scheduler (caller self.old.scheduler)).status }
        ensures state { self.new ≡ record self.old { scheduler = (terminate_task self.old.rules self.old.scheduler (caller self.old.scheduler)).state } }
    {
        let own = self.caller();
        if self.holds_resource(own) {
            return E_OS_RESOURCE;
        }
        self.end_job(own);
        E_OK
    }

    /// ChainTask (section 13.2.3.3) by the running task: its status.
    pub fn chain(&mut self, task: u32) -> u8
        requires job { IsSome (running self.old.scheduler) }
        requires task { task < length self.old.rules.tasks }
        ensures status { result ≡ (chain_task self.old.rules self.old.scheduler (caller self.old.scheduler) task).status }
        ensures state { self.new ≡ record self.old { scheduler = (chain_task self.old.rules self.old.scheduler (caller self.old.scheduler) task).state } }
    {
        let own = self.caller();
        if self.holds_resource(own) {
            return E_OS_RESOURCE;
        }
        if task != own && self.is_at_limit(task) {
            return E_OS_LIMIT;
        }
        self.end_job(own);
        self.add_job(task);
        E_OK
    }

    /// Schedule (section 13.2.3.4) by the running task: its status.
    pub fn schedule(&mut self) -> u8
        requires { IsSome (running self.old.scheduler) }
        ensures status { result ≡ (schedule self.old.scheduler (caller self.old.scheduler)).status }
        ensures state { self.new ≡ record self.old { scheduler = (schedule self.old.scheduler (caller self.old.scheduler)).state } }
    {
        let own = self.caller();
        if self.holds_resource(own) {
            return E_OS_RESOURCE;
        }
        self.give_way(own);
        E_OK
    }

    /// GetResource (section 13.4.3.1) by the running task: its status.
    pub fn get_resource(&mut self, resource: u32) -> u8
        requires job { IsSome (running self.old.scheduler) }
        requires resource { resource < length self.old.rules.ceilings }
        ensures status { result ≡ (get_resource self.old.rules self.old.scheduler (caller self.old.scheduler) resource).status }
        ensures state { self.new ≡ record self.old { scheduler = (get_resource self.old.rules self.old.scheduler (caller self.old.scheduler) resource).state } }
    {
        let own = self.caller();
        if self.is_held(resource) || self.is_ceiling_below(resource, own) {
            return E_OS_ACCESS;
        }
        self.take(own, resource);
        E_OK
    }

    /// ReleaseResource (section 13.4.3.2) by the running task: its status.
    pub fn release_resource(&mut self, resource: u32) -> u8
        requires job { IsSome (running self.old.scheduler) }
        requires resource { resource < length self.old.rules.ceilings }
        ensures status { result ≡ (release_resource self.old.rules self.old.scheduler (caller self.old.scheduler) resource).status }
        ensures state { self.new ≡ record self.old { scheduler = (release_resource self.old.rules self.old.scheduler (caller self.old.scheduler) resource).state } }
    {
        let own = self.caller();
        if self.is_ceiling_below(resource, own) {
            return E_OS_ACCESS;
        }
        if !self.took_last(own, resource) {
            return E_OS_NOFUNC;
        }
        self.give_back(own);
        E_OK
    }

    /// SetEvent (section 13.5.3.1): its status.
    pub fn set_event(&mut self, task: u32, mask: u32) -> u8
        requires { task < length self.old.rules.tasks }
        ensures status { result ≡ (set_event self.old.rules self.old.scheduler task mask).status }
        ensures state { self.new ≡ record self.old { scheduler = (set_event self.old.rules self.old.scheduler task mask).state } }
    {
        if !self.is_extended(task) {
            return E_OS_ACCESS;
        }
        let control = self.control(task);
        if matches!(control.state, TaskState::Suspended) {
            return E_OS_STATE;
        }
        self.set_events(task, control.events | mask);
        if waits_for(control.state, mask) {
            self.wake(task);
        }
        E_OK
    }

    /// ClearEvent (section 13.5.3.2) by the running task: its status.
    pub fn clear_event(&mut self, mask: u32) -> u8
        requires { IsSome (running self.old.scheduler) }
        ensures status { result ≡ (clear_event self.old.rules self.old.scheduler (caller self.old.scheduler) mask).status }
        ensures state { self.new ≡ record self.old { scheduler = (clear_event self.old.rules self.old.scheduler (caller self.old.scheduler) mask).state } }
    {
        let own = self.caller();
        if !self.is_extended(own) {
            return E_OS_ACCESS;
        }
        let events = self.control(own).events;
        self.set_events(own, events ^ (events & mask));
        E_OK
    }

    /// GetEvent (section 13.5.3.3): the mask of the events that are set, or the status.
    pub fn get_event(&self, task: u32) -> Result<u32, u8>
        requires { task < length self.now.rules.tasks }
        ensures { result ≡ get_event self.now.rules self.now.scheduler task }
    {
        if !self.is_extended(task) {
            return Err(E_OS_ACCESS);
        }
        let control = self.control(task);
        match control.state {
            TaskState::Suspended => Err(E_OS_STATE),
            _ => Ok(control.events),
        }
    }

    /// WaitEvent (section 13.5.3.4) by the running task: its status.
    pub fn wait_event(&mut self, mask: u32) -> u8
        requires { IsSome (running self.old.scheduler) }
        ensures status { result ≡ (wait_event self.old.rules self.old.scheduler (caller self.old.scheduler) mask).status }
        ensures state { self.new ≡ record self.old { scheduler = (wait_event self.old.rules self.old.scheduler (caller self.old.scheduler) mask).state } }
    {
        let own = self.caller();
        if !self.is_extended(own) {
            return E_OS_ACCESS;
        }
        if self.holds_resource(own) {
            return E_OS_RESOURCE;
        }
        if self.control(own).events & mask == 0 {
            self.wait(own, mask);
        }
        E_OK
    }

    /// Lets the first job of the highest priority run, unless a task that can't be preempted runs.
    pub fn dispatch(&mut self)
        ensures state { self.new ≡ record self.old { scheduler = dispatch self.old.rules self.old.scheduler } }
        ensures dispatched { IsDispatched self.new.rules self.new.scheduler }
    {
        match running_task(&self.controls) {
            None => run_first_job(&mut self.controls, &self.jobs),
            Some(task) => {
                if self.rules[task as usize].preemptable {
                    set_state(&mut self.controls, task, TaskState::Ready);
                    run_first_job(&mut self.controls, &self.jobs);
                }
            }
        }
    }

    /// The running task, if there is one.
    pub fn running(&self) -> Option<u32>
        ensures { result ≡ running self.now.scheduler }
    {
        running_task(&self.controls)
    }

    fn caller(&self) -> u32
        requires { IsSome (running self.now.scheduler) }
        ensures caller { result ≡ caller self.now.scheduler }
        ensures runs { running self.now.scheduler ≡ Some result }
        ensures within { result < length self.now.rules.tasks }
    {
        let Some(task) = running_task(&self.controls) else {
            unreachable!()
        };
        task
    }

    fn control(&self, task: u32) -> TaskControl
        requires { task < length self.now.rules.tasks }
        ensures { result ≡ task_at self.now.scheduler task }
    {
        self.controls[task as usize]
    }

    fn is_extended(&self, task: u32) -> bool
        requires { task < length self.now.rules.tasks }
        ensures { result ≡ (rule_of self.now.rules task).extended }
    {
        self.rules[task as usize].extended
    }

    fn is_at_limit(&self, task: u32) -> bool
        requires { task < length self.now.rules.tasks }
        ensures { result ≡ is_at_limit self.now.rules self.now.scheduler task }
    {
        self.rules[task as usize].activations <= self.controls[task as usize].activations
    }

    fn holds_resource(&self, task: u32) -> bool
        requires { task < length self.now.rules.tasks }
        ensures { result ≡ holds_resource self.now.scheduler task }
    {
        holds_any(&self.holdings, task)
    }

    fn is_held(&self, resource: u32) -> bool
        ensures { result ≡ is_held self.now.scheduler resource }
    {
        is_taken(&self.holdings, resource)
    }

    fn is_ceiling_below(&self, resource: u32, task: u32) -> bool
        requires resource { resource < length self.now.rules.ceilings }
        requires task { task < length self.now.rules.tasks }
        ensures { result ≡ is_ceiling_below self.now.rules resource task }
    {
        self.ceilings[resource as usize] < self.rules[task as usize].priority
    }

    /// Whether the resource is the one that the task took last and holds.
    fn took_last(&self, task: u32, resource: u32) -> bool
        requires { task < length self.now.rules.tasks }
        ensures { result ≡ ends_with nat_eq (held_by self.now.scheduler task) (resource ∷ []) }
    {
        match first_holding(&self.holdings, task) {
            None => false,
            Some(place) => self.holdings[place].resource == resource,
        }
    }

    /// A new job of the task, behind the others of its priority.
    fn add_job(&mut self, task: u32)
        requires task { task < length self.old.rules.tasks }
        requires limit { (task_at self.old.scheduler task).activations < (rule_of self.old.rules task).activations }
        ensures { self.new ≡ record self.old { scheduler = activate self.old.rules self.old.scheduler task } }
    {
        let control = self.controls[task as usize];
        self.controls[task as usize] = activated_control(control);
        let _ = self.jobs.push(Job {
            task,
            priority: self.rules[task as usize].priority,
        });
    }

    /// The running task's first job ends.
    fn end_job(&mut self, task: u32)
        requires runs { running self.old.scheduler ≡ Some task }
        requires free { holds_resource self.old.scheduler task ≡ false }
        ensures state { self.new ≡ record self.old { scheduler = end_job self.old.rules self.old.scheduler task } }
        ensures below { (task_at (end_job self.old.rules self.old.scheduler task) task).activations < (rule_of self.old.rules task).activations }
    {
        remove_first_job(&mut self.jobs, self.rules[task as usize].priority);
        self.controls[task as usize] = terminated_control(self.controls[task as usize]);
    }

    /// The running task is ready, as the first of its priority.
    fn give_way(&mut self, task: u32)
        requires { running self.old.scheduler ≡ Some task }
        ensures { self.new ≡ record self.old { scheduler = set_state self.old.scheduler task Ready } }
    {
        self.controls[task as usize].state = TaskState::Ready;
    }

    /// The running task takes a resource that is free.
    fn take(&mut self, task: u32, resource: u32)
        requires runs { running self.old.scheduler ≡ Some task }
        requires resource { resource < length self.old.rules.ceilings }
        requires free { is_held self.old.scheduler resource ≡ false }
        ensures { self.new ≡ record self.old { scheduler = hold self.old.rules self.old.scheduler task (held_by self.old.scheduler task ++ resource ∷ []) } }
    {
        let own = self.rules[task as usize].priority;
        let before = raised_priority(own, &self.ceilings, &self.holdings, task);
        let _ = self.holdings.insert(0, Holding { task, resource });
        let after = raised_priority(own, &self.ceilings, &self.holdings, task);
        move_first_job(&mut self.jobs, task, before, after);
    }

    /// The running task gives back the resource that it took last.
    fn give_back(&mut self, task: u32)
        requires { running self.old.scheduler ≡ Some task }
        ensures { self.new ≡ record self.old { scheduler = hold self.old.rules self.old.scheduler task (take (length (held_by self.old.scheduler task) - 1) (held_by self.old.scheduler task)) } }
    {
        let own = self.rules[task as usize].priority;
        let before = raised_priority(own, &self.ceilings, &self.holdings, task);
        remove_first_holding(&mut self.holdings, task);
        let after = raised_priority(own, &self.ceilings, &self.holdings, task);
        move_first_job(&mut self.jobs, task, before, after);
    }

    fn set_events(&mut self, task: u32, events: u32)
        requires { task < length self.old.rules.tasks }
        ensures { self.new ≡ record self.old { scheduler = set_events self.old.scheduler task events } }
    {
        self.controls[task as usize].events = events;
    }

    /// The task's job leaves waiting, behind the others of its priority.
    fn wake(&mut self, task: u32)
        requires { IsWaiting (task_at self.old.scheduler task).state }
        ensures { self.new ≡ record self.old { scheduler = wake self.old.rules self.old.scheduler task } }
    {
        self.controls[task as usize].state = TaskState::Ready;
        let woken = Job {
            task,
            priority: self.rules[task as usize].priority,
        };
        let _ = self.jobs.push(woken);
    }

    /// The running task waits for one of these events.
    fn wait(&mut self, task: u32, events: u32)
        requires runs { running self.old.scheduler ≡ Some task }
        requires extended { (rule_of self.old.rules task).extended ≡ true }
        requires free { holds_resource self.old.scheduler task ≡ false }
        ensures { self.new ≡ record self.old { scheduler = set_state (remove_first self.old.scheduler (current_priority self.old.rules self.old.scheduler task)) task (Waiting events) } }
    {
        remove_first_job(&mut self.jobs, self.rules[task as usize].priority);
        self.controls[task as usize].state = TaskState::Waiting { events };
    }
}

fn activated_control(control: TaskControl) -> TaskControl
    requires { control.activations < 15 }
    ensures { result ≡ activated control }
{
    let activations = control.activations + 1;
    match control.state {
        TaskState::Suspended => TaskControl {
            state: TaskState::Ready,
            activations,
            events: 0,
        },
        _ => TaskControl {
            activations,
            ..control
        },
    }
}

fn terminated_control(control: TaskControl) -> TaskControl
    ensures { result ≡ terminated control }
{
    let state = if control.activations > 1 {
        TaskState::Ready
    } else {
        TaskState::Suspended
    };
    TaskControl {
        state,
        activations: control.activations.saturating_sub(1),
        ..control
    }
}

fn running_task(controls: &[TaskControl]) -> Option<u32>
    requires { length controls.now ≤ 64 }
    ensures task { result ≡ position is_running controls.now }
    ensures within { IfSome result (λ task. task < length controls.now) }
{
    match running_place(controls) {
        None => None,
        Some(place) => Some(place as u32),
    }
}

fn running_place(controls: &[TaskControl]) -> Option<usize>
    ensures place { result ≡ position is_running controls.now }
    ensures within { IfSome result (λ place. place < length controls.now) }
{
    controls.iter().position(|control| runs(control))
}

fn runs(control: &TaskControl) -> bool
    ensures { result ≡ is_running control.now }
{
    matches!(control.state, TaskState::Running)
}

fn set_state(controls: &mut [TaskControl], task: u32, state: TaskState)
    requires { task < length controls.old }
    ensures { controls.new ≡ slice_set controls.old task (record (slice_index_or controls.old task idle) { state = state }) }
{
    controls[task as usize].state = state;
}

fn holds_any(holdings: &[Holding], task: u32) -> bool
    ensures { result ≡ list_any (λ holding. nat_eq holding.task task) holdings.now }
{
    holdings.iter().any(|holding| holding.task == task)
}

fn is_taken(holdings: &[Holding], resource: u32) -> bool
    ensures { result ≡ list_any (λ holding. nat_eq holding.resource resource) holdings.now }
{
    holdings.iter().any(|holding| holding.resource == resource)
}

/// Whether a task in this state waits for one of these events.
fn waits_for(state: TaskState, mask: u32) -> bool
    ensures { result ≡ waits_for state mask }
{
    match state {
        TaskState::Waiting { events } => events & mask != 0,
        _ => false,
    }
}

/// The place of the holding that the task took last.
fn first_holding(holdings: &[Holding], task: u32) -> Option<usize>
    ensures place { result ≡ position (λ holding. nat_eq holding.task task) holdings.now }
    ensures within { IfSome result (λ place. place < length holdings.now) }
{
    holdings.iter().position(|holding| holding.task == task)
}

/// Takes the holding that the task took last out of the list, if there is one.
fn remove_first_holding(holdings: &mut Vec<Holding>, task: u32)
    ensures items { holdings.new.items ≡ without_last_taken holdings.old.items task }
    ensures room { vec_capacity holdings.new ≡ vec_capacity holdings.old }
{
    if let Some(place) = first_holding(holdings, task) {
        let _ = holdings.remove(place);
    }
}

/// The greatest of `own` and the ceilings of the resources that the task holds.
fn raised_priority(own: u8, ceilings: &[u8], holdings: &[Holding], task: u32) -> u8
    requires { All (λ holding. holding.resource < length ceilings.now) holdings.now }
    ensures { result ≡ highest_of own ceilings.now holdings.now task }
{
    let mut highest = own;
    for holding in holdings {
        if holding.task == task {
            highest = highest.max(ceilings[holding.resource as usize]);
        }
    }
    highest
}

/// The first job of one priority becomes the first of another, where they differ.
fn move_first_job(jobs: &mut Vec<Job>, task: u32, before: u8, after: u8)
    requires { IsSome (slice_get (queue jobs.old.items before) 0) }
    ensures items { jobs.new.items ≡ with_first_moved jobs.old.items before after task }
    ensures room { vec_capacity jobs.new ≡ vec_capacity jobs.old }
{
    if before != after {
        remove_first_job(jobs, before);
        let _ = jobs.insert(
            0,
            Job {
                task,
                priority: after,
            },
        );
    }
}

/// Takes the first job of this priority out of the list, if there is one.
fn remove_first_job(jobs: &mut Vec<Job>, priority: u8)
    ensures items { jobs.new.items ≡ without_first jobs.old.items priority }
    ensures room { vec_capacity jobs.new ≡ vec_capacity jobs.old }
{
    if let Some(place) = first_place(jobs, priority) {
        let _ = jobs.remove(place);
    }
}

/// The place of the first job of this priority.
fn first_place(jobs: &[Job], priority: u8) -> Option<usize>
    ensures place { result ≡ position (λ job. nat_eq job.priority priority) jobs.now }
    ensures within { IfSome result (λ place. place < length jobs.now) }
{
    jobs.iter().position(|job| job.priority == priority)
}

/// Lets the first job of the highest priority run, if there is a job.
fn run_first_job(controls: &mut [TaskControl], jobs: &[Job])
    requires { All (λ job. job.task < length controls.old) jobs.now }
    ensures { controls.new ≡ with_top_running controls.old jobs.now }
{
    if let Some(job) = first_job(jobs) {
        set_state(controls, job.task, TaskState::Running);
    }
}

/// The first of the jobs with the highest priority.
fn first_job(jobs: &[Job]) -> Option<Job>
    ensures { result ≡ top_job jobs.now }
{
    let mut first = None;
    for job in jobs {
        first = Some(higher_job(first, *job));
    }
    first
}

/// The one of the two that runs first, where `job` comes behind `first`.
fn higher_job(first: Option<Job>, job: Job) -> Job
    ensures { Some result ≡ higher first job }
{
    match first {
        Some(first) if first.priority >= job.priority => first,
        _ => job,
    }
}

#[cfg(test)]
mod tests;
