use sqlite_items::Items;

/// The name of an object of the operating system: a letter, and then letters, digits or `_`, at most
/// 32 bytes in all.
#[derive(Drop)]
pub struct Name {
    pub text: Items<u8>,
}

/// What the kernel knows of a task.
#[derive(Clone, Copy, Debug, PartialEq, Eq)]
pub struct TaskRule {
    /// From 0 to 63; a greater number is a higher priority.
    pub priority: u8,
    /// How many activations may be outstanding, from 1 to 15.
    pub activations: u8,
    /// Whether it gives way to a task of higher priority at any time (`SCHEDULE = FULL`).
    pub preemptable: bool,
    /// Whether it may wait for events.
    pub extended: bool,
}

/// A task's row: its rule, and the places of its resources and events, which rise.
#[derive(Drop)]
pub struct TaskRow {
    pub name: Name,
    pub rule: TaskRule,
    /// Whether it is activated when the kernel starts.
    pub auto: bool,
    pub resources: Items<u32>,
    pub events: Items<u32>,
}

/// The numbers of a counter, as OIL 2.5 names them: `MAXALLOWEDVALUE`, `TICKSPERBASE`, `MINCYCLE`.
#[derive(Clone, Copy, Debug, PartialEq, Eq)]
pub struct CounterRule {
    pub max: u32,
    pub base: u32,
    pub min: u32,
}

#[derive(Drop)]
pub struct CounterRow {
    pub name: Name,
    pub rule: CounterRule,
}

/// What an alarm does when it is due.
#[derive(Clone, Copy, Debug, PartialEq, Eq)]
pub enum Action {
    Activate { task: u32 },
    Set { task: u32, event: u32 },
}

/// When an alarm that starts with the kernel is first due, in ticks from then, and after how many ticks
/// again; a cycle of 0 is none.
#[derive(Clone, Copy, Debug, PartialEq, Eq)]
pub struct Start {
    pub first: u32,
    pub cycle: u32,
}

#[derive(Drop)]
pub struct AlarmRow {
    pub name: Name,
    /// The place of its counter.
    pub counter: u32,
    pub action: Action,
    pub start: Option<Start>,
}

/// The objects of an application, each kind in the configuration's order. Numbers name places, from 0.
#[derive(Drop)]
pub struct Tables {
    pub events: Items<Name>,
    pub resources: Items<Name>,
    pub counters: Items<CounterRow>,
    pub tasks: Items<TaskRow>,
    pub alarms: Items<AlarmRow>,
}
