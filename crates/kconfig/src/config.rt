//! A configuration, line by line.

use osek_core::Action;
use sqlite_items::Items;

/// The line `keso 1 order little|big`.
#[derive(Drop)]
pub struct KesoLine {
    pub line: u64,
    /// Whether the high byte of a number comes first.
    pub big: bool,
}

/// The line `devices base N size N`; without one all three numbers are 0.
#[derive(Drop)]
pub struct DevicesLine {
    pub line: u64,
    /// A multiple of 8 below 2^32.
    pub base: u64,
    /// In bytes, a multiple of 8 up to 65,536.
    pub size: u64,
}

/// A line `event E` or `resource R`.
#[derive(Drop)]
pub struct NameLine {
    pub line: u64,
    pub name: Items<u8>,
}

/// A line `domain D heap N`.
#[derive(Drop)]
pub struct DomainLine {
    pub line: u64,
    pub name: Items<u8>,
    /// In bytes, a multiple of 8 up to 8,388,608.
    pub heap: u64,
}

/// A line `counter C max N base N min N`.
#[derive(Drop)]
pub struct CounterLine {
    pub line: u64,
    pub name: Items<u8>,
    /// From 1 to 2,147,483,647.
    pub max: u64,
    /// From 1 to 65,535.
    pub base: u64,
    /// From 1 to `max`.
    pub min: u64,
}

/// A line `task T domain D prio N acts N auto yes|no sched full|non entry CLASS.NAME`.
#[derive(Drop)]
pub struct TaskLine {
    pub line: u64,
    pub name: Items<u8>,
    pub domain: u32,
    /// From 0 to 63.
    pub prio: u64,
    /// From 1 to 15.
    pub acts: u64,
    pub auto: bool,
    pub full: bool,
    pub entry: Items<u8>,
}

/// A line `use T R`.
#[derive(Drop)]
pub struct UseLine {
    pub line: u64,
    pub task: u32,
    pub resource: u32,
}

/// A line `wait T E`.
#[derive(Drop)]
pub struct WaitLine {
    pub line: u64,
    pub task: u32,
    pub event: u32,
}

/// A line `alarm A counter C activate T` or `alarm A counter C set T E`.
#[derive(Drop)]
pub struct AlarmLine {
    pub line: u64,
    pub name: Items<u8>,
    pub counter: u32,
    pub action: Action,
}

/// A line `start A at N cycle N`.
#[derive(Drop)]
pub struct StartLine {
    pub line: u64,
    pub alarm: u32,
    /// From 1 to the counter's max, in ticks from the kernel's start.
    pub first: u64,
    /// 0 for none, or from the counter's min to its max.
    pub cycle: u64,
}

/// What a native method calls: a service of OSEK/VDX OS 2.2.3. A mask has bit k for event k.
#[derive(Clone, Copy, Debug, PartialEq, Eq)]
pub enum Service {
    ActivateTask { task: u32 },
    TerminateTask,
    ChainTask { task: u32 },
    Schedule,
    GetResource { resource: u32 },
    ReleaseResource { resource: u32 },
    SetEvent { task: u32, mask: u32 },
    ClearEvent { mask: u32 },
    GetEvent { task: u32 },
    WaitEvent { mask: u32 },
    SetRelAlarm { alarm: u32 },
    SetAbsAlarm { alarm: u32 },
    CancelAlarm { alarm: u32 },
    GetAlarm { alarm: u32 },
}

/// A line `native METHOD SERVICE ARGS`.
#[derive(Drop)]
pub struct NativeLine {
    pub line: u64,
    pub method: Items<u8>,
    pub service: Service,
}

/// A line `cell CLASS.FIELD at N width 1|2|4|8`.
#[derive(Drop)]
pub struct CellLine {
    pub line: u64,
    pub field: Items<u8>,
    /// In bytes from the object's base, a multiple of the width up to 65,535.
    pub at: u64,
    /// 1, 2, 4 or 8 bytes.
    pub width: u64,
}

/// A line `object O class CLASS base N`.
#[derive(Drop)]
pub struct ObjectLine {
    pub line: u64,
    pub name: Items<u8>,
    pub class: Items<u8>,
    /// In bytes from the device base, a multiple of 8.
    pub base: u64,
}

/// A line `device METHOD O`.
#[derive(Drop)]
pub struct DeviceLine {
    pub line: u64,
    pub method: Items<u8>,
    pub object: u32,
}

/// A line `portal METHOD domain D target METHOD limit N`.
#[derive(Drop)]
pub struct PortalLine {
    pub line: u64,
    pub method: Items<u8>,
    pub domain: u32,
    pub target: Items<u8>,
    /// From 1 to 256.
    pub limit: u64,
}

/// A configuration: the lines of each form in their order, each with its number from 1. A name that an
/// earlier line declares is its place among the lines of its kind, from 0.
#[derive(Drop)]
pub struct Config {
    pub keso: KesoLine,
    pub devices: DevicesLine,
    pub domains: Items<DomainLine>,
    pub counters: Items<CounterLine>,
    pub events: Items<NameLine>,
    pub resources: Items<NameLine>,
    pub tasks: Items<TaskLine>,
    pub uses: Items<UseLine>,
    pub waits: Items<WaitLine>,
    pub alarms: Items<AlarmLine>,
    pub starts: Items<StartLine>,
    pub natives: Items<NativeLine>,
    pub cells: Items<CellLine>,
    pub objects: Items<ObjectLine>,
    pub device_methods: Items<DeviceLine>,
    pub portals: Items<PortalLine>,
}

/// A line behind the first.
#[derive(Drop)]
pub enum Line {
    Devices(DevicesLine),
    Domain(DomainLine),
    Counter(CounterLine),
    Event(NameLine),
    Resource(NameLine),
    Task(TaskLine),
    Use(UseLine),
    Wait(WaitLine),
    Alarm(AlarmLine),
    Start(StartLine),
    Native(NativeLine),
    Cell(CellLine),
    Object(ObjectLine),
    Device(DeviceLine),
    Portal(PortalLine),
}
