use crate::call::Call;

/// Who acts: the start, which runs the initialisers, or a task's job.
#[derive(Clone, Copy, Debug, PartialEq, Eq)]
pub enum Who {
    Start,
    Task(u32),
}

/// Why a run fails.
#[derive(Clone, Copy, Debug, PartialEq, Eq)]
pub enum FailKind {
    /// A task ended while it held a resource.
    HeldAtEnd,
    Null,
    Bounds,
    DivZero,
    NegativeSize,
    Cast,
    Store,
    Interface,
    HeapFull,
    CopyLimit,
    NotPortable,
    Thrown,
    /// A call would pass the largest number of frames.
    Depth,
}

/// The instruction at which a failure is shown: a method by its number, and its offset there.
#[derive(Clone, Copy, Debug, PartialEq, Eq)]
pub struct Place {
    pub method: u32,
    pub pc: u16,
}

/// What a run shows.
#[derive(Clone, Copy, Debug, PartialEq, Eq)]
pub enum Event {
    Service {
        who: Who,
        call: Call,
        answer: i32,
    },
    DevRead {
        who: Who,
        at: u32,
        width: u8,
        value: u64,
    },
    DevWrite {
        who: Who,
        at: u32,
        width: u8,
        value: u64,
    },
    Fail {
        who: Who,
        kind: FailKind,
        place: Option<Place>,
    },
    Lost {
        alarm: u32,
    },
    /// A step of C without a meaning.
    Stuck {
        who: Who,
    },
}
