use crate::expression::{Atom, Expr};
use sqlite_items::Items;

/// A service with its arguments: names of objects without their prefix, and the words of an alarm call.
#[derive(Drop)]
pub enum CService {
    ActivateTask {
        task: Items<u8>,
    },
    TerminateTask,
    ChainTask {
        task: Items<u8>,
    },
    Schedule,
    GetResource {
        resource: Items<u8>,
    },
    ReleaseResource {
        resource: Items<u8>,
    },
    /// At least one event.
    SetEvent {
        task: Items<u8>,
        events: Items<Items<u8>>,
    },
    ClearEvent {
        events: Items<Items<u8>>,
    },
    GetEvent {
        task: Items<u8>,
    },
    WaitEvent {
        events: Items<Items<u8>>,
    },
    SetRelAlarm {
        alarm: Items<u8>,
        first: Atom,
        cycle: Atom,
    },
    SetAbsAlarm {
        alarm: Items<u8>,
        first: Atom,
        cycle: Atom,
    },
    CancelAlarm {
        alarm: Items<u8>,
    },
    GetAlarm {
        alarm: Items<u8>,
    },
}

/// What a statement does. `bytes` is 1, 2, 4 or 8, and `to` is the word that takes the answer.
#[derive(Drop)]
pub enum Form {
    Assign {
        to: u32,
        value: Expr,
    },
    Load {
        to: u32,
        bytes: u8,
        region: u32,
        at: Atom,
    },
    Store {
        bytes: u8,
        region: u32,
        at: Atom,
        value: Atom,
    },
    DeviceLoad {
        to: u32,
        bytes: u8,
        at: Atom,
    },
    DeviceStore {
        bytes: u8,
        at: Atom,
        value: Atom,
    },
    Goto {
        label: u32,
    },
    /// It jumps where the test isn't 0.
    If {
        test: Expr,
        label: u32,
    },
    /// The cases rise.
    Switch {
        on: Atom,
        cases: Items<(u64, u32)>,
        other: u32,
    },
    Call {
        to: u32,
        function: u32,
        arguments: Items<Atom>,
    },
    Return {
        value: Atom,
    },
    Service {
        to: u32,
        service: CService,
    },
    /// The failure with this number in the map; 0 is a task's end with a resource held.
    Fail {
        number: u32,
    },
    Suspend,
    Resume,
}

/// A statement, and the label lines between it and the one before, in the text's order.
#[derive(Drop)]
pub struct Stmt {
    pub labels: Items<u32>,
    pub form: Form,
}
