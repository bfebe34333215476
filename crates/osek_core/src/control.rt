/// Where a task is in the state model of OSEK/VDX OS 2.2.3, section 4.2.
#[derive(Clone, Copy, Debug, PartialEq, Eq)]
pub enum TaskState {
    Suspended,
    Ready,
    Running,
    /// Until one of these events is set.
    Waiting { events: u32 },
}

/// A task's control block: what changes of it while the system runs.
#[derive(Clone, Copy, Debug, PartialEq, Eq)]
pub struct TaskControl {
    pub state: TaskState,
    /// How many activations are outstanding, the one that runs among them.
    pub activations: u8,
    /// The mask of the events that are set.
    pub events: u32,
}
