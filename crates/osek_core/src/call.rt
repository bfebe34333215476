/// A service of OSEK/VDX OS 2.2.3 with its arguments: places of objects, and masks of events.
#[derive(Clone, Copy, Debug, PartialEq, Eq)]
pub enum Call {
    ActivateTask { task: u32 },
    TerminateTask,
    ChainTask { task: u32 },
    Schedule,
    GetResource { resource: u32 },
    ReleaseResource { resource: u32 },
    SetEvent { task: u32, mask: u32 },
    ClearEvent { mask: u32 },
    GetEvent { task: u32 },
    WaitEvent { mask: u32 },
    SetRelAlarm { alarm: u32, first: u32, cycle: u32 },
    SetAbsAlarm { alarm: u32, first: u32, cycle: u32 },
    CancelAlarm { alarm: u32 },
    GetAlarm { alarm: u32 },
}
