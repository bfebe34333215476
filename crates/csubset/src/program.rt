use crate::statement::Stmt;
use sqlite_items::Items;

/// A region of `8 * words` bytes, which begins with the words `first`; the others are zero. The last of
/// `first` isn't 0.
#[derive(Drop)]
pub struct CRegion {
    pub words: u32,
    pub first: Items<u64>,
}

/// A function. Its words are numbered from 0, the parameters first.
#[derive(Drop)]
pub struct CFunction {
    pub parameters: u32,
    pub further: u32,
    pub statements: Items<Stmt>,
    /// The label lines behind the last statement.
    pub end_labels: Items<u32>,
}

/// A task's line: it runs the function, then calls TerminateTask, and then fails.
#[derive(Drop)]
pub struct CTask {
    pub name: Items<u8>,
    pub function: u32,
}

/// A whole C text. Names are without their prefix; regions and functions are named by their places.
#[derive(Drop)]
pub struct CProgram {
    /// Where the device bytes begin, a multiple of 8.
    pub device_base: u32,
    pub tasks: Items<Items<u8>>,
    pub resources: Items<Items<u8>>,
    pub events: Items<Items<u8>>,
    pub alarms: Items<Items<u8>>,
    pub regions: Items<CRegion>,
    pub functions: Items<CFunction>,
    /// The initialisers, in order.
    pub starts: Items<u32>,
    pub task_lines: Items<CTask>,
}
