use osek_core::{FailKind, Place};
use sqlite_items::Items;

/// What a region of the C is for.
#[derive(Clone, Copy, Debug, PartialEq, Eq)]
pub enum RegionRow {
    Heap { domain: u32 },
    Statics { domain: u32 },
    Scratch,
}

/// What a function of the C is made of: a method, or it allocates, or it copies for a portal.
#[derive(Clone, Copy, Debug, PartialEq, Eq)]
pub enum FunctionKind {
    Method { method: u32 },
    Alloc,
    Copy { portal: u32 },
}

/// A function's domain, what it is made of, and for each of its statements how many instructions it
/// stands for.
#[derive(Drop)]
pub struct FunctionRow {
    pub domain: u32,
    pub kind: FunctionKind,
    pub weights: Items<u8>,
}

/// What a FAIL shows.
#[derive(Clone, Copy, Debug, PartialEq, Eq)]
pub struct FailRow {
    pub kind: FailKind,
    pub place: Place,
}

/// What ties the C to the bytecode. The k-th element of `fails`, from 0, is the failure k + 1.
#[derive(Drop)]
pub struct Map {
    /// Whether the high byte of a number comes first.
    pub big: bool,
    /// How many device bytes there are.
    pub devices: u32,
    pub domains: u32,
    /// The distinct reached methods, shown as `Class/Name.method(desc)ret`.
    pub methods: Items<Items<u8>>,
    pub regions: Items<RegionRow>,
    pub functions: Items<FunctionRow>,
    pub fails: Items<FailRow>,
}
