use sqlite_items::Items;

/// A call: an instruction of a pair, and the pairs that it runs.
#[derive(Drop)]
pub struct CallPlace {
    /// The number of the pair.
    pub pair: u32,
    /// The number of the instruction in the pair's code.
    pub ins: u32,
    /// The numbers of the pairs that it runs.
    pub targets: Items<u32>,
}
