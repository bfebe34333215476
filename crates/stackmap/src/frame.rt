use crate::vtype::VType;
use sqlite_items::Items;

/// What the locals and the operands hold at an instruction (JVMS SE 8, 4.10.1.4). A long or a double is
/// one entry; a slot behind the last entry is Top. The last operand is the topmost.
#[derive(Drop)]
pub struct Frame {
    pub locals: Items<VType>,
    pub stack: Items<VType>,
}

/// A frame of a StackMapTable: the offset of its tag in the class file, and its place in the code.
#[derive(Drop)]
pub struct Declared {
    pub at: u64,
    pub pc: u16,
    pub frame: Frame,
}
