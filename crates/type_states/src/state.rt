use crate::operands::Operands;
use sqlite_items::Items;
use stackmap::VType;

/// What the slots of the locals and the operands hold (JVMS SE 8, 4.10.1.4): a frame, slot by slot. A long
/// or a double takes two slots, of which the second is Top; a slot behind the last is Top. Contracts see the
/// operands from the top.
#[derive(Drop)]
pub struct TypeState {
    pub slots: Items<VType>,
    pub operands: Operands,
}
