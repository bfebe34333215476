/// A local variable by its slot, or an operand by its place from the top, from 0.
#[derive(Clone, Copy, Debug, PartialEq, Eq)]
pub enum Slot {
    Local(u16),
    Operand(u16),
}

/// What is known of locals and operands before an instruction, by which its checks can be left out.
#[derive(Clone, Copy, Debug, PartialEq, Eq)]
pub enum Fact {
    /// A reference isn't null.
    NonNull { slot: Slot },
    /// An int or a long is within these ends.
    Range { slot: Slot, low: i64, high: i64 },
    /// The length of an array is within these ends.
    Length { slot: Slot, low: i64, high: i64 },
    /// An operand is a copy of a local.
    CopyOf { operand: u16, local: u16 },
    /// An operand is the length of the array in a local.
    LengthOf { operand: u16, array: u16 },
    /// A local is below the length of the array in another one.
    Below { index: u16, array: u16 },
}
