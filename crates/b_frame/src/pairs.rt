//! Two numbers on which an operation works.

/// Two numbers of one width, the first of which was pushed first.
#[derive(Clone, Copy)]
pub enum Numbers {
    Ints(i32, i32),
    Longs(i64, i64),
}

/// A number that is shifted, and the bits of the count.
#[derive(Clone, Copy)]
pub enum Shift {
    ShiftInt(i32, u32),
    ShiftLong(i64, u32),
}
