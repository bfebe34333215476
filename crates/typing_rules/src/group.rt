/// Operands that an instruction of the forms of pop, dup and swap takes together.
#[derive(Clone, Copy)]
pub enum Group {
    Nothing,
    /// A value of one place.
    One,
    /// A long or a double, or two values of one place each.
    Pair,
}
