/// Operands that a form of pop or dup takes together: none, one that is no long, or a group of two places, which is
/// a long or two others.
#[derive(Clone, Copy)]
pub enum Group {
    One,
    Pair,
}
