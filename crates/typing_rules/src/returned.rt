/// What an instruction returns: that of ireturn, lreturn or areturn.
#[derive(Clone, Copy)]
pub enum Returned {
    Int,
    Long,
    Reference,
}
