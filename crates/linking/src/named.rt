use jworld::{ClassId, FieldId, MethodId};

/// What the operand of an instruction names.
#[derive(Clone, Copy, Debug, PartialEq, Eq)]
pub enum Named {
    /// Nothing, or a type alone.
    Nothing,
    /// The class of which new makes an object.
    Class(ClassId),
    Field(FieldId),
    Method(MethodId),
}

/// Whether an instruction wants a static member or one of an instance.
#[derive(Clone, Copy, Debug, PartialEq, Eq)]
pub enum Wanted {
    Static,
    Instance,
}
