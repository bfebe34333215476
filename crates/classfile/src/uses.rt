/// What an index field is to name in the constant pool.
#[derive(Clone, Copy, Debug, PartialEq, Eq)]
pub enum Wanted {
    /// A Utf8.
    Text,
    /// A Utf8 that a Class entry names: an array descriptor if it begins with `[`.
    ClassText,
    /// A Utf8 that is a field descriptor.
    FieldText,
    /// A Utf8 that is a method descriptor.
    MethodText,
    /// The same of an instance method, so with a slot for `this`.
    InstanceText,
    /// A Utf8 that is a field or a method descriptor.
    AnyText,
    Class,
    /// A NameAndType, and not with a method descriptor.
    FieldType,
    /// A NameAndType, and not with a field descriptor.
    MethodType,
    /// An Integer, Float, Long, Double or String.
    Constant,
    Fieldref,
    Methodref,
    InterfaceMethodref,
    /// A Methodref or an InterfaceMethodref.
    AnyMethodref,
    /// No entry will do.
    Nothing,
}

/// An index field with its offset, or a field or method with the offset of its access flags and the
/// indices of its name and its descriptor.
#[derive(Clone, Copy, Debug, PartialEq, Eq)]
pub enum Use {
    Index {
        at: u64,
        index: u16,
        wanted: Wanted,
    },
    Member {
        at: u64,
        is_method: bool,
        name: u16,
        descriptor: u16,
    },
}
