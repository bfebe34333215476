/// The number of a class in its world. Classes 0 to 3 are Object, Throwable, Exception and RuntimeException
/// of java/lang; behind them come the class files in their order.
#[derive(Clone, Copy, Debug, PartialEq, Eq)]
pub struct ClassId {
    pub n: u32,
}

/// A field by the class that declares it and its place among that class's fields.
#[derive(Clone, Copy, Debug, PartialEq, Eq)]
pub struct FieldId {
    pub class: ClassId,
    pub n: u16,
}

/// A method by the class that declares it and its place among that class's methods. The constructor of a
/// built-in class has place 0.
#[derive(Clone, Copy, Debug, PartialEq, Eq)]
pub struct MethodId {
    pub class: ClassId,
    pub n: u16,
}
