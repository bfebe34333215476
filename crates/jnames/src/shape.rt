ghost use Rattle.std.specs.Prelude.{◌≡◌};
ghost use Rattle.jnames.specs.Width.{width_of};

/// The forms of a type (JVMS SE 8, 4.3.2): the base types, classes and interfaces, and arrays.
#[derive(Clone, Copy, Debug, PartialEq, Eq)]
pub enum Shape {
    Bool,
    Byte,
    Char,
    Short,
    Int,
    Long,
    Float,
    Double,
    Class,
    Array,
}

/// How many bytes a value of the shape takes in a field or an array.
pub fn width(shape: Shape) -> u32
    ensures { result ≡ width_of shape }
{
    match shape {
        Shape::Bool | Shape::Byte => 1,
        Shape::Char | Shape::Short => 2,
        Shape::Int | Shape::Float | Shape::Class | Shape::Array => 4,
        Shape::Long | Shape::Double => 8,
    }
}
