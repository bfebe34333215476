use crate::name::Name;
use crate::shape::Shape;

/// A type: of a class its name, of an array its whole descriptor, and else no name.
#[derive(Drop)]
pub struct Param {
    pub shape: Shape,
    pub name: Name,
}
