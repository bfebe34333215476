use jnames::Param;
use jworld::ClassId;

/// What an object is.
#[derive(Drop)]
pub enum Kind {
    /// An instance of a class.
    Instance(ClassId),
    /// An array, by the type of its items.
    Array(Param),
}
