use crate::name::Name;

/// What tells a method of a class from its others (JVMS SE 8, 4.6): its name and its descriptor.
#[derive(Drop)]
pub struct MethodKey {
    pub name: Name,
    pub descriptor: Name,
}

/// What tells a field of a class from its others (JVMS SE 8, 4.5): its name and its descriptor.
#[derive(Drop)]
pub struct FieldKey {
    pub name: Name,
    pub descriptor: Name,
}
