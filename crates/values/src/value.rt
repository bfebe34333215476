/// A value of running bytecode (JVMS SE 8, 2.2). Float and double have none.
#[derive(Clone, Copy, Debug, PartialEq, Eq)]
pub enum Value {
    /// A boolean, byte, char, short or int (2.11.1): a boolean is 0 or 1.
    Int(i32),
    Long(i64),
    /// The reference to nothing (2.4).
    Null,
    /// An object's or an array's place in the list of its domain's objects.
    Object(u32),
    /// A mapped object's base: the place of its first byte among those of the devices.
    Device(u32),
}
