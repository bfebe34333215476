use std::marker::Model;

/// What kind of entry names a member (JVMS SE 8, 4.4.2): a Fieldref, a Methodref or an
/// InterfaceMethodref.
#[derive(Clone, Copy, Debug, PartialEq, Eq)]
pub enum MemberKind {
    Field,
    Method,
    Interface,
}

/// The value of an Integer or a Long entry (JVMS SE 8, 4.4.4 and 4.4.5).
#[derive(Clone, Copy, Debug, PartialEq, Eq)]
pub enum Constant {
    Int(i32),
    Long(i64),
}

/// A member as an entry of the constant pool names it; all are slices of the file.
#[derive(Drop)]
pub struct Member<'a> {
    pub kind: MemberKind,
    pub class: &'a [u8],
    pub name: &'a [u8],
    pub descriptor: &'a [u8],
}

impl<'a> Model for Member<'a> {
    ghost use Rattle.classfile.specs.ClassFile.{MemberInfo};

    ghost Value = { MemberInfo };

    ghost view = { λ m. record { kind = m.kind; class = m.class.now; name = m.name.now; descriptor = m.descriptor.now } };
}
