//! The constant pool (JVMS SE 8, 4.4).

ghost use Rattle.std.specs.Prelude.{◌≡◌, option_map};
ghost use Rattle.std.specs.Option.{option_copied};
ghost use Rattle.classfile.specs.Pool.{entry_of, text, class_name, name_and_type, indices_at, member, constant_of};

use crate::member::{Constant, Member, MemberKind};
use crate::text::Text;
use std::marker::Model;

/// An entry of the constant pool. Indices count from 1. A Long or a Double takes two places, and
/// `Behind` stands at the second.
#[derive(Drop)]
pub enum Entry<'a> {
    Utf8(Text<'a>),
    Integer(i32),
    Float,
    Long(i64),
    Double,
    Behind,
    Class { name: u16 },
    String,
    Fieldref { class: u16, name_and_type: u16 },
    Methodref { class: u16, name_and_type: u16 },
    InterfaceMethodref { class: u16, name_and_type: u16 },
    NameAndType { name: u16, descriptor: u16 },
    MethodHandle,
    MethodType,
    InvokeDynamic,
}

/// The entries of a constant pool, which contracts see as their list. Indices count from 1.
#[derive(Drop)]
pub struct Pool<'a> {
    entries: Vec<Entry<'a>>,
}

impl<'a> Model for Pool<'a> {
    ghost use Rattle.std.specs.Prelude.{List};
    ghost use Rattle.classfile.specs.declared.pool.Entry.{Entry};

    ghost Value = { List Entry };

    ghost view = { λ p. p.entries.items };
}

impl<'a> Pool<'a> {
    pub fn new(entries: Vec<Entry<'a>>) -> Pool<'a>
        ensures { result ≡ entries.entry.items }
    {
        Pool { entries }
    }

    pub fn entries(&self) -> &[Entry<'a>]
        ensures { result.now ≡ self.now }
    {
        self.entries.as_slice()
    }

    pub fn entry(&self, index: u16) -> Option<&Entry<'a>>
        ensures { option_copied result ≡ entry_of self.now index }
    {
        if index == 0 {
            return None;
        }
        self.entries.get(index as usize - 1)
    }

    /// The text of a Utf8 entry.
    pub fn text(&self, index: u16) -> Option<&Text<'a>>
        ensures { option_copied result ≡ text self.now index }
    {
        match self.entry(index)? {
            Entry::Utf8(text) => Some(text),
            _ => None,
        }
    }

    /// The name of a Class entry.
    pub fn class_name(&self, index: u16) -> Option<&Text<'a>>
        ensures { option_copied result ≡ class_name self.now index }
    {
        match self.entry(index)? {
            Entry::Class { name } => self.text(*name),
            _ => None,
        }
    }

    /// The name and the descriptor of a NameAndType entry.
    pub fn name_and_type(&self, index: u16) -> Option<(&Text<'a>, &Text<'a>)>
        ensures { option_map (λ x. (x.0.now, x.1.now)) result ≡ name_and_type self.now index }
    {
        match self.entry(index)? {
            Entry::NameAndType { name, descriptor } => {
                Some((self.text(*name)?, self.text(*descriptor)?))
            }
            _ => None,
        }
    }

    fn member_indices(&self, index: u16) -> Option<(MemberKind, u16, u16)>
        ensures { result ≡ indices_at self.now index }
    {
        match self.entry(index)? {
            Entry::Fieldref {
                class,
                name_and_type,
            } => Some((MemberKind::Field, *class, *name_and_type)),
            Entry::Methodref {
                class,
                name_and_type,
            } => Some((MemberKind::Method, *class, *name_and_type)),
            Entry::InterfaceMethodref {
                class,
                name_and_type,
            } => Some((MemberKind::Interface, *class, *name_and_type)),
            _ => None,
        }
    }

    /// The member that an entry names.
    pub fn member(&self, index: u16) -> Option<Member<'a>>
        ensures { result ≡ member self.now index }
    {
        let (kind, class, name_and_type) = self.member_indices(index)?;
        let class = self.class_name(class)?;
        let (name, descriptor) = self.name_and_type(name_and_type)?;
        Some(Member {
            kind,
            class: class.as_slice(),
            name: name.as_slice(),
            descriptor: descriptor.as_slice(),
        })
    }

    /// The value of an Integer or a Long entry.
    pub fn constant(&self, index: u16) -> Option<Constant>
        ensures { result ≡ constant_of self.now index }
    {
        match self.entry(index)? {
            Entry::Integer(value) => Some(Constant::Int(*value)),
            Entry::Long(value) => Some(Constant::Long(*value)),
            _ => None,
        }
    }
}
