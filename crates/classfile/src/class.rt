//! What a class file says (JVMS SE 8, 4.1).

ghost use Rattle.std.specs.Prelude.{◌≡◌, map, option_map};
ghost use Rattle.classfile.specs.Pool.{class_name, member, constant_of};

use crate::access::Access;
use crate::member::{Constant, Member};
use crate::names::Names;
use crate::pool::Pool;
use crate::rows::Rows;
use std::marker::Model;

/// A field (JVMS SE 8, 4.5). `at` is the offset of its access flags. `constant` is the value of a
/// ConstantValue that counts: of a Long entry on a static field of type long, and of an Integer entry on
/// a static field of type int, short, char, byte or boolean.
#[derive(Drop)]
pub struct Field<'a> {
    pub at: u64,
    pub flags: Access,
    pub name: &'a [u8],
    pub descriptor: &'a [u8],
    pub constant: Option<i64>,
}

impl<'a> Model for Field<'a> {
    ghost use Rattle.classfile.specs.ClassFile.{FieldInfo};

    ghost Value = { FieldInfo };

    ghost view = { λ f. record { at = f.at; flags = f.flags.bits; name = f.name.now; descriptor = f.descriptor.now; constant = f.constant } };
}

/// The Code of a method (JVMS SE 8, 4.7.3). `at` is the offset of the first byte of the code, and
/// `handlers_at` that of exception_table_length, which is `handlers`. `maps` is the first StackMapTable:
/// the offset of the first byte behind its length, and its bytes.
#[derive(Drop)]
pub struct Code<'a> {
    pub at: u64,
    pub max_stack: u16,
    pub max_locals: u16,
    pub bytes: &'a [u8],
    pub handlers: u16,
    pub handlers_at: u64,
    pub maps: Option<(u64, &'a [u8])>,
}

impl<'a> Model for Code<'a> {
    ghost use Rattle.std.specs.Prelude.{option_map};
    ghost use Rattle.classfile.specs.ClassFile.{CodeInfo};

    ghost Value = { CodeInfo };

    ghost view = { λ c. record { at = c.at; max_stack = c.max_stack; max_locals = c.max_locals; bytes = c.bytes.now; handlers = c.handlers; handlers_at = c.handlers_at; maps = option_map (λ m. (m.0, m.1.now)) c.maps } };
}

/// A method (JVMS SE 8, 4.6). `at` is the offset of its access flags. It has `code` exactly where it is
/// neither native nor abstract.
#[derive(Drop)]
pub struct Method<'a> {
    pub at: u64,
    pub flags: Access,
    pub name: &'a [u8],
    pub descriptor: &'a [u8],
    pub code: Option<Code<'a>>,
}

impl<'a> Model for Method<'a> {
    ghost use Rattle.classfile.specs.ClassFile.{MethodInfo};

    ghost Value = { MethodInfo };

    ghost view = { λ m. record { at = m.at; flags = m.flags.bits; name = m.name.now; descriptor = m.descriptor.now; code = m.code } };
}

/// A class file. Names and code are slices of the file.
#[derive(Drop)]
pub struct Class<'a> {
    pub(crate) version: u16,
    pub(crate) flags: Access,
    pub(crate) name: &'a [u8],
    pub(crate) super_name: &'a [u8],
    pub(crate) super_at: u64,
    pub(crate) interfaces: Names<'a>,
    pub(crate) fields: Rows<Field<'a>>,
    pub(crate) methods: Rows<Method<'a>>,
    pub(crate) pool: Pool<'a>,
}

impl<'a> Model for Class<'a> {
    ghost use Rattle.classfile.specs.ClassFile.{ClassInfo};

    ghost Value = { ClassInfo };

    ghost view = { λ c. record { version = c.version; flags = c.flags.bits; name = c.name.now; super_name = c.super_name.now; super_at = c.super_at; interfaces = c.interfaces; fields = c.fields; methods = c.methods; pool = c.pool } };
}

impl<'a> Class<'a> {
    /// The name of the class.
    pub fn name(&self) -> &'a [u8]
        ensures { result.now ≡ self.now.name }
    {
        self.name
    }

    /// The name of the superclass; no bytes where there is none, as in java/lang/Object alone.
    pub fn super_name(&self) -> &'a [u8]
        ensures { result.now ≡ self.now.super_name }
    {
        self.super_name
    }

    /// The offset of super_class. The index of interface `i`, counted from 0, stands at `super_at() + 4 + 2 * i`.
    pub fn super_at(&self) -> u64
        ensures { result ≡ self.now.super_at }
    {
        self.super_at
    }

    pub fn flags(&self) -> Access
        ensures { result.bits ≡ self.now.flags }
    {
        self.flags
    }

    /// The major version, from 50 to 52.
    pub fn version(&self) -> u16
        ensures { result ≡ self.now.version }
    {
        self.version
    }

    /// The names of the direct superinterfaces, in the file's order.
    pub fn interfaces(&self) -> &[&'a [u8]]
        ensures { map (λ i. i.now) result.now ≡ self.now.interfaces }
    {
        self.interfaces.as_slice()
    }

    /// The fields, in the file's order.
    pub fn fields(&self) -> &[Field<'a>]
        ensures { result.now ≡ self.now.fields }
    {
        self.fields.as_slice()
    }

    /// The methods, in the file's order.
    pub fn methods(&self) -> &[Method<'a>]
        ensures { result.now ≡ self.now.methods }
    {
        self.methods.as_slice()
    }

    /// The member that an entry of the constant pool names. None exactly where the entry isn't there or
    /// is no Fieldref, Methodref or InterfaceMethodref.
    pub fn member(&self, index: u16) -> Option<Member<'a>>
        ensures { result ≡ member self.now.pool index }
    {
        self.pool.member(index)
    }

    /// The class, interface or array descriptor that a Class entry of the constant pool names. None
    /// exactly where the entry isn't there or is of another kind.
    pub fn class_at(&self, index: u16) -> Option<&'a [u8]>
        ensures { option_map (λ name. name.now) result ≡ class_name self.now.pool index }
    {
        let name = self.pool.class_name(index)?;
        Some(name.as_slice())
    }

    /// The value of an Integer or a Long entry of the constant pool. None exactly where the entry isn't
    /// there or is of another kind.
    pub fn constant_at(&self, index: u16) -> Option<Constant>
        ensures { result ≡ constant_of self.now.pool index }
    {
        self.pool.constant(index)
    }
}
