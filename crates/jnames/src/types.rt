//! Types as descriptors spell them (JVMS SE 8, 4.3.2).

ghost use Rattle.std.specs.Prelude.{◌≡◌, IfOk};
ghost use Rattle.std.specs.List.{list_all};
ghost use Rattle.jnames.specs.Names.{is_name_byte, is_unqualified_name, is_class_name};
ghost use Rattle.jnames.specs.Types.{base_shape, class_type_at, element_at, type_at};

use crate::bytes::Bytes;
use crate::param::Param;
use crate::shape::Shape;
use std::alloc::{AllocError, Global};
use std::marker::Model;

/// A type whose name is a part of the descriptor.
#[derive(Drop)]
pub struct Type<'a> {
    shape: Shape,
    name: Bytes<'a>,
}

impl<'a> Model for Type<'a> {
    ghost use Rattle.jnames.specs.declared.param.Param.{Param};

    ghost Value = { Param };

    ghost view = { λ t. record { shape = t.shape; name = t.name } };
}

impl<'a> Type<'a> {
    pub fn shape(&self) -> Shape
        ensures { result ≡ self.now.shape }
    {
        self.shape
    }

    /// The same type with a name of its own.
    pub fn to_param(&self, alloc: Global) -> Result<Param, AllocError>
        ensures { IfOk result (λ param. param ≡ self.now) }
    {
        let name = self.name.to_name(alloc)?;
        Ok(Param {
            shape: self.shape,
            name,
        })
    }
}

const MAX_DIMENSIONS: usize = 255;

fn is_name_byte(byte: u8) -> bool
    ensures { result ≡ is_name_byte byte }
{
    !matches!(byte, b'.' | b';' | b'[' | b'/')
}

fn are_name_bytes(bytes: &[u8]) -> bool
    ensures { result ≡ list_all is_name_byte bytes.now }
{
    bytes.iter().all(|b| is_name_byte(*b))
}

fn is_unqualified_name(name: &[u8]) -> bool
    ensures { result ≡ is_unqualified_name name.now }
{
    !name.is_empty() && are_name_bytes(name)
}

fn is_class_name(name: &[u8]) -> bool
    ensures { result ≡ is_class_name name.now }
{
    name.split(|b| *b == b'/')
        .all(|part| is_unqualified_name(part))
}

fn base_shape(byte: u8) -> Option<Shape>
    ensures { result ≡ base_shape byte }
{
    match byte {
        b'B' => Some(Shape::Byte),
        b'C' => Some(Shape::Char),
        b'D' => Some(Shape::Double),
        b'F' => Some(Shape::Float),
        b'I' => Some(Shape::Int),
        b'J' => Some(Shape::Long),
        b'S' => Some(Shape::Short),
        b'Z' => Some(Shape::Bool),
        _ => None,
    }
}

fn class_type_at<'a>(bytes: &Bytes<'a>) -> Option<(Type<'a>, Bytes<'a>)>
    ensures { result ≡ class_type_at bytes.now }
{
    let (name, rest) = bytes.split_once(b';')?;
    if !is_class_name(name.as_slice()) {
        return None;
    }
    let shape = Shape::Class;
    Some((Type { shape, name }, rest))
}

fn element_at<'a>(bytes: &Bytes<'a>) -> Option<(Type<'a>, Bytes<'a>)>
    ensures { result ≡ element_at bytes.now }
{
    match bytes.as_slice() {
        [b'L', rest @ ..] => class_type_at(&Bytes::new(rest)),
        [first, rest @ ..] => {
            let shape = base_shape(*first)?;
            let name = Bytes::new(&[]);
            Some((Type { shape, name }, Bytes::new(rest)))
        }
        [] => None,
    }
}

/// The type at the front, and the bytes behind it.
pub fn type_at<'a>(bytes: &Bytes<'a>) -> Option<(Type<'a>, Bytes<'a>)>
    ensures { result ≡ type_at bytes.now }
{
    let dimensions = bytes.count_front(b'[');
    let (element, rest) = element_at(&bytes.skip(dimensions))?;
    if dimensions == 0 {
        return Some((element, rest));
    }
    if dimensions > MAX_DIMENSIONS {
        return None;
    }
    let shape = Shape::Array;
    let name = bytes.before(&rest);
    Some((Type { shape, name }, rest))
}
