//! An instance of a class, or an array.

ghost use Rattle.std.specs.Prelude.{◌≡◌, ◌<◌, ◌^◌, length, replicate, slice_get, option_map, IfOk, IfNone, IfSome};
ghost use Rattle.std.specs.Option.{option_copied};
ghost use Rattle.values.specs.Values.{zero_of};
ghost use Rattle.b_heap.specs.Heap.{array_of, item_shape, instance_by, with_value};

use crate::kind::Kind;
use jnames::{Name, Param, Shape};
use jworld::ClassId;
use kes_text::NoMemory;
use sqlite_items::Items;
use std::alloc::Global;
use std::marker::Model;
use values::{Value, zero};

/// An object with the values of its fields, or an array with its items; they are fewer than 2 ^ 31.
#[derive(Drop)]
pub struct Object {
    kind: Kind,
    values: Items<Value>,
}

impl Model for Object {
    ghost use Rattle.std.specs.Prelude.{◌<◌, ◌^◌, length};
    ghost use Rattle.b_heap.specs.Heap.{ObjectInfo};

    ghost Value = { ObjectInfo };

    ghost view = { λ o. record { kind = o.kind; values = o.values } };

    ghost invariant = { λ o. length o.values < 2 ^ 31 };
}

fn copied(alloc: Global, param: &Param) -> Result<Param, NoMemory>
    ensures { IfOk result (λ made. made ≡ param.now) }
{
    Ok(Param {
        shape: param.shape,
        name: Name::new(Vec::from_slice(alloc, param.name.as_slice())?),
    })
}

fn zeros(alloc: Global, shape: Shape, length: u32) -> Result<Items<Value>, NoMemory>
    ensures { IfOk result (λ values. values ≡ replicate length (zero_of shape)) }
{
    Ok(Items::from_vec(vec![in alloc; zero(shape); length as usize]?))
}

/// The shape of the items of an array.
pub fn item_shape(kind: &Kind) -> Option<Shape>
    ensures { result ≡ item_shape kind.now }
{
    match kind {
        Kind::Array(element) => Some(element.shape),
        Kind::Instance(_) => None,
    }
}

impl Object {
    /// An instance of a class with these values.
    pub fn instance(class: ClassId, values: Items<Value>) -> Object
        requires { length values < 2 ^ 31 }
        ensures kind { result.kind ≡ Kind.Instance class }
        ensures values { result.values ≡ values }
    {
        Object {
            kind: Kind::Instance(class),
            values,
        }
    }

    /// An array of zeros.
    pub fn array(alloc: Global, element: &Param, length: u32) -> Result<Object, NoMemory>
        requires { length < 2 ^ 31 }
        ensures { IfOk result (λ object. object ≡ array_of element.now length) }
    {
        let values = zeros(alloc, element.shape, length)?;
        let kind = Kind::Array(copied(alloc, element)?);
        Ok(Object { kind, values })
    }

    pub fn kind(&self) -> &Kind
        ensures { result.now ≡ self.now.kind }
    {
        &self.kind
    }

    /// How many values there are.
    pub fn len(&self) -> u32
        ensures value { result ≡ length self.now.values }
        ensures few { result < 2 ^ 31 }
    {
        self.values.len() as u32
    }

    pub fn get(&self, place: u32) -> Option<Value>
        ensures { result ≡ slice_get self.now.values place }
    {
        self.values.get(place as usize).copied()
    }

    /// Puts a value at a place, if there is one.
    pub fn put(&mut self, place: u32, value: Value) -> Option<()>
        ensures put { option_map (λ _. self.new) result ≡ with_value self.old place value }
        ensures none { IfNone result (self.new ≡ self.old) }
    {
        let place = place as usize;
        if place >= self.values.len() {
            return None;
        }
        self.values.set(place, value);
        Some(())
    }
}
