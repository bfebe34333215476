//! A domain's static fields.

ghost use Rattle.std.specs.Prelude.{◌≡◌, ◌%◌, ◌^◌, ◌++◌, option_map, IfOk, OnOk, IfNone};
ghost use Rattle.std.specs.Int.{w32, w64, cast_signed, cast_unsigned};
ghost use Rattle.jworld.specs.Members.{fields_of};
ghost use Rattle.b_heap.specs.Statics.{constant_of, first_by, first_value, first_values, first_statics, static_place, static_value, with_static};

use crate::fields::Fields;
use crate::places::Place;
use crate::shapes::{is_static, shape_of};
use classfile::Field;
use jnames::Shape;
use jworld::{ClassId, FieldId, World};
use kes_text::NoMemory;
use sqlite_items::Items;
use std::alloc::Global;
use std::marker::Model;
use values::{Value, kept, zero};

/// The values of a domain's static fields, which contracts see as their list: those of each class in turn, by its
/// number, and in the file's order.
#[derive(Drop)]
pub struct Statics {
    values: Items<Value>,
}

impl Model for Statics {
    ghost use Rattle.std.specs.Prelude.{List};
    ghost use Rattle.values.specs.declared.value.Value.{Value as Held};

    ghost Value = { List Held };

    ghost view = { λ s. s.values };
}

/// The low 32 bits of a number.
fn low_int(number: i64) -> i32
    ensures { result ≡ cast_signed w32 (cast_unsigned w64 number % 2 ^ 32) }
{
    ((number.cast_unsigned() % 0x1_0000_0000) as u32).cast_signed()
}

/// The constant of a static field of the shape.
fn constant_of(shape: Shape, number: i64) -> Value
    ensures { result ≡ constant_of shape number }
{
    match shape {
        Shape::Long => Value::Long(number),
        _ => Value::Int(low_int(number)),
    }
}

/// What a static field holds at first.
fn first_value(field: &Field<'_>) -> Value
    ensures { result ≡ first_value field.now }
{
    let shape = shape_of(field.descriptor);
    match field.constant {
        Some(number) => kept(shape, constant_of(shape, number)),
        None => zero(shape),
    }
}

/// Puts what the static fields of these hold at first behind other values.
fn push_first(values: &mut Items<Value>, fields: &[Field<'_>]) -> Result<(), NoMemory>
    ensures { OnOk result (values.new ≡ values.old ++ first_values fields.now) }
{
    for field in fields {
        if is_static(field) {
            values.push(first_value(field))?;
        }
    }
    Ok(())
}

/// The same of the static fields of a class.
fn push_class(values: &mut Items<Value>, world: &World<'_>, class: ClassId) -> Result<(), NoMemory>
    ensures { OnOk result (values.new ≡ values.old ++ first_values (fields_of world.now class.n)) }
{
    match world.get(class) {
        Some(file) => push_first(values, file.fields()),
        None => Ok(()),
    }
}

/// Where a static field stands.
fn static_place(fields: &Fields<'_>, field: FieldId) -> Option<Place>
    ensures { result ≡ static_place fields.now field }
{
    let place = fields.place(field)?;
    if place.is_static { Some(place) } else { None }
}

impl Statics {
    /// What the static fields of a world hold before any store: their ConstantValue, as a store would keep it, or
    /// zero.
    pub fn new(alloc: Global, fields: &Fields<'_>) -> Result<Statics, NoMemory>
        ensures { IfOk result (λ statics. statics ≡ first_statics fields.now) }
    {
        let world = fields.world();
        let mut values = Items::new(alloc);
        for n in 0..world.count() {
            push_class(&mut values, world, ClassId { n })?;
        }
        Ok(Statics { values })
    }

    /// The value of a static field. None exactly where there is no such static field.
    #[tactic(auto, unfolding(crate::specs::Statics::static_value))]
    pub fn get(&self, fields: &Fields<'_>, field: FieldId) -> Option<Value>
        ensures { result ≡ static_value fields.now self.now field }
    {
        let place = static_place(fields, field)?;
        self.values.get(place.at as usize).copied()
    }

    /// Stores a value in a static field, which keeps of it what its type holds. None exactly where there is no such
    /// static field; then all are as they were.
    #[tactic(auto, unfolding(crate::specs::Statics::with_static))]
    pub fn set(&mut self, fields: &Fields<'_>, field: FieldId, value: Value) -> Option<()>
        ensures set { option_map (λ _. self.new) result ≡ with_static fields.now self.old field value }
        ensures none { IfNone result (self.new ≡ self.old) }
    {
        let place = static_place(fields, field)?;
        let at = place.at as usize;
        if at >= self.values.len() {
            return None;
        }
        self.values.set(at, kept(place.shape, value));
        Some(())
    }
}
