//! The shapes of fields.

ghost use Rattle.std.specs.Prelude.{◌≡◌, ◌≤◌, length, IfOk};
ghost use Rattle.b_heap.specs.Shapes.{shape_of, shape_in, is_static, instance_shapes};

use classfile::{Access, Field};
use jnames::Shape;
use kes_text::NoMemory;
use sqlite_items::Items;
use std::alloc::Global;

/// The shape of the type that the descriptor of a field spells (JVMS SE 8, 4.3.2), which its first byte tells.
pub fn shape_of(descriptor: &[u8]) -> Shape
    ensures { result ≡ shape_of descriptor.now }
{
    match descriptor {
        [b'B', ..] => Shape::Byte,
        [b'C', ..] => Shape::Char,
        [b'D', ..] => Shape::Double,
        [b'F', ..] => Shape::Float,
        [b'I', ..] => Shape::Int,
        [b'J', ..] => Shape::Long,
        [b'S', ..] => Shape::Short,
        [b'Z', ..] => Shape::Bool,
        [b'[', ..] => Shape::Array,
        _ => Shape::Class,
    }
}

/// Whether a field is static.
pub fn is_static(field: &Field<'_>) -> bool
    ensures { result ≡ is_static field.now }
{
    field.flags.bits & Access::STATIC.bits != 0
}

/// The shapes of the instance fields among these, in their order.
pub fn instance_shapes(alloc: Global, fields: &[Field<'_>]) -> Result<Items<Shape>, NoMemory>
    ensures value { IfOk result (λ shapes. shapes ≡ instance_shapes fields.now) }
    ensures few { IfOk result (λ shapes. length shapes ≤ length fields.now) }
{
    let mut shapes = Items::new(alloc);
    for field in fields {
        if !is_static(field) {
            shapes.push(shape_of(field.descriptor))?;
        }
    }
    Ok(shapes)
}
