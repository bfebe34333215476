use crate::fault::HeapFail;
use crate::fields::Fields;
use crate::heap::Heap;
use crate::kind::Kind;
use crate::shapes::shape_of;
use crate::statics::Statics;
use crate::types::{is_instance, is_of, may_hold};
use classfile::read_class;
use jnames::{Name, Param, Shape};
use jworld::{ClassId, FieldId, World};
use kes_text::Stop;
use std::alloc::{AllocError, Global};
use std::process::Abort;
use std::test::Fail;
use values::Value;

/// `class Q extends P` with long w, static P last and char c.
const Q_FILE: [u8; 91] = [
    0xca, 0xfe, 0xba, 0xbe, 0x00, 0x00, 0x00, 0x34, 0x00, 0x0b, 0x01, 0x00, 0x01, 0x51, 0x07, 0x00,
    0x01, 0x01, 0x00, 0x01, 0x50, 0x07, 0x00, 0x03, 0x01, 0x00, 0x01, 0x77, 0x01, 0x00, 0x01, 0x4a,
    0x01, 0x00, 0x04, 0x6c, 0x61, 0x73, 0x74, 0x01, 0x00, 0x03, 0x4c, 0x50, 0x3b, 0x01, 0x00, 0x01,
    0x63, 0x01, 0x00, 0x01, 0x43, 0x00, 0x21, 0x00, 0x02, 0x00, 0x04, 0x00, 0x00, 0x00, 0x03, 0x00,
    0x00, 0x00, 0x05, 0x00, 0x06, 0x00, 0x00, 0x00, 0x08, 0x00, 0x07, 0x00, 0x08, 0x00, 0x00, 0x00,
    0x00, 0x00, 0x09, 0x00, 0x0a, 0x00, 0x00, 0x00, 0x00, 0x00, 0x00,
];

/// `class P` with static final byte s = 300, boolean b and int i.
const P_FILE: [u8; 130] = [
    0xca, 0xfe, 0xba, 0xbe, 0x00, 0x00, 0x00, 0x34, 0x00, 0x0d, 0x01, 0x00, 0x01, 0x50, 0x07, 0x00,
    0x01, 0x01, 0x00, 0x10, 0x6a, 0x61, 0x76, 0x61, 0x2f, 0x6c, 0x61, 0x6e, 0x67, 0x2f, 0x4f, 0x62,
    0x6a, 0x65, 0x63, 0x74, 0x07, 0x00, 0x03, 0x01, 0x00, 0x01, 0x73, 0x01, 0x00, 0x01, 0x42, 0x03,
    0x00, 0x00, 0x01, 0x2c, 0x01, 0x00, 0x0d, 0x43, 0x6f, 0x6e, 0x73, 0x74, 0x61, 0x6e, 0x74, 0x56,
    0x61, 0x6c, 0x75, 0x65, 0x01, 0x00, 0x01, 0x62, 0x01, 0x00, 0x01, 0x5a, 0x01, 0x00, 0x01, 0x69,
    0x01, 0x00, 0x01, 0x49, 0x00, 0x21, 0x00, 0x02, 0x00, 0x04, 0x00, 0x00, 0x00, 0x03, 0x00, 0x18,
    0x00, 0x05, 0x00, 0x06, 0x00, 0x01, 0x00, 0x08, 0x00, 0x00, 0x00, 0x02, 0x00, 0x07, 0x00, 0x00,
    0x00, 0x09, 0x00, 0x0a, 0x00, 0x00, 0x00, 0x00, 0x00, 0x0b, 0x00, 0x0c, 0x00, 0x00, 0x00, 0x00,
    0x00, 0x00,
];

const Q: ClassId = ClassId { n: 4 };

const P: ClassId = ClassId { n: 5 };

const W: FieldId = FieldId { class: Q, n: 0 };

const LAST: FieldId = FieldId { class: Q, n: 1 };

const C: FieldId = FieldId { class: Q, n: 2 };

const S: FieldId = FieldId { class: P, n: 0 };

const B: FieldId = FieldId { class: P, n: 1 };

fn world_of<'a>(alloc: Global, q: &'a [u8], p: &'a [u8]) -> Result<World<'a>, Stop> {
    let mut classes = Vec::new(alloc);
    classes.push(read_class(alloc, q)?)?;
    classes.push(read_class(alloc, p)?)?;
    if classes.len() > 2048 {
        return Err(Stop::NoMemory);
    }
    World::new(alloc, classes)
}

fn fields_of<'a>(alloc: Global, q: &'a [u8], p: &'a [u8]) -> Result<Fields<'a>, Stop> {
    Ok(Fields::new(alloc, world_of(alloc, q, p)?)?)
}

fn reference_to(alloc: Global, name: &[u8]) -> Result<Param, AllocError> {
    Ok(Param {
        shape: Shape::Class,
        name: Name::new(Vec::from_slice(alloc, name)?),
    })
}

/// A Q at 0, of which the field c holds -1 as a char.
fn with_q(alloc: Global, fields: &Fields<'_>, limit: u32) -> Result<Heap, HeapFail> {
    let mut heap = Heap::new(alloc, limit);
    let q = heap.object(alloc, fields, Q)?;
    let _kept = heap.set_field(fields, q, C, Value::Int(-1));
    Ok(heap)
}

fn shows_fields(rt: &impl Abort, fields: &Fields<'_>, heap: &Heap) {
    assert_eq!(rt; heap.left(), 8);
    assert_eq!(rt; heap.get_field(fields, 0, C), Some(Value::Int(65535)));
    assert_eq!(rt; heap.get_field(fields, 0, W), Some(Value::Long(0)));
    assert_eq!(rt; heap.get_field(fields, 0, B), Some(Value::Int(0)));
    assert_eq!(rt; heap.get_field(fields, 0, LAST), None);
    assert_eq!(rt; heap.get_field(fields, 1, W), None);
}

fn try_fields(rt: &impl Abort, alloc: Global, fields: &Fields<'_>) -> Result<(), HeapFail> {
    assert_eq!(rt; fields.cost(Q), 32);
    let heap = with_q(alloc, fields, 40)?;
    shows_fields(rt, fields, &heap);
    Ok(())
}

#[test]
fn fields_are_kept(rt: HostRuntime) -> Result<(), Fail> {
    let alloc = rt.alloc();
    let fields = fields_of(alloc, &Q_FILE, &P_FILE)?;
    try_fields(&rt, alloc, &fields)?;
    assert_eq!(rt; shape_of(b"[I"), Shape::Array);
    Ok(())
}

fn try_full(rt: &impl Abort, alloc: Global, fields: &Fields<'_>) -> Result<(), HeapFail> {
    let mut heap = with_q(alloc, fields, 40)?;
    assert_eq!(rt; heap.object(alloc, fields, P), Err(HeapFail::HeapFull));
    assert_eq!(rt; heap.left(), 8);
    Ok(())
}

#[test]
fn heaps_are_full(rt: HostRuntime) -> Result<(), Fail> {
    let alloc = rt.alloc();
    let fields = fields_of(alloc, &Q_FILE, &P_FILE)?;
    try_full(&rt, alloc, &fields)?;
    Ok(())
}

/// An array of three bytes, of which the last is 200 as a byte.
fn with_bytes(alloc: Global, limit: u32) -> Result<Heap, HeapFail> {
    let bytes = Param {
        shape: Shape::Byte,
        name: Name::new(Vec::new(alloc)),
    };
    let mut heap = Heap::new(alloc, limit);
    let array = heap.array(alloc, &bytes, 3)?;
    let _kept = heap.set_item(array, 2, Value::Int(200));
    Ok(heap)
}

#[test]
fn items_are_kept(rt: HostRuntime) -> Result<(), Fail> {
    let heap = with_bytes(rt.alloc(), 20)?;
    assert_eq!(rt; heap.left(), 4);
    assert_eq!(rt; heap.length(0), Some(3));
    assert_eq!(rt; heap.get_item(0, 1), Some(Value::Int(0)));
    assert_eq!(rt; heap.get_item(0, 2), Some(Value::Int(-56)));
    assert_eq!(rt; heap.get_item(0, 3), None);
    assert_eq!(rt; heap.length(1), None);
    Ok(())
}

fn try_statics(rt: &impl Abort, alloc: Global, fields: &Fields<'_>) -> Result<(), AllocError> {
    let mut statics = Statics::new(alloc, fields)?;
    assert_eq!(rt; statics.get(fields, S), Some(Value::Int(44)));
    assert_eq!(rt; statics.set(fields, LAST, Value::Object(3)), Some(()));
    assert_eq!(rt; statics.get(fields, LAST), Some(Value::Object(3)));
    assert_eq!(rt; statics.set(fields, W, Value::Long(1)), None);
    Ok(())
}

#[test]
fn statics_are_kept(rt: HostRuntime) -> Result<(), Fail> {
    let alloc = rt.alloc();
    let fields = fields_of(alloc, &Q_FILE, &P_FILE)?;
    try_statics(&rt, alloc, &fields)?;
    Ok(())
}

/// A Q at 0, and an array of one P at 1.
fn with_array(alloc: Global, fields: &Fields<'_>) -> Result<Heap, HeapFail> {
    let mut heap = with_q(alloc, fields, 64)?;
    let item = reference_to(alloc, b"P")?;
    let _array = heap.array(alloc, &item, 1)?;
    Ok(heap)
}

fn shows_types(rt: &impl Abort, world: &World<'_>, heap: &Heap) {
    assert!(rt; is_instance(world, heap, 0, b"P"));
    assert!(rt; !is_instance(world, heap, 0, b"[LP;"));
    assert!(rt; is_instance(world, heap, 1, b"[LP;"));
    assert!(rt; is_instance(world, heap, 1, b"[Ljava/lang/Object;"));
    assert!(rt; !is_instance(world, heap, 1, b"[LQ;"));
    assert!(rt; may_hold(world, heap, 1, Value::Object(0)));
    assert!(rt; !may_hold(world, heap, 1, Value::Object(1)));
    assert!(rt; may_hold(world, heap, 1, Value::Null));
    assert!(rt; !is_of(world, &Kind::Instance(P), b"Q"));
    assert!(rt; matches!(heap.kind(0), Some(Kind::Instance(class)) if *class == Q));
}

fn try_types(rt: &impl Abort, alloc: Global, fields: &Fields<'_>) -> Result<(), HeapFail> {
    let heap = with_array(alloc, fields)?;
    shows_types(rt, fields.world(), &heap);
    Ok(())
}

#[test]
fn objects_have_their_types(rt: HostRuntime) -> Result<(), Fail> {
    let alloc = rt.alloc();
    let fields = fields_of(alloc, &Q_FILE, &P_FILE)?;
    try_types(&rt, alloc, &fields)?;
    Ok(())
}
