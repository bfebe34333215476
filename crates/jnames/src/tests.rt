ghost use Rattle.jnames.specs.Examples.{MethodIsRead, FieldIsRead, FaultsAreFound, MethodIsSpelled, FieldIsSpelled, NothingIsSpelled};

use super::*;
use std::alloc::{AllocError, Global};
use std::test::Fail;

fn worked_examples()
    ensures method { MethodIsRead }
    ensures field { FieldIsRead }
    ensures faults { FaultsAreFound }
    ensures spelled_method { MethodIsSpelled }
    ensures spelled_field { FieldIsSpelled }
    ensures spelled_nothing { NothingIsSpelled }
{}

#[test]
fn examples_are_computed() {
    worked_examples();
}

#[test]
fn a_method_descriptor_is_read(rt: HostRuntime) -> Result<(), Fail> {
    let found = Descriptor::read(rt.alloc(), b"(ZB[[CLjava/lang/Object;J)Lp/Q;")?;
    assert!(rt; found.is_method());
    let expected: [(Shape, &[u8]); 5] = [
        (Shape::Bool, b""),
        (Shape::Byte, b""),
        (Shape::Array, b"[[C"),
        (Shape::Class, b"java/lang/Object"),
        (Shape::Long, b""),
    ];
    assert_eq!(rt; found.parameters().len(), expected.len());
    for (param, (shape, name)) in found.parameters().iter().zip(expected.iter()) {
        assert_eq!(rt; param.shape, *shape);
        assert_eq!(rt; param.name.as_slice(), *name);
    }
    let answer = found.answer().ok_or("void")?;
    assert_eq!(rt; answer.shape, Shape::Class);
    assert_eq!(rt; answer.name.as_slice(), b"p/Q".as_slice());
    let found = Descriptor::read(rt.alloc(), b"()V")?;
    assert!(rt; found.is_method() && found.parameters().is_empty() && found.answer().is_none());
    Ok(())
}

#[test]
fn a_field_descriptor_is_read(rt: HostRuntime) -> Result<(), Fail> {
    for (text, shape, name) in [
        (b"I".as_slice(), Shape::Int, b"".as_slice()),
        (b"S", Shape::Short, b""),
        (b"F", Shape::Float, b""),
        (b"D", Shape::Double, b""),
        (b"La;", Shape::Class, b"a"),
        (b"[La;", Shape::Array, b"[La;"),
    ] {
        let found = Descriptor::read(rt.alloc(), text)?;
        assert!(rt; !found.is_method() && found.parameters().is_empty());
        let answer = found.answer().ok_or("no type")?;
        assert_eq!(rt; answer.shape, shape);
        assert_eq!(rt; answer.name.as_slice(), name);
        assert!(rt; is_field_descriptor(text));
        assert_eq!(rt; method_slots(text), None);
    }
    Ok(())
}

#[test]
fn other_texts_are_bad(rt: HostRuntime) {
    for text in [
        b"".as_slice(),
        b"V",
        b"X",
        b"L;",
        b"La",
        b"La.b;",
        b"La//b;",
        b"L/a;",
        b"La[;",
        b"[",
        b"[V",
        b"II",
        b"(",
        b"()",
        b"()VV",
        b"(V)V",
        b"(I",
        b"(I)",
        b"I()V",
    ] {
        match Descriptor::read(rt.alloc(), text) {
            Ok(_) => assert!(rt; false, "read {text:?}"),
            Err(fault) => assert_eq!(rt; fault, DescFault::Bad),
        }
        assert!(rt; !is_field_descriptor(text));
        assert_eq!(rt; method_slots(text), None);
    }
}

fn repeated(
    alloc: Global,
    front: &[u8],
    piece: &[u8],
    count: usize,
    end: &[u8],
) -> Result<Vec<u8>, AllocError> {
    let mut text = Vec::from_slice(alloc, front)?;
    for _ in 0..count {
        text.extend_from_slice(piece)?;
    }
    text.extend_from_slice(end)?;
    Ok(text)
}

#[test]
fn limits_are_kept(rt: HostRuntime) -> Result<(), Fail> {
    let alloc = rt.alloc();
    assert!(rt; is_field_descriptor(repeated(alloc, b"", b"[", 255, b"I")?.as_slice()));
    assert!(rt; !is_field_descriptor(repeated(alloc, b"", b"[", 256, b"I")?.as_slice()));
    assert_eq!(rt;
        method_slots(repeated(alloc, b"(", b"I", 255, b")V")?.as_slice()),
        Some(255)
    );
    assert_eq!(rt;
        method_slots(repeated(alloc, b"(", b"I", 256, b")V")?.as_slice()),
        None
    );
    assert_eq!(rt;
        method_slots(repeated(alloc, b"(", b"J", 127, b"I)V")?.as_slice()),
        Some(255)
    );
    assert_eq!(rt;
        method_slots(repeated(alloc, b"(", b"J", 128, b")V")?.as_slice()),
        None
    );
    assert_eq!(rt;
        method_slots(repeated(alloc, b"(", b"[J", 255, b")D")?.as_slice()),
        Some(255)
    );
    assert!(rt;
        Descriptor::read(alloc, repeated(alloc, b"(", b"D", 127, b")V")?.as_slice()).is_ok()
    );
    assert!(rt;
        Descriptor::read(alloc, repeated(alloc, b"(", b"D", 128, b")V")?.as_slice()).is_err()
    );
    Ok(())
}

#[test]
fn names_keep_their_bytes(rt: HostRuntime) -> Result<(), Fail> {
    let name = Name::new(Vec::from_slice(rt.alloc(), b"run")?);
    assert_eq!(rt; name.as_slice(), b"run".as_slice());
    assert_eq!(rt; name.into_vec().as_slice(), b"run".as_slice());
    assert_eq!(rt;
        width(Shape::Bool) + width(Shape::Char) + width(Shape::Array) + width(Shape::Long),
        15
    );
    Ok(())
}
