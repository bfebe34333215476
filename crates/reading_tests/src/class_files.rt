use crate::motor::MOTOR;
use bitflags::Flags;
use classfile::*;
use kes_text::{Kind, Refusal, Stop};
use std::alloc::{AllocError, Global};
use std::process::Abort;
use std::test::Fail;

/// The class with numbers of two bytes written over it, and bytes behind.
fn patched(alloc: Global, patches: &[(usize, u16)], behind: &[u8]) -> Result<Vec<u8>, AllocError> {
    let mut bytes = Vec::from_slice(alloc, &MOTOR)?;
    for (at, number) in patches {
        for (k, byte) in number.to_be_bytes().iter().enumerate() {
            if let Some(place) = bytes.get_mut(at.saturating_add(k)) {
                *place = *byte;
            }
        }
    }
    bytes.extend_from_slice(behind)?;
    Ok(bytes)
}

fn shows(rt: &impl Abort, bytes: &[u8], alloc: Global, kind: Kind, at: u64) {
    match read_class(alloc, bytes) {
        Ok(_) => assert!(rt; false, "accepted, not {kind:?} at {at}"),
        Err(stop) => assert_eq!(rt; stop, Stop::Refused(Refusal { file: 0, kind, at })),
    }
}

#[test]
fn a_class_of_javac_is_read(rt: HostRuntime) -> Result<(), Fail> {
    let class = read_class(rt.alloc(), &MOTOR)?;
    assert_eq!(rt; class.name(), b"Motor".as_slice());
    assert_eq!(rt; class.super_name(), b"java/lang/Object".as_slice());
    assert_eq!(rt; class.super_at(), 369);
    assert_eq!(rt; class.version(), 52);
    assert_eq!(rt; class.flags().bits, 0x0420);
    assert!(rt; class.flags().contains(Access::ABSTRACT));
    assert_eq!(rt; class.interfaces().len(), 1);
    for name in class.interfaces() {
        assert_eq!(rt; *name, b"Door".as_slice());
    }
    Ok(())
}

#[test]
fn its_fields_and_constants_are_read(rt: HostRuntime) -> Result<(), Fail> {
    let class = read_class(rt.alloc(), &MOTOR)?;
    let expected: [(u64, &[u8], &[u8], Option<i64>); 6] = [
        (377, b"LIMIT", b"I", Some(40)),
        (393, b"BIG", b"J", Some(1_099_511_627_776)),
        (409, b"ON", b"Z", Some(1)),
        (425, b"NAME", b"Ljava/lang/String;", None),
        (441, b"own", b"I", None),
        (457, b"speeds", b"[I", None),
    ];
    assert_eq!(rt; class.fields().len(), expected.len());
    for (field, (at, name, descriptor, constant)) in class.fields().iter().zip(expected.iter()) {
        assert_eq!(rt; field.at, *at);
        assert_eq!(rt; field.name, *name);
        assert_eq!(rt; field.descriptor, *descriptor);
        assert_eq!(rt; field.constant, *constant);
    }
    Ok(())
}

#[test]
fn its_methods_and_code_are_read(rt: HostRuntime) -> Result<(), Fail> {
    let class = read_class(rt.alloc(), &MOTOR)?;
    let expected: [(u64, u16, &[u8], &[u8], bool); 4] = [
        (467, 0, b"<init>", b"()V", true),
        (520, 0x0108, b"activate", b"()I", false),
        (528, 0x0400, b"stop", b"()V", false),
        (536, 0x0001, b"open", b"(I)I", true),
    ];
    assert_eq!(rt; class.methods().len(), expected.len());
    for (method, (at, flags, name, descriptor, has_code)) in class
        .methods()
        .iter()
        .zip(expected.iter())
    {
        assert_eq!(rt; method.at, *at);
        assert_eq!(rt; method.flags.bits, *flags);
        assert_eq!(rt; method.name, *name);
        assert_eq!(rt; method.descriptor, *descriptor);
        assert_eq!(rt; method.code.is_some(), *has_code);
    }
    let open = class.methods().last().ok_or("no method")?;
    let code = open.code.as_ref().ok_or("no code")?;
    assert_eq!(rt; (code.at, code.max_stack, code.max_locals), (558, 2, 4));
    assert_eq!(rt; code.bytes, &MOTOR[558..589]);
    assert_eq!(rt; (code.handlers, code.handlers_at), (1, 589));
    match &code.maps {
        Some((at, bytes)) => {
            assert_eq!(rt; *at, 635);
            assert_eq!(rt; *bytes, &MOTOR[635..650]);
        }
        None => assert!(rt; false, "no frames"),
    }
    Ok(())
}

#[test]
fn entries_are_found_by_index(rt: HostRuntime) -> Result<(), Fail> {
    let class = read_class(rt.alloc(), &MOTOR)?;
    let member = class.member(15).ok_or("no member")?;
    assert_eq!(rt; member.kind, MemberKind::Method);
    assert_eq!(rt; member.class, b"Motor".as_slice());
    assert_eq!(rt; member.name, b"activate".as_slice());
    assert_eq!(rt; member.descriptor, b"()I".as_slice());
    assert!(rt; class.member(7).is_some_and(|m| m.kind == MemberKind::Field));
    assert!(rt;
        class.member(0).is_none() && class.member(8).is_none() && class.member(46).is_none()
    );
    assert_eq!(rt; class.class_at(19), Some(b"Door".as_slice()));
    assert_eq!(rt; class.class_at(20), None);
    assert_eq!(rt; class.constant_at(23), Some(Constant::Int(40)));
    assert_eq!(rt;
        class.constant_at(26),
        Some(Constant::Long(1_099_511_627_776))
    );
    assert_eq!(rt; class.constant_at(27), None);
    assert_eq!(rt; class.constant_at(33), None);
    Ok(())
}

#[test]
fn each_kind_stands_at_its_place(rt: HostRuntime) -> Result<(), Fail> {
    let alloc = rt.alloc();
    let rows: [(&[(usize, u16)], Kind, u64); 29] = [
        (&[(0, 0xCAFF)], Kind::Magic, 0),
        (&[(6, 49)], Kind::Version, 6),
        (&[(6, 53)], Kind::Version, 6),
        (&[(14, 0x0302)], Kind::PoolTag, 15),
        (&[(487, 0)], Kind::CodeLength, 485),
        (&[(485, 1)], Kind::CodeLength, 485),
        (&[(479, 38)], Kind::AttrLength, 477),
        (&[(389, 3)], Kind::AttrLength, 387),
        (&[(520, 0x0008)], Kind::CodeCount, 520),
        (&[(467, 0x0100)], Kind::CodeCount, 467),
        (&[(467, 0x0400)], Kind::CodeCount, 467),
        (&[(395, 21), (397, 12)], Kind::TwoMembers, 393),
        (&[(530, 17), (532, 18)], Kind::TwoMembers, 528),
        (&[(367, 4)], Kind::PoolIndex, 367),
        (&[(369, 0)], Kind::PoolIndex, 369),
        (&[(373, 0)], Kind::PoolIndex, 373),
        (&[(379, 2)], Kind::PoolIndex, 379),
        (&[(379, 27)], Kind::PoolIndex, 379),
        (&[(379, 46)], Kind::PoolIndex, 379),
        (&[(391, 10)], Kind::PoolIndex, 391),
        (&[(597, 5)], Kind::PoolIndex, 597),
        (&[(652, 2)], Kind::PoolIndex, 652),
        (&[(11, 3)], Kind::PoolIndex, 11),
        (&[(381, 6)], Kind::BadDescriptor, 381),
        (&[(471, 12)], Kind::BadDescriptor, 471),
        (&[(21, 5)], Kind::BadDescriptor, 21),
        (&[(13, 9)], Kind::BadDescriptor, 13),
        (&[(60, 3)], Kind::BadDescriptor, 60),
        (&[(13, 9), (520, 0x0008)], Kind::CodeCount, 520),
    ];
    for (patches, kind, at) in rows {
        let bytes = patched(alloc, patches, b"")?;
        shows(&rt, bytes.as_slice(), alloc, kind, at);
    }
    let bytes = patched(alloc, &[], b"x")?;
    shows(&rt, bytes.as_slice(), alloc, Kind::Trailing, 660);
    Ok(())
}

#[test]
fn a_file_that_ends_early_is_truncated(rt: HostRuntime) {
    for length in 0..MOTOR.len() {
        shows(
            &rt,
            &MOTOR[..length],
            rt.alloc(),
            Kind::Truncated,
            length as u64,
        );
    }
}

#[test]
fn the_root_has_no_superclass(rt: HostRuntime) -> Result<(), Fail> {
    let bytes = patched(rt.alloc(), &[(367, 2), (369, 0)], b"")?;
    let class = read_class(rt.alloc(), bytes.as_slice())?;
    assert_eq!(rt; class.name(), b"java/lang/Object".as_slice());
    assert_eq!(rt; class.super_name(), b"".as_slice());
    Ok(())
}

#[test]
fn worked_examples_are_computed() {
    class_files();
    pool_entries();
    first_faults();
}

/// The first bytes of a class file whose constant pool has the classes A and B, an Utf8 with these bytes
/// as number 5, and so many more places.
fn begun(alloc: Global, text: &[u8], more: u16) -> Result<Vec<u8>, AllocError> {
    let mut bytes = Vec::from_slice(alloc, &[0xca, 0xfe, 0xba, 0xbe, 0, 0, 0, 52])?;
    bytes.extend_from_slice(&more.saturating_add(6).to_be_bytes())?;
    bytes.extend_from_slice(b"\x01\x00\x01A\x07\x00\x01\x01\x00\x01B\x07\x00\x03\x01")?;
    let length = u16::try_from(text.len()).unwrap_or(u16::MAX);
    bytes.extend_from_slice(&length.to_be_bytes())?;
    bytes.extend_from_slice(text)?;
    Ok(bytes)
}

/// A descriptor of a class with a name of so many letters.
fn long_descriptor(alloc: Global, letters: usize) -> Result<Vec<u8>, AllocError> {
    let mut text = vec![in alloc; b'a'; letters]?;
    text.insert(0, b'L')?;
    text.push(b';')?;
    Ok(text)
}

#[test]
fn many_fields_share_one_long_descriptor(rt: HostRuntime) -> Result<(), Fail> {
    let alloc = rt.alloc();
    let descriptor = long_descriptor(alloc, 65000)?;
    let mut bytes = begun(alloc, descriptor.as_slice(), 40000)?;
    for number in 0..40000u16 {
        let [high, low] = number.to_be_bytes();
        bytes.extend_from_slice(&[1, 0, 2, high, low])?;
    }
    bytes.extend_from_slice(&[0, 0, 0, 2, 0, 4, 0, 0])?;
    bytes.extend_from_slice(&40000u16.to_be_bytes())?;
    for number in 6..40006u16 {
        let [high, low] = number.to_be_bytes();
        bytes.extend_from_slice(&[0, 0, high, low, 0, 5, 0, 0])?;
    }
    bytes.extend_from_slice(&[0, 0, 0, 0])?;
    let class = read_class(alloc, bytes.as_slice())?;
    assert_eq!(rt; class.fields().len(), 40000);
    assert!(rt;
        class
            .fields()
            .iter()
            .all(|field| field.descriptor.len() == 65002)
    );
    Ok(())
}

/// A class A with one native method m, which takes so many ints.
fn with_ints(alloc: Global, parameters: usize, flags: u8) -> Result<Vec<u8>, AllocError> {
    let mut descriptor = Vec::from_slice(alloc, b"(")?;
    for _ in 0..parameters {
        descriptor.push(b'I')?;
    }
    descriptor.extend_from_slice(b")V")?;
    let mut bytes = begun(alloc, descriptor.as_slice(), 1)?;
    bytes.extend_from_slice(b"\x01\x00\x01m")?;
    bytes.extend_from_slice(&[0, 0, 0, 2, 0, 4, 0, 0, 0, 0, 0, 1])?;
    bytes.extend_from_slice(&[1, flags, 0, 6, 0, 5, 0, 0, 0, 0])?;
    Ok(bytes)
}

#[test]
fn a_method_has_255_slots_with_its_receiver(rt: HostRuntime) -> Result<(), Fail> {
    let alloc = rt.alloc();
    let bytes = with_ints(alloc, 254, 0)?;
    assert!(rt; read_class(alloc, bytes.as_slice()).is_ok());
    let bytes = with_ints(alloc, 255, 0)?;
    shows(&rt, bytes.as_slice(), alloc, Kind::BadDescriptor, 305);
    let bytes = with_ints(alloc, 255, 8)?;
    assert!(rt; read_class(alloc, bytes.as_slice()).is_ok());
    let bytes = with_ints(alloc, 256, 8)?;
    shows(&rt, bytes.as_slice(), alloc, Kind::BadDescriptor, 306);
    Ok(())
}
