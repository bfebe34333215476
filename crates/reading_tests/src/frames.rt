use classfile::{Access, Method, read_class};
use kes_text::{Kind, Refusal, Stop};
use sqlite_items::Items;
use stackmap::*;
use std::alloc::{AllocError, Global};
use std::process::Abort;
use std::test::Fail;

/// `class Main { static native int again(); static void run() { again(); } }`; entry 1 of its constant
/// pool is the class Main, entry 3 is java/lang/Object, and entry 2 is no class.
const MAIN: [u8; 138] = [
    0xca, 0xfe, 0xba, 0xbe, 0x00, 0x00, 0x00, 0x34, 0x00, 0x0c, 0x07, 0x00, 0x02, 0x01, 0x00, 0x04,
    0x4d, 0x61, 0x69, 0x6e, 0x07, 0x00, 0x04, 0x01, 0x00, 0x10, 0x6a, 0x61, 0x76, 0x61, 0x2f, 0x6c,
    0x61, 0x6e, 0x67, 0x2f, 0x4f, 0x62, 0x6a, 0x65, 0x63, 0x74, 0x01, 0x00, 0x05, 0x61, 0x67, 0x61,
    0x69, 0x6e, 0x01, 0x00, 0x03, 0x28, 0x29, 0x49, 0x01, 0x00, 0x03, 0x72, 0x75, 0x6e, 0x01, 0x00,
    0x03, 0x28, 0x29, 0x56, 0x01, 0x00, 0x04, 0x43, 0x6f, 0x64, 0x65, 0x0a, 0x00, 0x01, 0x00, 0x0b,
    0x0c, 0x00, 0x05, 0x00, 0x06, 0x00, 0x21, 0x00, 0x01, 0x00, 0x03, 0x00, 0x00, 0x00, 0x00, 0x00,
    0x02, 0x01, 0x09, 0x00, 0x05, 0x00, 0x06, 0x00, 0x00, 0x00, 0x09, 0x00, 0x07, 0x00, 0x08, 0x00,
    0x01, 0x00, 0x09, 0x00, 0x00, 0x00, 0x11, 0x00, 0x01, 0x00, 0x00, 0x00, 0x00, 0x00, 0x05, 0xb8,
    0x00, 0x0a, 0x57, 0xb1, 0x00, 0x00, 0x00, 0x00, 0x00, 0x00,
];

const BASE: u64 = 500;

/// A start frame of an int and a long.
fn start(alloc: Global) -> Result<Frame, AllocError> {
    let mut locals = Items::new(alloc);
    locals.push(VType::Integer)?;
    locals.push(VType::Long)?;
    Ok(Frame {
        locals,
        stack: Items::new(alloc),
    })
}

/// A type as one letter, as a test writes it.
fn letter(found: &VType) -> char {
    match found {
        VType::Top => 'T',
        VType::Integer => 'I',
        VType::Float => 'F',
        VType::Double => 'D',
        VType::Long => 'J',
        VType::Null => 'N',
        VType::UninitThis => 'U',
        VType::Object(_) => 'L',
        VType::Uninit(_) => 'W',
    }
}

fn letters(alloc: Global, types: &[VType]) -> Result<String, AllocError> {
    let mut text = String::new(alloc);
    for found in types {
        text.push(letter(found))?;
    }
    Ok(text)
}

fn frames(alloc: Global, table: &[u8]) -> Result<Items<Declared>, Stop> {
    let class = read_class(alloc, &MAIN)?;
    let start = match start(alloc) {
        Ok(start) => start,
        Err(_) => return Err(Stop::NoMemory),
    };
    read_frames(alloc, table, BASE, &class, &start)
}

/// Each form of a frame once.
const TABLE: [u8; 46] = [
    0, 9, // nine frames
    5, // same_frame at 5
    64, 1, // same_locals_1_stack_item_frame at 6: an int
    247, 0, 3, 7, 0, 3, // the same with two bytes, at 10: an Object
    252, 0, 1, 3, // append_frame at 12: a double
    250, 0, 0, // chop_frame at 13: the double goes
    249, 0, 0, // chop_frame at 14: int and long go
    251, 1, 0, // same_frame_extended at 271
    254, 0, 0, 8, 0, 9, 5, 0, // append_frame at 272: what the new at 9 makes, null, Top
    255, 0, 0, 0, 2, 6, 2, 0, 3, 1, 4, 8, 0, 7, // full_frame at 273
];

#[test]
fn each_form_is_read(rt: HostRuntime) -> Result<(), Fail> {
    let alloc = rt.alloc();
    let found = frames(alloc, &TABLE)?;
    let expected = [
        (502, 5, "IJ", ""),
        (503, 6, "IJ", "I"),
        (505, 10, "IJ", "L"),
        (511, 12, "IJD", ""),
        (515, 13, "IJ", ""),
        (518, 14, "", ""),
        (521, 271, "", ""),
        (524, 272, "WNT", ""),
        (532, 273, "UF", "IJW"),
    ];
    assert_eq!(rt; found.len(), expected.len());
    for (declared, (at, pc, locals, stack)) in found.as_slice().iter().zip(expected.iter()) {
        assert_eq!(rt; declared.at, *at);
        assert_eq!(rt; declared.pc, *pc);
        assert_eq!(rt;
            letters(alloc, declared.frame.locals.as_slice())?.as_str(),
            *locals
        );
        assert_eq!(rt;
            letters(alloc, declared.frame.stack.as_slice())?.as_str(),
            *stack
        );
    }
    Ok(())
}

fn shows(rt: &impl Abort, alloc: Global, table: &[u8], kind: Kind, at: u64) {
    match frames(alloc, table) {
        Ok(_) => assert!(rt; false, "accepted, not {kind:?} at {at}"),
        Err(stop) => assert_eq!(rt; stop, Stop::Refused(Refusal { file: 0, kind, at })),
    }
}

#[test]
fn each_fault_at_its_place(rt: HostRuntime) -> Result<(), Fail> {
    let cases: [(&[u8], Kind, u64); 16] = [
        (&[], Kind::FrameEnd, 500),
        (&[0], Kind::FrameEnd, 501),
        (&[0, 1], Kind::FrameEnd, 502),
        (&[0, 0, 0], Kind::FrameEnd, 503),
        (&[0, 2, 0], Kind::FrameEnd, 503),
        (&[0, 1, 251, 0], Kind::FrameEnd, 504),
        (&[0, 1, 64], Kind::FrameEnd, 503),
        (&[0, 1, 64, 7, 0], Kind::FrameEnd, 505),
        (&[0, 1, 128], Kind::FrameTag, 502),
        (&[0, 2, 5, 246], Kind::FrameTag, 503),
        (&[0, 1, 64, 9], Kind::FrameItem, 503),
        (&[0, 1, 64, 7, 0, 2], Kind::FrameItem, 503),
        (&[0, 1, 64, 7, 0, 0], Kind::FrameItem, 503),
        (&[0, 1, 248, 0, 0], Kind::FrameItem, 502),
        (&[0, 2, 251, 255, 255, 64, 9], Kind::FramePlace, 505),
        (&[0, 1, 255, 0, 0, 0, 2, 0, 9], Kind::FrameItem, 508),
    ];
    for (table, kind, at) in cases {
        shows(&rt, rt.alloc(), table, kind, at);
    }
    Ok(())
}

#[test]
fn the_start_of_a_static_method_has_its_parameters_alone(rt: HostRuntime) -> Result<(), Fail> {
    let alloc = rt.alloc();
    let class = read_class(alloc, &MAIN)?;
    for method in class.methods() {
        let frame = start_frame(alloc, &class, method)?;
        assert_eq!(rt; frame.locals.len(), 0);
        assert_eq!(rt; frame.stack.len(), 0);
    }
    Ok(())
}

#[test]
fn this_and_the_parameters_stand_at_the_start(rt: HostRuntime) -> Result<(), Fail> {
    let alloc = rt.alloc();
    let class = read_class(alloc, &MAIN)?;
    let cases: [(&[u8], u16, &str); 4] = [
        (b"run", 0, "LIILJFDLL"),
        (b"run", 8, "IILJFDLL"),
        (b"<init>", 0, "UIILJFDLL"),
        (b"<clinit>", 8, "IILJFDLL"),
    ];
    for (name, bits, locals) in cases {
        let method = Method {
            at: 0,
            flags: Access { bits },
            name,
            descriptor: b"(IZ[JJFDLa;[[La;)V".as_slice(),
            code: None,
        };
        let frame = start_frame(alloc, &class, &method)?;
        assert_eq!(rt; letters(alloc, frame.locals.as_slice())?.as_str(), locals);
    }
    Ok(())
}
