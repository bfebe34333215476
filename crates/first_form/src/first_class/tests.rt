//! What the definition says of class files that were written by hand.

use super::*;
use classfile::read_class;
use kes_text::Stop;
use std::alloc::AllocError;
use std::test::*;

/// The class
/// `class Main { static native int again(); static void run() { again(); } }`.
const MAIN: [u8; 138] = [
    0xca, 0xfe, 0xba, 0xbe, 0x00, 0x00, 0x00, 0x34, 0x00, 0x0c, 0x07, 0x00, 0x02, 0x01, 0x00, 0x04,
    0x4d, 0x61, 0x69, 0x6e, 0x07, 0x00, 0x04, 0x01, 0x00, 0x10, 0x6a, 0x61, 0x76, 0x61, 0x2f, 0x6c,
    0x61, 0x6e, 0x67, 0x2f, 0x4f, 0x62, 0x6a, 0x65, 0x63, 0x74, 0x01, 0x00, 0x05, 0x61, 0x67, 0x61,
    0x69, 0x6e, 0x01, 0x00, 0x03, 0x28, 0x29, 0x49, 0x01, 0x00, 0x03, 0x72, 0x75, 0x6e, 0x01, 0x00,
    0x03, 0x28, 0x29, 0x56, 0x01, 0x00, 0x04, 0x43, 0x6f, 0x64, 0x65, 0x0a, 0x00, 0x01, 0x00, 0x0b,
    0x0c, 0x00, 0x05, 0x00, 0x06, 0x00, 0x21, 0x00, 0x01, 0x00, 0x03, 0x00, 0x00, 0x00, 0x00, 0x00,
    0x02, 0x01, 0x09, 0x00, 0x05, 0x00, 0x06, 0x00, 0x00, 0x00, 0x09, 0x00, 0x07, 0x00, 0x08, 0x00,
    0x01, 0x00, 0x09, 0x00, 0x00, 0x00, 0x11, 0x00, 0x01, 0x00, 0x00, 0x00, 0x00, 0x00, 0x05, 0xb8,
    0x00, 0x0a, 0x57, 0xb1, 0x00, 0x00, 0x00, 0x00, 0x00, 0x00,
];

fn placed(pc: u16, op: Op) -> Placed {
    Placed { pc, op }
}

/// The class of the form that a class file has, if the bytes are one.
fn class_in(alloc: Global, bytes: &[u8]) -> Result<Option<FirstClass>, NoMemory> {
    match read_class(alloc, bytes) {
        Ok(class) => first_class(alloc, &class),
        Err(Stop::Refused(_)) => Ok(None),
        Err(Stop::NoMemory) => Err(AllocError),
    }
}

fn is_of_form(alloc: Global, bytes: &[u8]) -> Result<bool, NoMemory> {
    Ok(class_in(alloc, bytes)?.is_some())
}

/// One byte changed, and still of the form.
const LAWFUL: [(usize, u8, &str); 8] = [
    (7, 50, "version 50"),
    (7, 51, "version 51"),
    (5, 3, "a minor version"),
    (86, 0x11, "a final class"),
    (106, 0x0a, "a private entry"),
    (98, 0x0a, "a private native method"),
    (120, 9, "a higher stack"),
    (122, 5, "locals"),
];

/// One byte changed, and no longer of the form.
const UNLAWFUL: [(usize, u8, &str); 49] = [
    (0, 0xcb, "magic"),
    (7, 49, "version 49"),
    (7, 53, "version 53"),
    (6, 1, "version 308"),
    (9, 11, "an entry fewer"),
    (9, 13, "an entry more"),
    (10, 3, "tag 3"),
    (12, 0, "the class's name is entry 0"),
    (12, 1, "the class's name is a Class"),
    (12, 12, "the class's name is behind the pool"),
    (77, 2, "the class of the call is a Utf8"),
    (77, 3, "a call of another class"),
    (79, 10, "the name and type of the call is a Methodref"),
    (82, 7, "a call of another name"),
    (84, 8, "a call with another descriptor"),
    (84, 5, "a descriptor that is none"),
    (85, 0x02, "an interface"),
    (88, 3, "the class is Object"),
    (88, 2, "the class is a Utf8"),
    (90, 1, "the superclass is the class"),
    (92, 1, "an interface more"),
    (94, 1, "a field"),
    (96, 1, "one method"),
    (96, 3, "three methods"),
    (97, 0x00, "no native method"),
    (98, 0x01, "a native method that isn't static"),
    (98, 0x29, "a synchronized native method"),
    (97, 0x05, "an abstract native method"),
    (100, 12, "the native method's name is behind the pool"),
    (102, 8, "a native method without a value"),
    (105, 0x01, "two native methods"),
    (106, 0x01, "an entry that isn't static"),
    (106, 0x29, "a synchronized entry"),
    (105, 0x04, "an abstract entry"),
    (110, 6, "an entry with a value"),
    (112, 0, "an entry without code"),
    (112, 2, "an attribute more"),
    (114, 7, "an attribute of another name"),
    (118, 0x10, "an attribute's length too small"),
    (118, 0x12, "an attribute's length too great"),
    (120, 0, "a stack without room"),
    (126, 0, "no code"),
    (126, 6, "a longer code"),
    (129, 11, "a call of a NameAndType"),
    (130, 0x62, "fadd"),
    (130, 0xb1, "a return in the middle"),
    (131, 0x57, "no return at the end"),
    (133, 1, "a handler"),
    (137, 1, "an attribute of the class"),
];

fn with_byte(at: usize, byte: u8) -> [u8; 138] {
    let mut bytes = MAIN;
    if at < 138 {
        bytes[at] = byte;
    }
    bytes
}

#[test]
fn example(rt: HostRuntime) -> Result<(), Fail> {
    let class = class_in(rt.alloc(), &MAIN)?.ok_or("the form")?;
    assert_eq!(rt; class.name.as_slice(), b"Main".as_slice());
    assert_eq!(rt; class.native.as_slice(), b"again".as_slice());
    assert_eq!(rt; class.entry.as_slice(), b"run".as_slice());
    assert_eq!(rt; class.max_stack, 1);
    assert_eq!(rt; class.max_locals, 0);
    assert_eq!(rt;
        class.code.as_slice(),
        [
            placed(0, Op::Invoke),
            placed(3, Op::Pop),
            placed(4, Op::Return)
        ]
        .as_slice()
    );
    Ok(())
}

#[test]
fn one_byte_changed(rt: HostRuntime) -> Result<(), Fail> {
    for (at, byte, what) in LAWFUL {
        assert!(rt; is_of_form(rt.alloc(), &with_byte(at, byte))?, "{what}");
    }
    for (at, byte, what) in UNLAWFUL {
        assert!(rt; !is_of_form(rt.alloc(), &with_byte(at, byte))?, "{what}");
    }
    Ok(())
}

/// The example with its methods in the other order.
fn swapped_methods(alloc: Global) -> Result<Vec<u8>, NoMemory> {
    let mut bytes = MAIN[..97].to_vec(alloc)?;
    bytes.extend_from_slice(&MAIN[105..136])?;
    bytes.extend_from_slice(&MAIN[97..105])?;
    bytes.extend_from_slice(&MAIN[136..])?;
    Ok(bytes)
}

/// The example with a text as entry 12, and an entry 13.
fn with_entries(alloc: Global, text: &[u8], entry: &[u8]) -> Result<Vec<u8>, NoMemory> {
    let mut bytes = MAIN[..9].to_vec(alloc)?;
    bytes.extend_from_slice(&[14])?;
    bytes.extend_from_slice(&MAIN[10..85])?;
    bytes.extend_from_slice(&[1, (text.len() / 256 % 256) as u8, (text.len() % 256) as u8])?;
    bytes.extend_from_slice(text)?;
    bytes.extend_from_slice(entry)?;
    bytes.extend_from_slice(&MAIN[85..])?;
    Ok(bytes)
}

const CLASS: [u8; 3] = [7, 0, 12];

#[test]
fn methods_in_either_order(rt: HostRuntime) -> Result<(), Fail> {
    let class = class_in(rt.alloc(), &swapped_methods(rt.alloc())?)?.ok_or("the form")?;
    assert_eq!(rt; class.native.as_slice(), b"again".as_slice());
    assert_eq!(rt; class.entry.as_slice(), b"run".as_slice());
    Ok(())
}

/// Whether the example with an entry of this name is of the form.
fn takes_entry_name(alloc: Global, name: &str) -> Result<bool, NoMemory> {
    let mut bytes = with_entries(alloc, name.as_bytes(), &CLASS)?;
    // The entry's name is 30 bytes before the end.
    let place = bytes.len().saturating_sub(30);
    if place < bytes.len() {
        bytes[place] = 12;
    }
    is_of_form(alloc, &bytes)
}

#[test]
fn names_of_initialisers(rt: HostRuntime) -> Result<(), Fail> {
    assert!(rt; takes_entry_name(rt.alloc(), "main")?);
    assert!(rt; !takes_entry_name(rt.alloc(), "<init>")?);
    assert!(rt; !takes_entry_name(rt.alloc(), "<clinit>")?);
    Ok(())
}

#[test]
fn pop_of_nothing(rt: HostRuntime) -> Result<(), Fail> {
    let mut bytes = MAIN[..127].to_vec(rt.alloc())?;
    bytes.extend_from_slice(&[0x57, 0xb8, 0, 10, 0xb1])?;
    bytes.extend_from_slice(&MAIN[132..])?;
    assert!(rt; !is_of_form(rt.alloc(), &bytes)?);
    Ok(())
}

/// The example with this code.
fn with_code(
    alloc: Global,
    max_stack: u8,
    max_locals: u8,
    code: &[u8],
) -> Result<Vec<u8>, NoMemory> {
    let count = (code.len() % 200) as u8;
    let mut bytes = MAIN[..115].to_vec(alloc)?;
    bytes.extend_from_slice(&[
        0,
        0,
        0,
        12 + count,
        0,
        max_stack,
        0,
        max_locals,
        0,
        0,
        0,
        count,
    ])?;
    bytes.extend_from_slice(code)?;
    bytes.extend_from_slice(&MAIN[132..])?;
    Ok(bytes)
}

/// 3 goes into local 0, -128 + 3 into local 1; then (-256 - -125) * 2 is dropped.
const ARITHMETIC: [u8; 18] = [
    0x06, 0x3b, 0x10, 0x80, 0x1a, 0x60, 0x36, 0x01, 0x11, 0xff, 0x00, 0x15, 0x01, 0x64, 0x05, 0x68,
    0x57, 0xb1,
];

/// Code that isn't of the form, with two operands and one local.
const UNLAWFUL_CODE: [(&[u8], &str); 9] = [
    (&[0x1a, 0x57, 0xb1], "a local that was never stored"),
    (&[0x03, 0x3c, 0xb1], "a slot past the last"),
    (&[0x03, 0x60, 0x57, 0xb1], "a sum of one operand"),
    (&[0x03, 0x03, 0x03, 0xb1], "three operands"),
    (&[0x3b, 0xb1], "a store of nothing"),
    (&[0xb1, 0xb1], "a return in the middle"),
    (&[0x03, 0x57], "no return"),
    (&[0x10], "an operand cut off"),
    (&[0x09, 0x58, 0xb1], "a long"),
];

#[test]
fn arithmetic(rt: HostRuntime) -> Result<(), Fail> {
    let class = class_in(rt.alloc(), &with_code(rt.alloc(), 2, 2, &ARITHMETIC)?)?.ok_or(
        "the form",
    )?;
    assert_eq!(rt;
        class.code.as_slice(),
        [
            placed(0, Op::Const(3)),
            placed(1, Op::Store(0)),
            placed(2, Op::Const(0xFFFF_FF80)),
            placed(4, Op::Load(0)),
            placed(5, Op::Add),
            placed(6, Op::Store(1)),
            placed(8, Op::Const(0xFFFF_FF00)),
            placed(11, Op::Load(1)),
            placed(13, Op::Sub),
            placed(14, Op::Const(2)),
            placed(15, Op::Mul),
            placed(16, Op::Pop),
            placed(17, Op::Return)
        ]
        .as_slice()
    );
    for (code, what) in UNLAWFUL_CODE {
        assert!(rt;
            !is_of_form(rt.alloc(), &with_code(rt.alloc(), 2, 1, code)?)?,
            "{what}"
        );
    }
    Ok(())
}
