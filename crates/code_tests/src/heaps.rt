//! What objects and arrays take of a heap.

use kes_text::Stop;
use run_lines::lines;
use std::alloc::Global;
use std::process::Abort;
use std::test::Fail;

/// What javac 17 with `--release 8 -g:none` wrote of
///
///     class Int { int x; }
///     class Below extends Int { byte b; }
///     class None { }
///     class Many { byte a; short s; char c; boolean z; Many next; long l; }
///     class Main {
///         static void objects() { new None(); new Int(); new Below(); new Many(); }
///         static void ints() { int[] a = new int[5]; }
///         static void bytes() { byte[] a = new byte[9]; }
///         static void refs() { Main[] a = new Main[3]; }
///         static void longs() { long[] a = new long[2]; }
///         static void chars() { char[] a = new char[5]; }
///         static void empty() { int[] a = new int[0]; }
///         static void huge() { long[] a = new long[2147483647]; }
///     }
const MAIN: &[u8] = b"\
    \xca\xfe\xba\xbe\0\0\04\0\x1f\x0a\0\x02\0\x03\x07\0\x04\x0c\0\x05\0\x06\x01\0\x10java/lang/Object\x01\0\x06<in\
    it>\x01\0\x03()V\x07\0\x08\x01\0\x04None\x0a\0\x07\0\x03\x07\0\x0b\x01\0\x03Int\x0a\0\x0a\0\x03\x07\0\x0e\x01\
    \0\x05Below\x0a\0\x0d\0\x03\x07\0\x11\x01\0\x04Many\x0a\0\x10\0\x03\x07\0\x14\x01\0\x04Main\x03\x7f\xff\xff\
    \xff\x01\0\x04Code\x01\0\x07objects\x01\0\x04ints\x01\0\x05bytes\x01\0\x04refs\x01\0\x05longs\x01\0\x05chars\
    \x01\0\x05empty\x01\0\x04huge\0\x20\0\x13\0\x02\0\0\0\0\0\x09\0\0\0\x05\0\x06\0\x01\0\x16\0\0\0\x11\0\x01\0\
    \x01\0\0\0\x05*\xb7\0\x01\xb1\0\0\0\0\0\x08\0\x17\0\x06\0\x01\0\x16\0\0\0-\0\x02\0\0\0\0\0!\xbb\0\x07Y\xb7\0\
    \x09W\xbb\0\x0aY\xb7\0\x0cW\xbb\0\x0dY\xb7\0\x0fW\xbb\0\x10Y\xb7\0\x12W\xb1\0\0\0\0\0\x08\0\x18\0\x06\0\x01\0\
    \x16\0\0\0\x11\0\x01\0\x01\0\0\0\x05\x08\xbc\x0aK\xb1\0\0\0\0\0\x08\0\x19\0\x06\0\x01\0\x16\0\0\0\x12\0\x01\0\
    \x01\0\0\0\x06\x10\x09\xbc\x08K\xb1\0\0\0\0\0\x08\0\x1a\0\x06\0\x01\0\x16\0\0\0\x12\0\x01\0\x01\0\0\0\x06\x06\
    \xbd\0\x13K\xb1\0\0\0\0\0\x08\0\x1b\0\x06\0\x01\0\x16\0\0\0\x11\0\x01\0\x01\0\0\0\x05\x05\xbc\x0bK\xb1\0\0\0\0\
    \0\x08\0\x1c\0\x06\0\x01\0\x16\0\0\0\x11\0\x01\0\x01\0\0\0\x05\x08\xbc\x05K\xb1\0\0\0\0\0\x08\0\x1d\0\x06\0\
    \x01\0\x16\0\0\0\x11\0\x01\0\x01\0\0\0\x05\x03\xbc\x0aK\xb1\0\0\0\0\0\x08\0\x1e\0\x06\0\x01\0\x16\0\0\0\x12\0\
    \x01\0\x01\0\0\0\x06\x12\x15\xbc\x0bK\xb1\0\0\0\0\0\0";

const INT: &[u8] = b"\
    \xca\xfe\xba\xbe\0\0\04\0\x0c\x0a\0\x02\0\x03\x07\0\x04\x0c\0\x05\0\x06\x01\0\x10java/lang/Object\x01\0\x06<in\
    it>\x01\0\x03()V\x07\0\x08\x01\0\x03Int\x01\0\x01x\x01\0\x01I\x01\0\x04Code\0\x20\0\x07\0\x02\0\0\0\x01\0\0\0\
    \x09\0\x0a\0\0\0\x01\0\0\0\x05\0\x06\0\x01\0\x0b\0\0\0\x11\0\x01\0\x01\0\0\0\x05*\xb7\0\x01\xb1\0\0\0\0\0\0";

const BELOW: &[u8] = b"\
    \xca\xfe\xba\xbe\0\0\04\0\x0c\x0a\0\x02\0\x03\x07\0\x04\x0c\0\x05\0\x06\x01\0\x03Int\x01\0\x06<init>\x01\0\x03\
    ()V\x07\0\x08\x01\0\x05Below\x01\0\x01b\x01\0\x01B\x01\0\x04Code\0\x20\0\x07\0\x02\0\0\0\x01\0\0\0\x09\0\x0a\0\
    \0\0\x01\0\0\0\x05\0\x06\0\x01\0\x0b\0\0\0\x11\0\x01\0\x01\0\0\0\x05*\xb7\0\x01\xb1\0\0\0\0\0\0";

const NONE: &[u8] = b"\
    \xca\xfe\xba\xbe\0\0\04\0\x0a\x0a\0\x02\0\x03\x07\0\x04\x0c\0\x05\0\x06\x01\0\x10java/lang/Object\x01\0\x06<in\
    it>\x01\0\x03()V\x07\0\x08\x01\0\x04None\x01\0\x04Code\0\x20\0\x07\0\x02\0\0\0\0\0\x01\0\0\0\x05\0\x06\0\x01\0\
    \x09\0\0\0\x11\0\x01\0\x01\0\0\0\x05*\xb7\0\x01\xb1\0\0\0\0\0\0";

const MANY: &[u8] = b"\
    \xca\xfe\xba\xbe\0\0\04\0\x16\x0a\0\x02\0\x03\x07\0\x04\x0c\0\x05\0\x06\x01\0\x10java/lang/Object\x01\0\x06<in\
    it>\x01\0\x03()V\x07\0\x08\x01\0\x04Many\x01\0\x01a\x01\0\x01B\x01\0\x01s\x01\0\x01S\x01\0\x01c\x01\0\x01C\x01\
    \0\x01z\x01\0\x01Z\x01\0\x04next\x01\0\x06LMany;\x01\0\x01l\x01\0\x01J\x01\0\x04Code\0\x20\0\x07\0\x02\0\0\0\
    \x06\0\0\0\x09\0\x0a\0\0\0\0\0\x0b\0\x0c\0\0\0\0\0\x0d\0\x0e\0\0\0\0\0\x0f\0\x10\0\0\0\0\0\x11\0\x12\0\0\0\0\0\
    \x13\0\x14\0\0\0\x01\0\0\0\x05\0\x06\0\x01\0\x15\0\0\0\x11\0\x01\0\x01\0\0\0\x05*\xb7\0\x01\xb1\0\0\0\0\0\0";

const FILES: [&[u8]; 5] = [MAIN, INT, BELOW, NONE, MANY];

const FULL: &str = "main TerminateTask 0\n";

/// The lines of an entry over a heap of some bytes.
fn over(alloc: Global, heap: u64, entry: &str) -> Result<Vec<u8>, Stop> {
    let config = format!(in alloc;
        "keso 1 order little\ndomain app heap {heap}\ntask main domain app prio 1 acts 1 auto yes sched full entry Main.{entry}\n"
    )?;
    lines(alloc, config.as_str(), "run 1000\n", &FILES)
}

/// None takes 8, Int 16, Below 24 and Many 32 bytes: each class level is rounded up.
#[test]
fn objects_fit_exactly(rt: HostRuntime) -> Result<(), Fail> {
    let found = over(rt.alloc(), 80, "objects")?;
    assert_eq!(rt; found.as_slice(), FULL.as_bytes());
    Ok(())
}

/// A smaller heap, and the place of the object that doesn't fit.
const SMALLER: [(u64, &str); 4] = [
    (72, "main fail HeapFull Main.objects()V 24\n"),
    (40, "main fail HeapFull Main.objects()V 16\n"),
    (16, "main fail HeapFull Main.objects()V 8\n"),
    (0, "main fail HeapFull Main.objects()V 0\n"),
];

#[test]
fn objects_do_not_fit_in_less(rt: HostRuntime) -> Result<(), Fail> {
    for (heap, line) in SMALLER {
        let found = over(rt.alloc(), heap, "objects")?;
        assert_eq!(rt; found.as_slice(), line.as_bytes());
    }
    Ok(())
}

/// An entry that makes one array, what this takes, and what is shown of 8 bytes less.
const ARRAYS: [(&str, u64, &str); 6] = [
    ("ints", 32, "main fail HeapFull Main.ints()V 1\n"),
    ("bytes", 24, "main fail HeapFull Main.bytes()V 2\n"),
    ("refs", 24, "main fail HeapFull Main.refs()V 1\n"),
    ("longs", 24, "main fail HeapFull Main.longs()V 1\n"),
    ("chars", 24, "main fail HeapFull Main.chars()V 1\n"),
    ("empty", 8, "main fail HeapFull Main.empty()V 1\n"),
];

#[test]
fn arrays_fit_exactly(rt: HostRuntime) -> Result<(), Fail> {
    for (entry, takes, _) in ARRAYS {
        let found = over(rt.alloc(), takes, entry)?;
        assert_eq!(rt; found.as_slice(), FULL.as_bytes());
    }
    Ok(())
}

#[test]
fn arrays_do_not_fit_in_less(rt: HostRuntime) -> Result<(), Fail> {
    for (entry, takes, line) in ARRAYS {
        let found = over(rt.alloc(), takes.saturating_sub(8), entry)?;
        assert_eq!(rt; found.as_slice(), line.as_bytes());
    }
    Ok(())
}

#[test]
fn no_heap_has_room_for_the_largest_array(rt: HostRuntime) -> Result<(), Fail> {
    let found = over(rt.alloc(), 8_388_608, "huge")?;
    assert_eq!(rt;
        found.as_slice(),
        b"main fail HeapFull Main.huge()V 2\n".as_slice()
    );
    Ok(())
}
