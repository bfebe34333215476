//! Each named failure at its place, and which of two comes first.

use kes_text::Stop;
use run_lines::entry_lines;
use std::alloc::Global;
use std::process::Abort;
use std::test::Fail;

const CONFIG: &str = "keso 1 order little
domain app heap 64
task main domain app prio 1 acts 1 auto yes sched full entry Main.";

/// What javac 17 with `--release 8 -g:none` wrote of
///
///     interface Shape { int sides(); }
///     class Cell implements Shape {
///         int x;
///         public int sides() { return x; }
///         private int own() { return 2; }
///         static void special(Cell c) { c.own(); }
///     }
///     class Bad extends RuntimeException { }
///     class Main {
///         static void load_null() { int[] a = null; int x = a[-1]; }
///         static void store_null() { Object[] a = null; a[-1] = new Cell(); }
///         static void length_null() { long[] a = null; int n = a.length; }
///         static void get_null() { Cell c = null; int x = c.x; }
///         static void put_null() { Cell c = null; c.x = 1; }
///         static void call_null() { Cell c = null; c.sides(); }
///         static void face_null() { Shape s = null; s.sides(); }
///         static void special_null() { Cell.special(null); }
///         static void throw_null() { RuntimeException e = null; throw e; }
///
///         static void load_below() { int[] a = new int[2]; int x = a[-1]; }
///         static void load_end() { byte[] a = new byte[2]; int x = a[2]; }
///         static void store_end() { int[] a = new int[2]; a[2] = 1; }
///         static void store_none() { long[] a = new long[0]; a[0] = 5L; }
///         static void store_outside() { Object[] a = new Cell[1]; a[1] = new Object(); }
///
///         static void store_object() { Object[] a = new Cell[1]; a[0] = new Object(); }
///         static void store_array() { Object[] a = new int[1][]; a[0] = new long[1]; }
///
///         static void divide() { int zero = 0; int x = 1 / zero; }
///         static void remainder() { int zero = 0; int x = 1 % zero; }
///         static void wide_divide() { long zero = 0; long x = 1 / zero; }
///         static void wide_remainder() { long zero = 0; long x = 1 % zero; }
///
///         static void negative() { int[] a = new int[-1]; }
///         static void negative_refs() { Cell[] a = new Cell[-2147483648]; }
///
///         static void throw_own() { throw new Bad(); }
///         static void throw_built_in() { throw new RuntimeException(); }
///     }
const MAIN: &[u8] = b"\
    \xca\xfe\xba\xbe\0\0\04\0?\x0a\0\x02\0\x03\x07\0\x04\x0c\0\x05\0\x06\x01\0\x10java/lang/Object\x01\0\x06<init>\
    \x01\0\x03()V\x07\0\x08\x01\0\x04Cell\x0a\0\x07\0\x03\x09\0\x07\0\x0b\x0c\0\x0c\0\x0d\x01\0\x01x\x01\0\x01I\
    \x0a\0\x07\0\x0f\x0c\0\x10\0\x11\x01\0\x05sides\x01\0\x03()I\x0b\0\x13\0\x0f\x07\0\x14\x01\0\x05Shape\x0a\0\
    \x07\0\x16\x0c\0\x17\0\x18\x01\0\x07special\x01\0\x09(LCell;)V\x05\0\0\0\0\0\0\0\x05\x07\0\x1c\x01\0\x02[I\x03\
    \x80\0\0\0\x07\0\x1f\x01\0\x03Bad\x0a\0\x1e\0\x03\x07\0\"\x01\0\x1ajava/lang/RuntimeException\x0a\0!\0\x03\x07\
    \0%\x01\0\x04Main\x01\0\x04Code\x01\0\x09load_null\x01\0\x0astore_null\x01\0\x0blength_null\x01\0\x08get_null\
    \x01\0\x08put_null\x01\0\x09call_null\x01\0\x09face_null\x01\0\x0cspecial_null\x01\0\x0athrow_null\x01\0\x0alo\
    ad_below\x01\0\x08load_end\x01\0\x09store_end\x01\0\x0astore_none\x01\0\x0dstore_outside\x01\0\x0cstore_object\
    \x01\0\x0bstore_array\x01\0\x06divide\x01\0\x09remainder\x01\0\x0bwide_divide\x01\0\x0ewide_remainder\x01\0\
    \x08negative\x01\0\x0dnegative_refs\x01\0\x09throw_own\x01\0\x0ethrow_built_in\0\x20\0$\0\x02\0\0\0\0\0\x19\0\
    \0\0\x05\0\x06\0\x01\0&\0\0\0\x11\0\x01\0\x01\0\0\0\x05*\xb7\0\x01\xb1\0\0\0\0\0\x08\0'\0\x06\0\x01\0&\0\0\0\
    \x13\0\x02\0\x02\0\0\0\x07\x01K*\x02.<\xb1\0\0\0\0\0\x08\0(\0\x06\0\x01\0&\0\0\0\x19\0\x04\0\x01\0\0\0\x0d\x01\
    K*\x02\xbb\0\x07Y\xb7\0\x09S\xb1\0\0\0\0\0\x08\0)\0\x06\0\x01\0&\0\0\0\x12\0\x01\0\x02\0\0\0\x06\x01K*\xbe<\
    \xb1\0\0\0\0\0\x08\0*\0\x06\0\x01\0&\0\0\0\x14\0\x01\0\x02\0\0\0\x08\x01K*\xb4\0\x0a<\xb1\0\0\0\0\0\x08\0+\0\
    \x06\0\x01\0&\0\0\0\x14\0\x02\0\x01\0\0\0\x08\x01K*\x04\xb5\0\x0a\xb1\0\0\0\0\0\x08\0,\0\x06\0\x01\0&\0\0\0\
    \x14\0\x01\0\x01\0\0\0\x08\x01K*\xb6\0\x0eW\xb1\0\0\0\0\0\x08\0-\0\x06\0\x01\0&\0\0\0\x16\0\x01\0\x01\0\0\0\
    \x0a\x01K*\xb9\0\x12\x01\0W\xb1\0\0\0\0\0\x08\0.\0\x06\0\x01\0&\0\0\0\x11\0\x01\0\0\0\0\0\x05\x01\xb8\0\x15\
    \xb1\0\0\0\0\0\x08\0/\0\x06\0\x01\0&\0\0\0\x10\0\x01\0\x01\0\0\0\x04\x01K*\xbf\0\0\0\0\0\x08\00\0\x06\0\x01\0&\
    \0\0\0\x15\0\x02\0\x02\0\0\0\x09\x05\xbc\x0aK*\x02.<\xb1\0\0\0\0\0\x08\01\0\x06\0\x01\0&\0\0\0\x15\0\x02\0\x02\
    \0\0\0\x09\x05\xbc\x08K*\x053<\xb1\0\0\0\0\0\x08\02\0\x06\0\x01\0&\0\0\0\x15\0\x03\0\x01\0\0\0\x09\x05\xbc\x0a\
    K*\x05\x04O\xb1\0\0\0\0\0\x08\03\0\x06\0\x01\0&\0\0\0\x17\0\x04\0\x01\0\0\0\x0b\x03\xbc\x0bK*\x03\x14\0\x19P\
    \xb1\0\0\0\0\0\x08\04\0\x06\0\x01\0&\0\0\0\x1c\0\x04\0\x01\0\0\0\x10\x04\xbd\0\x07K*\x04\xbb\0\x02Y\xb7\0\x01S\
    \xb1\0\0\0\0\0\x08\05\0\x06\0\x01\0&\0\0\0\x1c\0\x04\0\x01\0\0\0\x10\x04\xbd\0\x07K*\x03\xbb\0\x02Y\xb7\0\x01S\
    \xb1\0\0\0\0\0\x08\06\0\x06\0\x01\0&\0\0\0\x18\0\x03\0\x01\0\0\0\x0c\x04\xbd\0\x1bK*\x03\x04\xbc\x0bS\xb1\0\0\
    \0\0\0\x08\07\0\x06\0\x01\0&\0\0\0\x13\0\x02\0\x02\0\0\0\x07\x03;\x04\x1al<\xb1\0\0\0\0\0\x08\08\0\x06\0\x01\0\
    &\0\0\0\x13\0\x02\0\x02\0\0\0\x07\x03;\x04\x1ap<\xb1\0\0\0\0\0\x08\09\0\x06\0\x01\0&\0\0\0\x13\0\x04\0\x04\0\0\
    \0\x07\x09?\x0a\x1emA\xb1\0\0\0\0\0\x08\0:\0\x06\0\x01\0&\0\0\0\x13\0\x04\0\x04\0\0\0\x07\x09?\x0a\x1eqA\xb1\0\
    \0\0\0\0\x08\0;\0\x06\0\x01\0&\0\0\0\x11\0\x01\0\x01\0\0\0\x05\x02\xbc\x0aK\xb1\0\0\0\0\0\x08\0<\0\x06\0\x01\0\
    &\0\0\0\x13\0\x01\0\x01\0\0\0\x07\x12\x1d\xbd\0\x07K\xb1\0\0\0\0\0\x08\0=\0\x06\0\x01\0&\0\0\0\x14\0\x02\0\0\0\
    \0\0\x08\xbb\0\x1eY\xb7\0\x20\xbf\0\0\0\0\0\x08\0>\0\x06\0\x01\0&\0\0\0\x14\0\x02\0\0\0\0\0\x08\xbb\0!Y\xb7\0#\
    \xbf\0\0\0\0\0\0";

const SHAPE: &[u8] = b"\
    \xca\xfe\xba\xbe\0\0\04\0\x07\x07\0\x02\x01\0\x05Shape\x07\0\x04\x01\0\x10java/lang/Object\x01\0\x05sides\x01\
    \0\x03()I\x06\0\0\x01\0\x03\0\0\0\0\0\x01\x04\x01\0\x05\0\x06\0\0\0\0";

const CELL: &[u8] = b"\
    \xca\xfe\xba\xbe\0\0\04\0\x17\x0a\0\x02\0\x03\x07\0\x04\x0c\0\x05\0\x06\x01\0\x10java/lang/Object\x01\0\x06<in\
    it>\x01\0\x03()V\x09\0\x08\0\x09\x07\0\x0a\x0c\0\x0b\0\x0c\x01\0\x04Cell\x01\0\x01x\x01\0\x01I\x0a\0\x08\0\x0e\
    \x0c\0\x0f\0\x10\x01\0\x03own\x01\0\x03()I\x07\0\x12\x01\0\x05Shape\x01\0\x04Code\x01\0\x05sides\x01\0\x07spec\
    ial\x01\0\x09(LCell;)V\0\x20\0\x08\0\x02\0\x01\0\x11\0\x01\0\0\0\x0b\0\x0c\0\0\0\x04\0\0\0\x05\0\x06\0\x01\0\
    \x13\0\0\0\x11\0\x01\0\x01\0\0\0\x05*\xb7\0\x01\xb1\0\0\0\0\0\x01\0\x14\0\x10\0\x01\0\x13\0\0\0\x11\0\x01\0\
    \x01\0\0\0\x05*\xb4\0\x07\xac\0\0\0\0\0\x02\0\x0f\0\x10\0\x01\0\x13\0\0\0\x0e\0\x01\0\x01\0\0\0\x02\x05\xac\0\
    \0\0\0\0\x08\0\x15\0\x16\0\x01\0\x13\0\0\0\x12\0\x01\0\x01\0\0\0\x06*\xb7\0\x0dW\xb1\0\0\0\0\0\0";

const BAD: &[u8] = b"\
    \xca\xfe\xba\xbe\0\0\04\0\x0a\x0a\0\x02\0\x03\x07\0\x04\x0c\0\x05\0\x06\x01\0\x1ajava/lang/RuntimeException\
    \x01\0\x06<init>\x01\0\x03()V\x07\0\x08\x01\0\x03Bad\x01\0\x04Code\0\x20\0\x07\0\x02\0\0\0\0\0\x01\0\0\0\x05\0\
    \x06\0\x01\0\x09\0\0\0\x11\0\x01\0\x01\0\0\0\x05*\xb7\0\x01\xb1\0\0\0\0\0\0";

const FILES: [&[u8]; 4] = [MAIN, SHAPE, CELL, BAD];

/// Each entry shows its failure alone.
fn fails(
    alloc: Global,
    rt: &impl Abort,
    files: &[&[u8]],
    rows: &[(&str, &str)],
) -> Result<(), Stop> {
    for (entry, line) in rows {
        let found = entry_lines(alloc, CONFIG, entry, files)?;
        assert_eq!(rt; found.as_slice(), line.as_bytes());
    }
    Ok(())
}

/// Null comes before an index.
const NULLS: [(&str, &str); 9] = [
    ("load_null\n", "main fail Null Main.load_null()V 4\n"),
    ("store_null\n", "main fail Null Main.store_null()V 11\n"),
    ("length_null\n", "main fail Null Main.length_null()V 3\n"),
    ("get_null\n", "main fail Null Main.get_null()V 3\n"),
    ("put_null\n", "main fail Null Main.put_null()V 4\n"),
    ("call_null\n", "main fail Null Main.call_null()V 3\n"),
    ("face_null\n", "main fail Null Main.face_null()V 3\n"),
    ("special_null\n", "main fail Null Cell.special(LCell;)V 1\n"),
    ("throw_null\n", "main fail Null Main.throw_null()V 3\n"),
];

#[test]
fn null_fails(rt: HostRuntime) -> Result<(), Fail> {
    fails(rt.alloc(), &rt, &FILES, &NULLS)?;
    Ok(())
}

/// An index comes before what may be stored.
const INDICES: [(&str, &str); 5] = [
    ("load_below\n", "main fail Bounds Main.load_below()V 6\n"),
    ("load_end\n", "main fail Bounds Main.load_end()V 6\n"),
    ("store_end\n", "main fail Bounds Main.store_end()V 7\n"),
    ("store_none\n", "main fail Bounds Main.store_none()V 9\n"),
    (
        "store_outside\n",
        "main fail Bounds Main.store_outside()V 14\n",
    ),
];

#[test]
fn indices_outside_fail(rt: HostRuntime) -> Result<(), Fail> {
    fails(rt.alloc(), &rt, &FILES, &INDICES)?;
    Ok(())
}

const STORES: [(&str, &str); 2] = [
    (
        "store_object\n",
        "main fail Store Main.store_object()V 14\n",
    ),
    ("store_array\n", "main fail Store Main.store_array()V 10\n"),
];

#[test]
fn stores_of_other_classes_fail(rt: HostRuntime) -> Result<(), Fail> {
    fails(rt.alloc(), &rt, &FILES, &STORES)?;
    Ok(())
}

const DIVISIONS: [(&str, &str); 4] = [
    ("divide\n", "main fail DivZero Main.divide()V 4\n"),
    ("remainder\n", "main fail DivZero Main.remainder()V 4\n"),
    ("wide_divide\n", "main fail DivZero Main.wide_divide()V 4\n"),
    (
        "wide_remainder\n",
        "main fail DivZero Main.wide_remainder()V 4\n",
    ),
];

#[test]
fn divisions_by_zero_fail(rt: HostRuntime) -> Result<(), Fail> {
    fails(rt.alloc(), &rt, &FILES, &DIVISIONS)?;
    Ok(())
}

const SIZES: [(&str, &str); 2] = [
    ("negative\n", "main fail NegativeSize Main.negative()V 1\n"),
    (
        "negative_refs\n",
        "main fail NegativeSize Main.negative_refs()V 2\n",
    ),
];

#[test]
fn negative_sizes_fail(rt: HostRuntime) -> Result<(), Fail> {
    fails(rt.alloc(), &rt, &FILES, &SIZES)?;
    Ok(())
}

const THROWS: [(&str, &str); 2] = [
    ("throw_own\n", "main fail Thrown Main.throw_own()V 7\n"),
    (
        "throw_built_in\n",
        "main fail Thrown Main.throw_built_in()V 7\n",
    ),
];

#[test]
fn throws_fail(rt: HostRuntime) -> Result<(), Fail> {
    fails(rt.alloc(), &rt, &FILES, &THROWS)?;
    Ok(())
}

/// What javac 17 with `--release 8 -g:none` wrote of this, each checkcast of `Main` replaced by three nops:
///
///     interface Face { int sides(); }
///     class Tile implements Face { public int sides() { return 4; } }
///     class Main {
///         static void wrong() { Object o = new Object(); ((Face) o).sides(); }
///         static void array() { Object o = new int[1]; ((Face) o).sides(); }
///         static void none() { Object o = null; ((Face) o).sides(); }
///         static void right() { Object o = new Tile(); ((Face) o).sides(); }
///     }
const FACES: &[u8] = b"\
    \xca\xfe\xba\xbe\0\0\04\0\x17\x0a\0\x02\0\x03\x07\0\x04\x0c\0\x05\0\x06\x01\0\x10java/lang/Object\x01\0\x06<in\
    it>\x01\0\x03()V\x07\0\x08\x01\0\x04Face\x0b\0\x07\0\x0a\x0c\0\x0b\0\x0c\x01\0\x05sides\x01\0\x03()I\x07\0\x0e\
    \x01\0\x04Tile\x0a\0\x0d\0\x03\x07\0\x11\x01\0\x04Main\x01\0\x04Code\x01\0\x05wrong\x01\0\x05array\x01\0\x04no\
    ne\x01\0\x05right\0\x20\0\x10\0\x02\0\0\0\0\0\x05\0\0\0\x05\0\x06\0\x01\0\x12\0\0\0\x11\0\x01\0\x01\0\0\0\x05*\
    \xb7\0\x01\xb1\0\0\0\0\0\x08\0\x13\0\x06\0\x01\0\x12\0\0\0\x1f\0\x02\0\x01\0\0\0\x13\xbb\0\x02Y\xb7\0\x01K*\0\
    \0\0\xb9\0\x09\x01\0W\xb1\0\0\0\0\0\x08\0\x14\0\x06\0\x01\0\x12\0\0\0\x1b\0\x01\0\x01\0\0\0\x0f\x04\xbc\x0aK*\
    \0\0\0\xb9\0\x09\x01\0W\xb1\0\0\0\0\0\x08\0\x15\0\x06\0\x01\0\x12\0\0\0\x19\0\x01\0\x01\0\0\0\x0d\x01K*\0\0\0\
    \xb9\0\x09\x01\0W\xb1\0\0\0\0\0\x08\0\x16\0\x06\0\x01\0\x12\0\0\0\x1f\0\x02\0\x01\0\0\0\x13\xbb\0\x0dY\xb7\0\
    \x0fK*\0\0\0\xb9\0\x09\x01\0W\xb1\0\0\0\0\0\0";

const FACE: &[u8] = b"\
    \xca\xfe\xba\xbe\0\0\04\0\x07\x07\0\x02\x01\0\x04Face\x07\0\x04\x01\0\x10java/lang/Object\x01\0\x05sides\x01\0\
    \x03()I\x06\0\0\x01\0\x03\0\0\0\0\0\x01\x04\x01\0\x05\0\x06\0\0\0\0";

const TILE: &[u8] = b"\
    \xca\xfe\xba\xbe\0\0\04\0\x0e\x0a\0\x02\0\x03\x07\0\x04\x0c\0\x05\0\x06\x01\0\x10java/lang/Object\x01\0\x06<in\
    it>\x01\0\x03()V\x07\0\x08\x01\0\x04Tile\x07\0\x0a\x01\0\x04Face\x01\0\x04Code\x01\0\x05sides\x01\0\x03()I\0\
    \x20\0\x07\0\x02\0\x01\0\x09\0\0\0\x02\0\0\0\x05\0\x06\0\x01\0\x0b\0\0\0\x11\0\x01\0\x01\0\0\0\x05*\xb7\0\x01\
    \xb1\0\0\0\0\0\x01\0\x0c\0\x0d\0\x01\0\x0b\0\0\0\x0e\0\x01\0\x01\0\0\0\x02\x07\xac\0\0\0\0\0\0";

const FACE_FILES: [&[u8]; 3] = [FACES, FACE, TILE];

/// Null comes first here, too.
const FACE_LINES: [(&str, &str); 4] = [
    ("wrong\n", "main fail Interface Main.wrong()V 12\n"),
    ("array\n", "main fail Interface Main.array()V 8\n"),
    ("none\n", "main fail Null Main.none()V 6\n"),
    ("right\n", "main TerminateTask 0\n"),
];

#[test]
fn calls_of_another_interface_fail(rt: HostRuntime) -> Result<(), Fail> {
    fails(rt.alloc(), &rt, &FACE_FILES, &FACE_LINES)?;
    Ok(())
}
