//! Casts and instanceof over classes, interfaces and arrays.

use run_lines::entry_lines;
use std::test::Fail;

const CONFIG: &str = "keso 1 order little
domain app heap 72
counter c max 9 base 1 min 1
task idle domain app prio 0 acts 1 auto no sched full entry Main.idle
alarm al counter c activate idle
start al at 9 cycle 0
native Main.show(II)I SetRelAlarm al
task main domain app prio 1 acts 1 auto yes sched full entry Main.";

/// What javac 17 with `--release 8 -g:none` wrote of
///
///     interface Shape { }
///     class Base implements Shape { }
///     class Left extends Base { }
///     class Right extends Base { }
///     class Main {
///         static native int show(int a, int b);
///         static void idle() { }
///
///         static int bits(Object o) {
///             return (o instanceof Shape ? 1 : 0) + (o instanceof Base ? 2 : 0) + (o instanceof Left ? 4 : 0)
///                 + (o instanceof Shape[] ? 8 : 0) + (o instanceof Base[] ? 16 : 0) + (o instanceof Object[] ? 32 : 0)
///                 + (o instanceof int[] ? 64 : 0) + (o instanceof int[][] ? 128 : 0);
///         }
///
///         static void instances() {
///             show(bits(null), bits(new Object()));
///             show(bits(new Base()), bits(new Left()));
///             show(bits(new Right()), bits(new Left[0]));
///             show(bits(new Shape[0]), bits(new int[0]));
///             show(bits(new int[0][]), bits(new Base[0][]));
///         }
///
///         static void casts() {
///             Object o = new Left(), a = new Left[1], i = new int[0][], none = null;
///             Base b = (Base) o;
///             Shape s = (Shape) o;
///             Base[] bs = (Base[]) a;
///             Shape[] ss = (Shape[]) a;
///             Object[] os = (Object[]) i;
///             Right r = (Right) none;
///             int[] n = (int[]) none;
///             bs[0] = b;
///             show(s == ss[0] ? 1 : 2, r == null ? 1 : 2);
///         }
///
///         static void sideways() { Object o = new Left(); Right r = (Right) o; }
///         static void down() { Object o = new Base(); Left l = (Left) o; }
///         static void face() { Object o = new int[1]; Shape s = (Shape) o; }
///         static void items() { Object o = new Base[0]; Left[] l = (Left[]) o; }
///         static void numbers() { Object o = new int[0]; long[] l = (long[]) o; }
///         static void refs() { Object o = new int[0]; Object[] l = (Object[]) o; }
///     }
const MAIN: &[u8] = b"\
    \xca\xfe\xba\xbe\0\0\04\05\x0a\0\x02\0\x03\x07\0\x04\x0c\0\x05\0\x06\x01\0\x10java/lang/Object\x01\0\x06<init>\
    \x01\0\x03()V\x07\0\x08\x01\0\x05Shape\x07\0\x0a\x01\0\x04Base\x07\0\x0c\x01\0\x04Left\x07\0\x0e\x01\0\x08[LSh\
    ape;\x07\0\x10\x01\0\x07[LBase;\x07\0\x12\x01\0\x13[Ljava/lang/Object;\x07\0\x14\x01\0\x02[I\x07\0\x16\x01\0\
    \x03[[I\x0a\0\x18\0\x19\x07\0\x1a\x0c\0\x1b\0\x1c\x01\0\x04Main\x01\0\x04bits\x01\0\x15(Ljava/lang/Object;)I\
    \x0a\0\x18\0\x1e\x0c\0\x1f\0\x20\x01\0\x04show\x01\0\x05(II)I\x0a\0\x09\0\x03\x0a\0\x0b\0\x03\x07\0$\x01\0\x05\
    Right\x0a\0#\0\x03\x07\0'\x01\0\x07[LLeft;\x07\0)\x01\0\x02[J\x01\0\x04Code\x01\0\x04idle\x01\0\x0dStackMapTab\
    le\x01\0\x09instances\x01\0\x05casts\x01\0\x08sideways\x01\0\x04down\x01\0\x04face\x01\0\x05items\x01\0\x07num\
    bers\x01\0\x04refs\0\x20\0\x18\0\x02\0\0\0\0\0\x0c\0\0\0\x05\0\x06\0\x01\0*\0\0\0\x11\0\x01\0\x01\0\0\0\x05*\
    \xb7\0\x01\xb1\0\0\0\0\x01\x08\0\x1f\0\x20\0\0\0\x08\0+\0\x06\0\x01\0*\0\0\0\x0d\0\0\0\0\0\0\0\x01\xb1\0\0\0\0\
    \0\x08\0\x1b\0\x1c\0\x01\0*\0\0\0\xe7\0\x02\0\x01\0\0\0n*\xc1\0\x07\x99\0\x07\x04\xa7\0\x04\x03*\xc1\0\x09\x99\
    \0\x07\x05\xa7\0\x04\x03`*\xc1\0\x0b\x99\0\x07\x07\xa7\0\x04\x03`*\xc1\0\x0d\x99\0\x08\x10\x08\xa7\0\x04\x03`*\
    \xc1\0\x0f\x99\0\x08\x10\x10\xa7\0\x04\x03`*\xc1\0\x11\x99\0\x08\x10\x20\xa7\0\x04\x03`*\xc1\0\x13\x99\0\x08\
    \x10@\xa7\0\x04\x03`*\xc1\0\x15\x99\0\x09\x11\0\x80\xa7\0\x04\x03`\xac\0\0\0\x01\0,\0\0\0g\0\x10\x0b@\x01J\x01\
    \xff\0\0\0\x01\x07\0\x02\0\x02\x01\x01K\x01\xff\0\0\0\x01\x07\0\x02\0\x02\x01\x01L\x01\xff\0\0\0\x01\x07\0\x02\
    \0\x02\x01\x01L\x01\xff\0\0\0\x01\x07\0\x02\0\x02\x01\x01L\x01\xff\0\0\0\x01\x07\0\x02\0\x02\x01\x01L\x01\xff\
    \0\0\0\x01\x07\0\x02\0\x02\x01\x01M\x01\xff\0\0\0\x01\x07\0\x02\0\x02\x01\x01\0\x08\0-\0\x06\0\x01\0*\0\0\0o\0\
    \x03\0\0\0\0\0c\x01\xb8\0\x17\xbb\0\x02Y\xb7\0\x01\xb8\0\x17\xb8\0\x1dW\xbb\0\x09Y\xb7\0!\xb8\0\x17\xbb\0\x0bY\
    \xb7\0\"\xb8\0\x17\xb8\0\x1dW\xbb\0#Y\xb7\0%\xb8\0\x17\x03\xbd\0\x0b\xb8\0\x17\xb8\0\x1dW\x03\xbd\0\x07\xb8\0\
    \x17\x03\xbc\x0a\xb8\0\x17\xb8\0\x1dW\x03\xbd\0\x13\xb8\0\x17\x03\xbd\0\x0f\xb8\0\x17\xb8\0\x1dW\xb1\0\0\0\0\0\
    \x08\0.\0\x06\0\x01\0*\0\0\0\xcb\0\x03\0\x0b\0\0\0a\xbb\0\x0bY\xb7\0\"K\x04\xbd\0\x0bL\x03\xbd\0\x13M\x01N*\
    \xc0\0\x09:\x04*\xc0\0\x07:\x05+\xc0\0\x0f:\x06+\xc0\0\x0d:\x07,\xc0\0\x11:\x08-\xc0\0#:\x09-\xc0\0\x13:\x0a\
    \x19\x06\x03\x19\x04S\x19\x05\x19\x07\x032\xa6\0\x07\x04\xa7\0\x04\x05\x19\x09\xc7\0\x07\x04\xa7\0\x04\x05\xb8\
    \0\x1dW\xb1\0\0\0\x01\0,\0\0\0X\0\x04\xff\0Q\0\x0b\x07\0\x02\x07\0\x02\x07\0\x02\x07\0\x02\x07\0\x09\x07\0\x07\
    \x07\0\x0f\x07\0\x0d\x07\0\x11\x07\0#\x07\0\x13\0\0@\x01H\x01\xff\0\0\0\x0b\x07\0\x02\x07\0\x02\x07\0\x02\x07\
    \0\x02\x07\0\x09\x07\0\x07\x07\0\x0f\x07\0\x0d\x07\0\x11\x07\0#\x07\0\x13\0\x02\x01\x01\0\x08\0/\0\x06\0\x01\0\
    *\0\0\0\x1a\0\x02\0\x02\0\0\0\x0e\xbb\0\x0bY\xb7\0\"K*\xc0\0#L\xb1\0\0\0\0\0\x08\00\0\x06\0\x01\0*\0\0\0\x1a\0\
    \x02\0\x02\0\0\0\x0e\xbb\0\x09Y\xb7\0!K*\xc0\0\x0bL\xb1\0\0\0\0\0\x08\01\0\x06\0\x01\0*\0\0\0\x16\0\x01\0\x02\
    \0\0\0\x0a\x04\xbc\x0aK*\xc0\0\x07L\xb1\0\0\0\0\0\x08\02\0\x06\0\x01\0*\0\0\0\x17\0\x01\0\x02\0\0\0\x0b\x03\
    \xbd\0\x09K*\xc0\0&L\xb1\0\0\0\0\0\x08\03\0\x06\0\x01\0*\0\0\0\x16\0\x01\0\x02\0\0\0\x0a\x03\xbc\x0aK*\xc0\0(L\
    \xb1\0\0\0\0\0\x08\04\0\x06\0\x01\0*\0\0\0\x16\0\x01\0\x02\0\0\0\x0a\x03\xbc\x0aK*\xc0\0\x11L\xb1\0\0\0\0\0\0";

const SHAPE: &[u8] = b"\
    \xca\xfe\xba\xbe\0\0\04\0\x05\x07\0\x02\x01\0\x05Shape\x07\0\x04\x01\0\x10java/lang/Object\x06\0\0\x01\0\x03\0\
    \0\0\0\0\0\0\0";

const BASE: &[u8] = b"\
    \xca\xfe\xba\xbe\0\0\04\0\x0c\x0a\0\x02\0\x03\x07\0\x04\x0c\0\x05\0\x06\x01\0\x10java/lang/Object\x01\0\x06<in\
    it>\x01\0\x03()V\x07\0\x08\x01\0\x04Base\x07\0\x0a\x01\0\x05Shape\x01\0\x04Code\0\x20\0\x07\0\x02\0\x01\0\x09\
    \0\0\0\x01\0\0\0\x05\0\x06\0\x01\0\x0b\0\0\0\x11\0\x01\0\x01\0\0\0\x05*\xb7\0\x01\xb1\0\0\0\0\0\0";

const LEFT: &[u8] = b"\
    \xca\xfe\xba\xbe\0\0\04\0\x0a\x0a\0\x02\0\x03\x07\0\x04\x0c\0\x05\0\x06\x01\0\x04Base\x01\0\x06<init>\x01\0\
    \x03()V\x07\0\x08\x01\0\x04Left\x01\0\x04Code\0\x20\0\x07\0\x02\0\0\0\0\0\x01\0\0\0\x05\0\x06\0\x01\0\x09\0\0\
    \0\x11\0\x01\0\x01\0\0\0\x05*\xb7\0\x01\xb1\0\0\0\0\0\0";

const RIGHT: &[u8] = b"\
    \xca\xfe\xba\xbe\0\0\04\0\x0a\x0a\0\x02\0\x03\x07\0\x04\x0c\0\x05\0\x06\x01\0\x04Base\x01\0\x06<init>\x01\0\
    \x03()V\x07\0\x08\x01\0\x05Right\x01\0\x04Code\0\x20\0\x07\0\x02\0\0\0\0\0\x01\0\0\0\x05\0\x06\0\x01\0\x09\0\0\
    \0\x11\0\x01\0\x01\0\0\0\x05*\xb7\0\x01\xb1\0\0\0\0\0\0";

const FILES: [&[u8]; 5] = [MAIN, SHAPE, BASE, LEFT, RIGHT];

const INSTANCES: &str = "main SetRelAlarm al 0 0 7
main SetRelAlarm al 3 7 7
main SetRelAlarm al 3 56 7
main SetRelAlarm al 40 64 7
main SetRelAlarm al 160 32 7
main TerminateTask 0
";

#[test]
fn instances_are_told(rt: HostRuntime) -> Result<(), Fail> {
    let found = entry_lines(rt.alloc(), CONFIG, "instances\n", &FILES)?;
    assert_eq!(rt; found.as_slice(), INSTANCES.as_bytes());
    Ok(())
}

#[test]
fn casts_to_what_it_is_pass(rt: HostRuntime) -> Result<(), Fail> {
    let found = entry_lines(rt.alloc(), CONFIG, "casts\n", &FILES)?;
    assert_eq!(rt;
        found.as_slice(),
        b"main SetRelAlarm al 1 1 7\nmain TerminateTask 0\n".as_slice()
    );
    Ok(())
}

/// Entries whose last instruction but two is a cast that fails, and its place.
const FAILING: [(&str, &str); 6] = [
    ("sideways\n", "main fail Cast Main.sideways()V 9\n"),
    ("down\n", "main fail Cast Main.down()V 9\n"),
    ("face\n", "main fail Cast Main.face()V 5\n"),
    ("items\n", "main fail Cast Main.items()V 6\n"),
    ("numbers\n", "main fail Cast Main.numbers()V 5\n"),
    ("refs\n", "main fail Cast Main.refs()V 5\n"),
];

#[test]
fn casts_to_what_it_is_not_fail(rt: HostRuntime) -> Result<(), Fail> {
    for (entry, line) in FAILING {
        let found = entry_lines(rt.alloc(), CONFIG, entry, &FILES)?;
        assert_eq!(rt; found.as_slice(), line.as_bytes());
    }
    Ok(())
}
