//! What int and long operations answer at their ends.

use run_lines::entry_lines;
use std::test::Fail;

const CONFIG: &str = "keso 1 order little
domain app heap 0
counter c max 9 base 1 min 1
task idle domain app prio 0 acts 1 auto no sched full entry Main.idle
alarm al counter c activate idle
start al at 9 cycle 0
native Main.show(II)I SetRelAlarm al
task main domain app prio 1 acts 1 auto yes sched full entry Main.";

/// What javac 17 with `--release 8 -g:none` wrote of
///
///     class Main {
///         static native int show(int a, int b);
///         static void idle() { }
///         static void wide(long l) { show((int) (l >>> 32), (int) l); }
///
///         static void ints() {
///             int max = 2147483647, min = -2147483648, minus = -1, seven = -7, two = 2;
///             show(max + 1, min - 1);
///             show(max * two, min * minus);
///             show(-min, min / minus);
///             show(min % minus, seven / two);
///             show(seven % two, -seven % -two);
///             max++;
///             show(max, max & minus ^ 1 | 6);
///         }
///
///         static void longs() {
///             long max = 9223372036854775807L, min = -9223372036854775808L, minus = -1, seven = -7, two = 2;
///             wide(max + 1);
///             wide(min - 1);
///             wide(max * two);
///             wide(min / minus);
///             wide(min % minus);
///             wide(-min);
///             wide(seven / two);
///             wide(seven % two);
///             wide(max & minus ^ 1 | 6);
///             show(max > min ? 1 : 2, max < min ? 1 : 2);
///             show(min == -max - 1 ? 1 : 2, min < max ? 1 : 2);
///         }
///
///         static void shifts() {
///             int one = 1, minus = -1, min = -2147483648, n = 33, m = 65;
///             show(one << n, minus >>> n);
///             show(min >> n, one << m);
///             show(one << minus, minus >>> minus);
///             show(min >> minus, min >> n - 1);
///         }
///
///         static void wide_shifts() {
///             long one = 1, minus = -1, min = -9223372036854775808L;
///             int n = 33, m = 65, back = -1;
///             wide(one << m);
///             wide(one << n);
///             wide(minus >>> m);
///             wide(min >> m);
///             wide(one << back);
///             wide(min >> back);
///         }
///
///         static void narrow() {
///             int v = -32384, w = 300, x = 98304, minus = -1;
///             long big = 6442450943L;
///             show((byte) v, (short) v);
///             show((char) v, (byte) w);
///             show((short) x, (char) x);
///             show((int) big, (int) (big + 1));
///             wide(minus);
///         }
///     }
const MAIN: &[u8] = b"\
    \xca\xfe\xba\xbe\0\0\04\0*\x0a\0\x02\0\x03\x07\0\x04\x0c\0\x05\0\x06\x01\0\x10java/lang/Object\x01\0\x06<init>\
    \x01\0\x03()V\x0a\0\x08\0\x09\x07\0\x0a\x0c\0\x0b\0\x0c\x01\0\x04Main\x01\0\x04show\x01\0\x05(II)I\x03\x7f\xff\
    \xff\xff\x03\x80\0\0\0\x05\x7f\xff\xff\xff\xff\xff\xff\xff\x05\x80\0\0\0\0\0\0\0\x05\xff\xff\xff\xff\xff\xff\
    \xff\xff\x05\xff\xff\xff\xff\xff\xff\xff\xf9\x05\0\0\0\0\0\0\0\x02\x0a\0\x08\0\x1a\x0c\0\x1b\0\x1c\x01\0\x04wi\
    de\x01\0\x04(J)V\x05\0\0\0\0\0\0\0\x06\x03\0\x01\x80\0\x05\0\0\0\x01\x7f\xff\xff\xff\x01\0\x04Code\x01\0\x04id\
    le\x01\0\x04ints\x01\0\x05longs\x01\0\x0dStackMapTable\x01\0\x06shifts\x01\0\x0bwide_shifts\x01\0\x06narrow\0\
    \x20\0\x08\0\x02\0\0\0\0\0\x09\0\0\0\x05\0\x06\0\x01\0\"\0\0\0\x11\0\x01\0\x01\0\0\0\x05*\xb7\0\x01\xb1\0\0\0\
    \0\x01\x08\0\x0b\0\x0c\0\0\0\x08\0#\0\x06\0\x01\0\"\0\0\0\x0d\0\0\0\0\0\0\0\x01\xb1\0\0\0\0\0\x08\0\x1b\0\x1c\
    \0\x01\0\"\0\0\0\x18\0\x03\0\x02\0\0\0\x0c\x1e\x10\x20}\x88\x1e\x88\xb8\0\x07W\xb1\0\0\0\0\0\x08\0$\0\x06\0\
    \x01\0\"\0\0\0b\0\x03\0\x05\0\0\0V\x12\x0d;\x12\x0e<\x02=\x10\xf9>\x056\x04\x1a\x04`\x1b\x04d\xb8\0\x07W\x1a\
    \x15\x04h\x1b\x1ch\xb8\0\x07W\x1bt\x1b\x1cl\xb8\0\x07W\x1b\x1cp\x1d\x15\x04l\xb8\0\x07W\x1d\x15\x04p\x1dt\x15\
    \x04tp\xb8\0\x07W\x84\0\x01\x1a\x1a\x1c~\x04\x82\x10\x06\x80\xb8\0\x07W\xb1\0\0\0\0\0\x08\0%\0\x06\0\x01\0\"\0\
    \0\0\xd7\0\x06\0\x0a\0\0\0\x92\x14\0\x0f?\x14\0\x11A\x14\0\x137\x04\x14\0\x157\x06\x14\0\x177\x08\x1e\x0aa\xb8\
    \0\x19\x20\x0ae\xb8\0\x19\x1e\x16\x08i\xb8\0\x19\x20\x16\x04m\xb8\0\x19\x20\x16\x04q\xb8\0\x19\x20u\xb8\0\x19\
    \x16\x06\x16\x08m\xb8\0\x19\x16\x06\x16\x08q\xb8\0\x19\x1e\x16\x04\x7f\x0a\x83\x14\0\x1d\x81\xb8\0\x19\x1e\x20\
    \x94\x9e\0\x07\x04\xa7\0\x04\x05\x1e\x20\x94\x9c\0\x07\x04\xa7\0\x04\x05\xb8\0\x07W\x20\x1eu\x0ae\x94\x9a\0\
    \x07\x04\xa7\0\x04\x05\x20\x1e\x94\x9c\0\x07\x04\xa7\0\x04\x05\xb8\0\x07W\xb1\0\0\0\x01\0&\0\0\03\0\x08\xff\0d\
    \0\x05\x04\x04\x04\x04\x04\0\0@\x01I\x01\xff\0\0\0\x05\x04\x04\x04\x04\x04\0\x02\x01\x01\x10@\x01I\x01\xff\0\0\
    \0\x05\x04\x04\x04\x04\x04\0\x02\x01\x01\0\x08\0'\0\x06\0\x01\0\"\0\0\0F\0\x04\0\x05\0\0\0:\x04;\x02<\x12\x0e=\
    \x10!>\x10A6\x04\x1a\x1dx\x1b\x1d|\xb8\0\x07W\x1c\x1dz\x1a\x15\x04x\xb8\0\x07W\x1a\x1bx\x1b\x1b|\xb8\0\x07W\
    \x1c\x1bz\x1c\x1d\x04dz\xb8\0\x07W\xb1\0\0\0\0\0\x08\0(\0\x06\0\x01\0\"\0\0\0O\0\x03\0\x09\0\0\0C\x0a?\x14\0\
    \x13A\x14\0\x117\x04\x10!6\x06\x10A6\x07\x026\x08\x1e\x15\x07y\xb8\0\x19\x1e\x15\x06y\xb8\0\x19\x20\x15\x07}\
    \xb8\0\x19\x16\x04\x15\x07{\xb8\0\x19\x1e\x15\x08y\xb8\0\x19\x16\x04\x15\x08{\xb8\0\x19\xb1\0\0\0\0\0\x08\0)\0\
    \x06\0\x01\0\"\0\0\0H\0\x05\0\x06\0\0\0<\x11\x81\x80;\x11\x01,<\x12\x1f=\x02>\x14\0\x207\x04\x1a\x91\x1a\x93\
    \xb8\0\x07W\x1a\x92\x1b\x91\xb8\0\x07W\x1c\x93\x1c\x92\xb8\0\x07W\x16\x04\x88\x16\x04\x0aa\x88\xb8\0\x07W\x1d\
    \x85\xb8\0\x19\xb1\0\0\0\0\0\0";

const INTS: &str = "main SetRelAlarm al -2147483648 2147483647 7
main SetRelAlarm al -2 -2147483648 7
main SetRelAlarm al -2147483648 -2147483648 7
main SetRelAlarm al 0 -3 7
main SetRelAlarm al -1 1 7
main SetRelAlarm al -2147483648 -2147483641 7
main TerminateTask 0
";

#[test]
fn ints_wrap(rt: HostRuntime) -> Result<(), Fail> {
    let found = entry_lines(rt.alloc(), CONFIG, "ints\n", &[MAIN])?;
    assert_eq!(rt; found.as_slice(), INTS.as_bytes());
    Ok(())
}

/// Each long is shown as its upper and its lower half.
const LONGS: &str = "main SetRelAlarm al -2147483648 0 7
main SetRelAlarm al 2147483647 -1 7
main SetRelAlarm al -1 -2 7
main SetRelAlarm al -2147483648 0 7
main SetRelAlarm al 0 0 7
main SetRelAlarm al -2147483648 0 7
main SetRelAlarm al -1 -3 7
main SetRelAlarm al -1 -1 7
main SetRelAlarm al 2147483647 -2 7
main SetRelAlarm al 1 2 7
main SetRelAlarm al 1 1 7
main TerminateTask 0
";

#[test]
fn longs_wrap(rt: HostRuntime) -> Result<(), Fail> {
    let found = entry_lines(rt.alloc(), CONFIG, "longs\n", &[MAIN])?;
    assert_eq!(rt; found.as_slice(), LONGS.as_bytes());
    Ok(())
}

const SHIFTS: &str = "main SetRelAlarm al 2 2147483647 7
main SetRelAlarm al -1073741824 2 7
main SetRelAlarm al -2147483648 1 7
main SetRelAlarm al -1 -2147483648 7
main TerminateTask 0
";

#[test]
fn int_shifts_take_five_bits(rt: HostRuntime) -> Result<(), Fail> {
    let found = entry_lines(rt.alloc(), CONFIG, "shifts\n", &[MAIN])?;
    assert_eq!(rt; found.as_slice(), SHIFTS.as_bytes());
    Ok(())
}

const WIDE_SHIFTS: &str = "main SetRelAlarm al 0 2 7
main SetRelAlarm al 2 0 7
main SetRelAlarm al 2147483647 -1 7
main SetRelAlarm al -1073741824 0 7
main SetRelAlarm al -2147483648 0 7
main SetRelAlarm al -1 -1 7
main TerminateTask 0
";

#[test]
fn long_shifts_take_six_bits(rt: HostRuntime) -> Result<(), Fail> {
    let found = entry_lines(rt.alloc(), CONFIG, "wide_shifts\n", &[MAIN])?;
    assert_eq!(rt; found.as_slice(), WIDE_SHIFTS.as_bytes());
    Ok(())
}

const NARROW: &str = "main SetRelAlarm al -128 -32384 7
main SetRelAlarm al 33152 44 7
main SetRelAlarm al -32768 32768 7
main SetRelAlarm al 2147483647 -2147483648 7
main SetRelAlarm al -1 -1 7
main TerminateTask 0
";

#[test]
fn ints_are_narrowed(rt: HostRuntime) -> Result<(), Fail> {
    let found = entry_lines(rt.alloc(), CONFIG, "narrow\n", &[MAIN])?;
    assert_eq!(rt; found.as_slice(), NARROW.as_bytes());
    Ok(())
}
