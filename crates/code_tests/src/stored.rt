//! What stores of numbers and booleans keep, in statics, fields and items.

use run_lines::entry_lines;
use std::test::Fail;

const CONFIG: &str = "keso 1 order little
domain app heap 64
counter c max 9 base 1 min 1
task idle domain app prio 0 acts 1 auto no sched full entry Main.idle
alarm al counter c activate idle
start al at 9 cycle 0
native Main.show(II)I SetRelAlarm al
task main domain app prio 1 acts 1 auto yes sched full entry Main.";

/// What javac 17 with `--release 8 -g:none` wrote of
///
///     class Cell { byte b; short s; char c; boolean z; int i; long l; Cell next; }
///     class Main {
///         static native int show(int a, int b);
///         static void idle() { }
///         static byte b; static short s; static char c; static boolean z; static int i; static long l; static Cell next;
///
///         static void statics() {
///             int v = -32384;
///             show(b + s + c + i, (int) l);
///             show(z ? 1 : 2, next == null ? 1 : 2);
///             b = (byte) v; s = (short) v; c = (char) v; z = true; i = v; l = v; next = new Cell();
///             show(b, s);
///             show(c, z ? 1 : 2);
///             show(i, (int) (l >>> 32));
///             show((int) l, next == null ? 1 : 2);
///         }
///
///         static void fields() {
///             int v = -32384;
///             Cell k = new Cell();
///             show(k.b + k.s + k.c + k.i, (int) k.l);
///             show(k.z ? 1 : 2, k.next == null ? 1 : 2);
///             k.b = (byte) v; k.s = (short) v; k.c = (char) v; k.z = true; k.i = v; k.l = v; k.next = k;
///             show(k.b, k.s);
///             show(k.c, k.z ? 1 : 2);
///             show(k.i, (int) (k.l >>> 32));
///             show((int) k.l, k.next == k ? 1 : 2);
///         }
///     }
const MAIN: &[u8] = b"\
    \xca\xfe\xba\xbe\0\0\04\08\x0a\0\x02\0\x03\x07\0\x04\x0c\0\x05\0\x06\x01\0\x10java/lang/Object\x01\0\x06<init>\
    \x01\0\x03()V\x09\0\x08\0\x09\x07\0\x0a\x0c\0\x0b\0\x0c\x01\0\x04Main\x01\0\x01b\x01\0\x01B\x09\0\x08\0\x0e\
    \x0c\0\x0f\0\x10\x01\0\x01s\x01\0\x01S\x09\0\x08\0\x12\x0c\0\x13\0\x14\x01\0\x01c\x01\0\x01C\x09\0\x08\0\x16\
    \x0c\0\x17\0\x18\x01\0\x01i\x01\0\x01I\x09\0\x08\0\x1a\x0c\0\x1b\0\x1c\x01\0\x01l\x01\0\x01J\x0a\0\x08\0\x1e\
    \x0c\0\x1f\0\x20\x01\0\x04show\x01\0\x05(II)I\x09\0\x08\0\"\x0c\0#\0$\x01\0\x01z\x01\0\x01Z\x09\0\x08\0&\x0c\0\
    '\0(\x01\0\x04next\x01\0\x06LCell;\x07\0*\x01\0\x04Cell\x0a\0)\0\x03\x09\0)\0\x09\x09\0)\0\x0e\x09\0)\0\x12\
    \x09\0)\0\x16\x09\0)\0\x1a\x09\0)\0\"\x09\0)\0&\x01\0\x04Code\x01\0\x04idle\x01\0\x07statics\x01\0\x0dStackMap\
    Table\x01\0\x06fields\0\x20\0\x08\0\x02\0\0\0\x07\0\x08\0\x0b\0\x0c\0\0\0\x08\0\x0f\0\x10\0\0\0\x08\0\x13\0\
    \x14\0\0\0\x08\0#\0$\0\0\0\x08\0\x17\0\x18\0\0\0\x08\0\x1b\0\x1c\0\0\0\x08\0'\0(\0\0\0\x05\0\0\0\x05\0\x06\0\
    \x01\03\0\0\0\x11\0\x01\0\x01\0\0\0\x05*\xb7\0\x01\xb1\0\0\0\0\x01\x08\0\x1f\0\x20\0\0\0\x08\04\0\x06\0\x01\03\
    \0\0\0\x0d\0\0\0\0\0\0\0\x01\xb1\0\0\0\0\0\x08\05\0\x06\0\x01\03\0\0\0\xd9\0\x04\0\x01\0\0\0\x99\x11\x81\x80;\
    \xb2\0\x07\xb2\0\x0d`\xb2\0\x11`\xb2\0\x15`\xb2\0\x19\x88\xb8\0\x1dW\xb2\0!\x99\0\x07\x04\xa7\0\x04\x05\xb2\0%\
    \xc7\0\x07\x04\xa7\0\x04\x05\xb8\0\x1dW\x1a\x91\xb3\0\x07\x1a\x93\xb3\0\x0d\x1a\x92\xb3\0\x11\x04\xb3\0!\x1a\
    \xb3\0\x15\x1a\x85\xb3\0\x19\xbb\0)Y\xb7\0+\xb3\0%\xb2\0\x07\xb2\0\x0d\xb8\0\x1dW\xb2\0\x11\xb2\0!\x99\0\x07\
    \x04\xa7\0\x04\x05\xb8\0\x1dW\xb2\0\x15\xb2\0\x19\x10\x20}\x88\xb8\0\x1dW\xb2\0\x19\x88\xb2\0%\xc7\0\x07\x04\
    \xa7\0\x04\x05\xb8\0\x1dW\xb1\0\0\0\x01\06\0\0\0.\0\x08\xfc\0%\x01@\x01I\x01\xff\0\0\0\x01\x01\0\x02\x01\x01\
    \xf7\0@\x01\xff\0\0\0\x01\x01\0\x02\x01\x01_\x01\xff\0\0\0\x01\x01\0\x02\x01\x01\0\x08\07\0\x06\0\x01\03\0\0\0\
    \xfe\0\x04\0\x02\0\0\0\xb2\x11\x81\x80;\xbb\0)Y\xb7\0+L+\xb4\0,+\xb4\0-`+\xb4\0.`+\xb4\0/`+\xb4\00\x88\xb8\0\
    \x1dW+\xb4\01\x99\0\x07\x04\xa7\0\x04\x05+\xb4\02\xc7\0\x07\x04\xa7\0\x04\x05\xb8\0\x1dW+\x1a\x91\xb5\0,+\x1a\
    \x93\xb5\0-+\x1a\x92\xb5\0.+\x04\xb5\01+\x1a\xb5\0/+\x1a\x85\xb5\00++\xb5\02+\xb4\0,+\xb4\0-\xb8\0\x1dW+\xb4\0\
    .+\xb4\01\x99\0\x07\x04\xa7\0\x04\x05\xb8\0\x1dW+\xb4\0/+\xb4\00\x10\x20}\x88\xb8\0\x1dW+\xb4\00\x88+\xb4\02+\
    \xa6\0\x07\x04\xa7\0\x04\x05\xb8\0\x1dW\xb1\0\0\0\x01\06\0\0\0:\0\x08\xfd\03\x01\x07\0)@\x01J\x01\xff\0\0\0\
    \x02\x01\x07\0)\0\x02\x01\x01\xf7\0E\x01\xff\0\0\0\x02\x01\x07\0)\0\x02\x01\x01d\x01\xff\0\0\0\x02\x01\x07\0)\
    \0\x02\x01\x01\0\0";

const CELL: &[u8] = b"\
    \xca\xfe\xba\xbe\0\0\04\0\x18\x0a\0\x02\0\x03\x07\0\x04\x0c\0\x05\0\x06\x01\0\x10java/lang/Object\x01\0\x06<in\
    it>\x01\0\x03()V\x07\0\x08\x01\0\x04Cell\x01\0\x01b\x01\0\x01B\x01\0\x01s\x01\0\x01S\x01\0\x01c\x01\0\x01C\x01\
    \0\x01z\x01\0\x01Z\x01\0\x01i\x01\0\x01I\x01\0\x01l\x01\0\x01J\x01\0\x04next\x01\0\x06LCell;\x01\0\x04Code\0\
    \x20\0\x07\0\x02\0\0\0\x07\0\0\0\x09\0\x0a\0\0\0\0\0\x0b\0\x0c\0\0\0\0\0\x0d\0\x0e\0\0\0\0\0\x0f\0\x10\0\0\0\0\
    \0\x11\0\x12\0\0\0\0\0\x13\0\x14\0\0\0\0\0\x15\0\x16\0\0\0\x01\0\0\0\x05\0\x06\0\x01\0\x17\0\0\0\x11\0\x01\0\
    \x01\0\0\0\x05*\xb7\0\x01\xb1\0\0\0\0\0\0";

const KEPT: &str = "main SetRelAlarm al 0 0 7
main SetRelAlarm al 2 1 7
main SetRelAlarm al -128 -32384 7
main SetRelAlarm al 33152 1 7
main SetRelAlarm al -32384 -1 7
main SetRelAlarm al -32384 ";

#[test]
fn statics_start_at_zero_and_keep_what_is_stored(rt: HostRuntime) -> Result<(), Fail> {
    let found = entry_lines(rt.alloc(), CONFIG, "statics\n", &[MAIN, CELL])?;
    let wanted = format!(in rt.alloc(); "{KEPT}2 7\nmain TerminateTask 0\n")?;
    assert_eq!(rt; found.as_slice(), wanted.as_bytes());
    Ok(())
}

#[test]
fn fields_start_at_zero_and_keep_what_is_stored(rt: HostRuntime) -> Result<(), Fail> {
    let found = entry_lines(rt.alloc(), CONFIG, "fields\n", &[MAIN, CELL])?;
    let wanted = format!(in rt.alloc(); "{KEPT}1 7\nmain TerminateTask 0\n")?;
    assert_eq!(rt; found.as_slice(), wanted.as_bytes());
    Ok(())
}

/// What javac 17 with `--release 8 -g:none` wrote of this, each narrowing (i2b, i2s, i2c) of `Main` replaced by a nop:
///
///     class Pit { byte b; short s; char c; }
///     class Main {
///         static native int show(int a, int b);
///         static void idle() { }
///         static byte b; static short s; static char c;
///
///         static void statics() {
///             int v = -32384;
///             b = (byte) v; s = (short) (v * 3); c = (char) v;
///             show(b, s);
///             show(c, v);
///         }
///
///         static void fields() {
///             int v = -32384;
///             Pit p = new Pit();
///             p.b = (byte) v; p.s = (short) (v * 3); p.c = (char) v;
///             show(p.b, p.s);
///             show(p.c, v);
///         }
///
///         static void items() {
///             int v = -32384;
///             byte[] b = new byte[1]; short[] s = new short[1]; char[] c = new char[1];
///             b[0] = (byte) v; s[0] = (short) (v * 3); c[0] = (char) v;
///             show(b[0], s[0]);
///             show(c[0], v);
///         }
///     }
const RAW: &[u8] = b"\
    \xca\xfe\xba\xbe\0\0\04\0$\x0a\0\x02\0\x03\x07\0\x04\x0c\0\x05\0\x06\x01\0\x10java/lang/Object\x01\0\x06<init>\
    \x01\0\x03()V\x09\0\x08\0\x09\x07\0\x0a\x0c\0\x0b\0\x0c\x01\0\x04Main\x01\0\x01b\x01\0\x01B\x09\0\x08\0\x0e\
    \x0c\0\x0f\0\x10\x01\0\x01s\x01\0\x01S\x09\0\x08\0\x12\x0c\0\x13\0\x14\x01\0\x01c\x01\0\x01C\x0a\0\x08\0\x16\
    \x0c\0\x17\0\x18\x01\0\x04show\x01\0\x05(II)I\x07\0\x1a\x01\0\x03Pit\x0a\0\x19\0\x03\x09\0\x19\0\x09\x09\0\x19\
    \0\x0e\x09\0\x19\0\x12\x01\0\x04Code\x01\0\x04idle\x01\0\x07statics\x01\0\x06fields\x01\0\x05items\0\x20\0\x08\
    \0\x02\0\0\0\x03\0\x08\0\x0b\0\x0c\0\0\0\x08\0\x0f\0\x10\0\0\0\x08\0\x13\0\x14\0\0\0\x06\0\0\0\x05\0\x06\0\x01\
    \0\x1f\0\0\0\x11\0\x01\0\x01\0\0\0\x05*\xb7\0\x01\xb1\0\0\0\0\x01\x08\0\x17\0\x18\0\0\0\x08\0\x20\0\x06\0\x01\
    \0\x1f\0\0\0\x0d\0\0\0\0\0\0\0\x01\xb1\0\0\0\0\0\x08\0!\0\x06\0\x01\0\x1f\0\0\04\0\x02\0\x01\0\0\0(\x11\x81\
    \x80;\x1a\0\xb3\0\x07\x1a\x06h\0\xb3\0\x0d\x1a\0\xb3\0\x11\xb2\0\x07\xb2\0\x0d\xb8\0\x15W\xb2\0\x11\x1a\xb8\0\
    \x15W\xb1\0\0\0\0\0\x08\0\"\0\x06\0\x01\0\x1f\0\0\0B\0\x03\0\x02\0\0\06\x11\x81\x80;\xbb\0\x19Y\xb7\0\x1bL+\
    \x1a\0\xb5\0\x1c+\x1a\x06h\0\xb5\0\x1d+\x1a\0\xb5\0\x1e+\xb4\0\x1c+\xb4\0\x1d\xb8\0\x15W+\xb4\0\x1e\x1a\xb8\0\
    \x15W\xb1\0\0\0\0\0\x08\0#\0\x06\0\x01\0\x1f\0\0\0@\0\x04\0\x04\0\0\04\x11\x81\x80;\x04\xbc\x08L\x04\xbc\x09M\
    \x04\xbc\x05N+\x03\x1a\0T,\x03\x1a\x06h\0V-\x03\x1a\0U+\x033,\x035\xb8\0\x15W-\x034\x1a\xb8\0\x15W\xb1\0\0\0\0\
    \0\0";

const PIT: &[u8] = b"\
    \xca\xfe\xba\xbe\0\0\04\0\x10\x0a\0\x02\0\x03\x07\0\x04\x0c\0\x05\0\x06\x01\0\x10java/lang/Object\x01\0\x06<in\
    it>\x01\0\x03()V\x07\0\x08\x01\0\x03Pit\x01\0\x01b\x01\0\x01B\x01\0\x01s\x01\0\x01S\x01\0\x01c\x01\0\x01C\x01\
    \0\x04Code\0\x20\0\x07\0\x02\0\0\0\x03\0\0\0\x09\0\x0a\0\0\0\0\0\x0b\0\x0c\0\0\0\0\0\x0d\0\x0e\0\0\0\x01\0\0\0\
    \x05\0\x06\0\x01\0\x0f\0\0\0\x11\0\x01\0\x01\0\0\0\x05*\xb7\0\x01\xb1\0\0\0\0\0\0";

/// A store narrows the int by itself.
const NARROWED: &str = "main SetRelAlarm al -128 -31616 7
main SetRelAlarm al 33152 -32384 7
main TerminateTask 0
";

#[test]
fn stores_to_statics_narrow(rt: HostRuntime) -> Result<(), Fail> {
    let found = entry_lines(rt.alloc(), CONFIG, "statics\n", &[RAW, PIT])?;
    assert_eq!(rt; found.as_slice(), NARROWED.as_bytes());
    Ok(())
}

#[test]
fn stores_to_fields_narrow(rt: HostRuntime) -> Result<(), Fail> {
    let found = entry_lines(rt.alloc(), CONFIG, "fields\n", &[RAW, PIT])?;
    assert_eq!(rt; found.as_slice(), NARROWED.as_bytes());
    Ok(())
}

#[test]
fn stores_to_items_narrow(rt: HostRuntime) -> Result<(), Fail> {
    let found = entry_lines(rt.alloc(), CONFIG, "items\n", &[RAW, PIT])?;
    assert_eq!(rt; found.as_slice(), NARROWED.as_bytes());
    Ok(())
}

/// What javac 17 with `--release 8 -g:none` wrote of this, each i2b of `Main` replaced by a nop, and the types of `z` and
/// of the array by boolean:
///
///     class Flag { byte z; }
///     class Main {
///         static native int show(int a, int b);
///         static void idle() { }
///         static byte z;
///
///         static void flags() {
///             int six = 6, seven = 7;
///             z = (byte) six;
///             show(z, 0);
///             z = (byte) seven;
///             show(z, 0);
///             Flag f = new Flag();
///             f.z = (byte) six;
///             show(f.z, 1);
///             f.z = (byte) seven;
///             show(f.z, 1);
///             byte[] a = new byte[2];
///             a[0] = (byte) six;
///             a[1] = (byte) seven;
///             show(a[0], a[1]);
///         }
///     }
const FLAGS: &[u8] = b"\
    \xca\xfe\xba\xbe\0\0\04\0\x18\x0a\0\x02\0\x03\x07\0\x04\x0c\0\x05\0\x06\x01\0\x10java/lang/Object\x01\0\x06<in\
    it>\x01\0\x03()V\x09\0\x08\0\x09\x07\0\x0a\x0c\0\x0b\0\x0c\x01\0\x04Main\x01\0\x01z\x01\0\x01Z\x0a\0\x08\0\x0e\
    \x0c\0\x0f\0\x10\x01\0\x04show\x01\0\x05(II)I\x07\0\x12\x01\0\x04Flag\x0a\0\x11\0\x03\x09\0\x11\0\x09\x01\0\
    \x04Code\x01\0\x04idle\x01\0\x05flags\0\x20\0\x08\0\x02\0\0\0\x01\0\x08\0\x0b\0\x0c\0\0\0\x04\0\0\0\x05\0\x06\
    \0\x01\0\x15\0\0\0\x11\0\x01\0\x01\0\0\0\x05*\xb7\0\x01\xb1\0\0\0\0\x01\x08\0\x0f\0\x10\0\0\0\x08\0\x16\0\x06\
    \0\x01\0\x15\0\0\0\x0d\0\0\0\0\0\0\0\x01\xb1\0\0\0\0\0\x08\0\x17\0\x06\0\x01\0\x15\0\0\0k\0\x03\0\x04\0\0\0_\
    \x10\x06;\x10\x07<\x1a\0\xb3\0\x07\xb2\0\x07\x03\xb8\0\x0dW\x1b\0\xb3\0\x07\xb2\0\x07\x03\xb8\0\x0dW\xbb\0\x11\
    Y\xb7\0\x13M,\x1a\0\xb5\0\x14,\xb4\0\x14\x04\xb8\0\x0dW,\x1b\0\xb5\0\x14,\xb4\0\x14\x04\xb8\0\x0dW\x05\xbc\x04\
    N-\x03\x1a\0T-\x04\x1b\0T-\x033-\x043\xb8\0\x0dW\xb1\0\0\0\0\0\0";

const FLAG: &[u8] = b"\
    \xca\xfe\xba\xbe\0\0\04\0\x0c\x0a\0\x02\0\x03\x07\0\x04\x0c\0\x05\0\x06\x01\0\x10java/lang/Object\x01\0\x06<in\
    it>\x01\0\x03()V\x07\0\x08\x01\0\x04Flag\x01\0\x01z\x01\0\x01Z\x01\0\x04Code\0\x20\0\x07\0\x02\0\0\0\x01\0\0\0\
    \x09\0\x0a\0\0\0\x01\0\0\0\x05\0\x06\0\x01\0\x0b\0\0\0\x11\0\x01\0\x01\0\0\0\x05*\xb7\0\x01\xb1\0\0\0\0\0\0";

const LOWEST_BITS: &str = "main SetRelAlarm al 0 0 7
main SetRelAlarm al 1 0 7
main SetRelAlarm al 0 1 7
main SetRelAlarm al 1 1 7
main SetRelAlarm al 0 1 7
main TerminateTask 0
";

#[test]
fn booleans_keep_the_lowest_bit(rt: HostRuntime) -> Result<(), Fail> {
    let found = entry_lines(rt.alloc(), CONFIG, "flags\n", &[FLAGS, FLAG])?;
    assert_eq!(rt; found.as_slice(), LOWEST_BITS.as_bytes());
    Ok(())
}
