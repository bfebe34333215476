//! Arrays of each type.

use run_lines::entry_lines;
use std::test::Fail;

/// The eight arrays take 16, 16, 16, 24, 32, 64, 40 and 48 bytes.
const CONFIG: &str = "keso 1 order little
domain app heap 256
counter c max 9 base 1 min 1
task idle domain app prio 0 acts 1 auto no sched full entry Main.idle
alarm al counter c activate idle
start al at 9 cycle 0
native Main.show(II)I SetRelAlarm al
task main domain app prio 1 acts 1 auto yes sched full entry Main.";

/// What javac 17 with `--release 8 -g:none` wrote of
///
///     class Main {
///         static native int show(int a, int b);
///         static void idle() { }
///
///         static void fresh() {
///             boolean[] z = new boolean[2]; byte[] b = new byte[3]; short[] s = new short[4]; char[] c = new char[5];
///             int[] i = new int[6]; long[] l = new long[7]; Object[] o = new Object[8]; int[][] d = new int[9][];
///             show(z.length, b.length);
///             show(s.length, c.length);
///             show(i.length, l.length);
///             show(o.length, d.length);
///             show(z[1] ? 1 : 2, b[2]);
///             show(s[3], c[4]);
///             show(i[5], (int) l[6]);
///             show(o[7] == null ? 1 : 2, d[8] == null ? 1 : 2);
///         }
///
///         static void items() {
///             int v = -32384;
///             boolean[] z = new boolean[2]; byte[] b = new byte[3]; short[] s = new short[4]; char[] c = new char[5];
///             int[] i = new int[6]; long[] l = new long[7]; Object[] o = new Object[8]; int[][] d = new int[9][];
///             z[1] = true; b[2] = (byte) v; s[3] = (short) v; c[4] = (char) v; i[5] = v; l[6] = v; o[7] = d; d[8] = i;
///             show(z[1] ? 1 : 2, z[0] ? 1 : 2);
///             show(b[2], b[1]);
///             show(s[3], s[2]);
///             show(c[4], c[3]);
///             show(i[5], i[4]);
///             show((int) l[6], (int) (l[6] >>> 32));
///             show((int) l[5], o[6] == null ? 1 : 2);
///             show(o[7] == d ? 1 : 2, d[8] == i ? 1 : 2);
///             show(d[8][5], d[8].length);
///             d[8][5]++;
///             show(i[5], i[0]);
///         }
///     }
const MAIN: &[u8] = b"\
    \xca\xfe\xba\xbe\0\0\04\0\"\x0a\0\x02\0\x03\x07\0\x04\x0c\0\x05\0\x06\x01\0\x10java/lang/Object\x01\0\x06<init\
    >\x01\0\x03()V\x07\0\x08\x01\0\x02[I\x0a\0\x0a\0\x0b\x07\0\x0c\x0c\0\x0d\0\x0e\x01\0\x04Main\x01\0\x04show\x01\
    \0\x05(II)I\x01\0\x04Code\x01\0\x04idle\x01\0\x05fresh\x01\0\x0dStackMapTable\x07\0\x14\x01\0\x02[Z\x07\0\x16\
    \x01\0\x02[B\x07\0\x18\x01\0\x02[S\x07\0\x1a\x01\0\x02[C\x07\0\x1c\x01\0\x02[J\x07\0\x1e\x01\0\x13[Ljava/lang/\
    Object;\x07\0\x20\x01\0\x03[[I\x01\0\x05items\0\x20\0\x0a\0\x02\0\0\0\0\0\x05\0\0\0\x05\0\x06\0\x01\0\x0f\0\0\
    \0\x11\0\x01\0\x01\0\0\0\x05*\xb7\0\x01\xb1\0\0\0\0\x01\x08\0\x0d\0\x0e\0\0\0\x08\0\x10\0\x06\0\x01\0\x0f\0\0\
    \0\x0d\0\0\0\0\0\0\0\x01\xb1\0\0\0\0\0\x08\0\x11\0\x06\0\x01\0\x0f\0\0\0\xf2\0\x03\0\x08\0\0\0\x97\x05\xbc\x04\
    K\x06\xbc\x08L\x07\xbc\x09M\x08\xbc\x05N\x10\x06\xbc\x0a:\x04\x10\x07\xbc\x0b:\x05\x10\x08\xbd\0\x02:\x06\x10\
    \x09\xbd\0\x07:\x07*\xbe+\xbe\xb8\0\x09W,\xbe-\xbe\xb8\0\x09W\x19\x04\xbe\x19\x05\xbe\xb8\0\x09W\x19\x06\xbe\
    \x19\x07\xbe\xb8\0\x09W*\x043\x99\0\x07\x04\xa7\0\x04\x05+\x053\xb8\0\x09W,\x065-\x074\xb8\0\x09W\x19\x04\x08.\
    \x19\x05\x10\x06/\x88\xb8\0\x09W\x19\x06\x10\x072\xc7\0\x07\x04\xa7\0\x04\x05\x19\x07\x10\x082\xc7\0\x07\x04\
    \xa7\0\x04\x05\xb8\0\x09W\xb1\0\0\0\x01\0\x12\0\0\0I\0\x06\xff\0X\0\x08\x07\0\x13\x07\0\x15\x07\0\x17\x07\0\
    \x19\x07\0\x07\x07\0\x1b\x07\0\x1d\x07\0\x1f\0\0@\x01*@\x01K\x01\xff\0\0\0\x08\x07\0\x13\x07\0\x15\x07\0\x17\
    \x07\0\x19\x07\0\x07\x07\0\x1b\x07\0\x1d\x07\0\x1f\0\x02\x01\x01\0\x08\0!\0\x06\0\x01\0\x0f\0\0\x01\xbe\0\x04\
    \0\x09\0\0\x01\x17\x11\x81\x80;\x05\xbc\x04L\x06\xbc\x08M\x07\xbc\x09N\x08\xbc\x05:\x04\x10\x06\xbc\x0a:\x05\
    \x10\x07\xbc\x0b:\x06\x10\x08\xbd\0\x02:\x07\x10\x09\xbd\0\x07:\x08+\x04\x04T,\x05\x1a\x91T-\x06\x1a\x93V\x19\
    \x04\x07\x1a\x92U\x19\x05\x08\x1aO\x19\x06\x10\x06\x1a\x85P\x19\x07\x10\x07\x19\x08S\x19\x08\x10\x08\x19\x05S+\
    \x043\x99\0\x07\x04\xa7\0\x04\x05+\x033\x99\0\x07\x04\xa7\0\x04\x05\xb8\0\x09W,\x053,\x043\xb8\0\x09W-\x065-\
    \x055\xb8\0\x09W\x19\x04\x074\x19\x04\x064\xb8\0\x09W\x19\x05\x08.\x19\x05\x07.\xb8\0\x09W\x19\x06\x10\x06/\
    \x88\x19\x06\x10\x06/\x10\x20}\x88\xb8\0\x09W\x19\x06\x08/\x88\x19\x07\x10\x062\xc7\0\x07\x04\xa7\0\x04\x05\
    \xb8\0\x09W\x19\x07\x10\x072\x19\x08\xa6\0\x07\x04\xa7\0\x04\x05\x19\x08\x10\x082\x19\x05\xa6\0\x07\x04\xa7\0\
    \x04\x05\xb8\0\x09W\x19\x08\x10\x082\x08.\x19\x08\x10\x082\xbe\xb8\0\x09W\x19\x08\x10\x082\x08\\.\x04`O\x19\
    \x05\x08.\x19\x05\x03.\xb8\0\x09W\xb1\0\0\0\x01\0\x12\0\0\0\x95\0\x0a\xff\0g\0\x09\x01\x07\0\x13\x07\0\x15\x07\
    \0\x17\x07\0\x19\x07\0\x07\x07\0\x1b\x07\0\x1d\x07\0\x1f\0\0@\x01I\x01\xff\0\0\0\x09\x01\x07\0\x13\x07\0\x15\
    \x07\0\x17\x07\0\x19\x07\0\x07\x07\0\x1b\x07\0\x1d\x07\0\x1f\0\x02\x01\x01\xf7\0S\x01\xff\0\0\0\x09\x01\x07\0\
    \x13\x07\0\x15\x07\0\x17\x07\0\x19\x07\0\x07\x07\0\x1b\x07\0\x1d\x07\0\x1f\0\x02\x01\x01\x11@\x01M\x01\xff\0\0\
    \0\x09\x01\x07\0\x13\x07\0\x15\x07\0\x17\x07\0\x19\x07\0\x07\x07\0\x1b\x07\0\x1d\x07\0\x1f\0\x02\x01\x01\0\0";

const FRESH: &str = "main SetRelAlarm al 2 3 7
main SetRelAlarm al 4 5 7
main SetRelAlarm al 6 7 7
main SetRelAlarm al 8 9 7
main SetRelAlarm al 2 0 7
main SetRelAlarm al 0 0 7
main SetRelAlarm al 0 0 7
main SetRelAlarm al 1 1 7
main TerminateTask 0
";

#[test]
fn new_arrays_have_zeros(rt: HostRuntime) -> Result<(), Fail> {
    let found = entry_lines(rt.alloc(), CONFIG, "fresh\n", &[MAIN])?;
    assert_eq!(rt; found.as_slice(), FRESH.as_bytes());
    Ok(())
}

const ITEMS: &str = "main SetRelAlarm al 1 2 7
main SetRelAlarm al -128 0 7
main SetRelAlarm al -32384 0 7
main SetRelAlarm al 33152 0 7
main SetRelAlarm al -32384 0 7
main SetRelAlarm al -32384 -1 7
main SetRelAlarm al 0 1 7
main SetRelAlarm al 1 1 7
main SetRelAlarm al -32384 6 7
main SetRelAlarm al -32383 0 7
main TerminateTask 0
";

#[test]
fn items_keep_what_is_stored(rt: HostRuntime) -> Result<(), Fail> {
    let found = entry_lines(rt.alloc(), CONFIG, "items\n", &[MAIN])?;
    assert_eq!(rt; found.as_slice(), ITEMS.as_bytes());
    Ok(())
}

const SMALLER: &str = "keso 1 order little
domain app heap 248
counter c max 9 base 1 min 1
task idle domain app prio 0 acts 1 auto no sched full entry Main.idle
alarm al counter c activate idle
start al at 9 cycle 0
native Main.show(II)I SetRelAlarm al
task main domain app prio 1 acts 1 auto yes sched full entry Main.";

#[test]
fn the_last_array_does_not_fit(rt: HostRuntime) -> Result<(), Fail> {
    let found = entry_lines(rt.alloc(), SMALLER, "fresh\n", &[MAIN])?;
    assert_eq!(rt;
        found.as_slice(),
        b"main fail HeapFull Main.fresh()V 37\n".as_slice()
    );
    Ok(())
}
