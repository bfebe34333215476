//! Which methods calls run.

use run_lines::entry_lines;
use std::test::Fail;

const CONFIG: &str = "keso 1 order little
domain app heap 24
counter c max 9 base 1 min 1
task idle domain app prio 0 acts 1 auto no sched full entry Main.idle
alarm al counter c activate idle
start al at 9 cycle 0
native Main.show(II)I SetRelAlarm al
task main domain app prio 1 acts 1 auto yes sched full entry Main.";

/// What javac 17 with `--release 8 -g:none` wrote of
///
///     interface Shape { int sides(); }
///     abstract class Base implements Shape {
///         int twice() { return sides() * 2; }
///         int plus() { return 1; }
///         abstract int deep();
///     }
///     class Square extends Base {
///         public int sides() { return 4; }
///         int plus() { return super.plus() + own(); }
///         private int own() { return 10; }
///         int deep() { return 5; }
///     }
///     class Wide extends Square {
///         public int sides() { return 6; }
///         int own() { return 20; }
///     }
///     class Tri extends Base {
///         public int sides() { return 3; }
///         int deep() { return own(2L, 3); }
///         private int own(long a, int b) { return (int) a * 10 + b; }
///     }
///     class Main {
///         static native int show(int a, int b);
///         static void idle() { }
///
///         static Base pick(int n) { return n == 0 ? new Square() : n == 1 ? new Wide() : new Tri(); }
///         static long mix(int a, long b, int c) { return a + b * c; }
///
///         static void virtual() {
///             Base a = pick(0), b = pick(1), c = pick(2);
///             show(a.twice(), b.twice());
///             show(c.twice(), a.plus());
///             show(b.plus(), c.plus());
///             show(a.deep(), c.deep());
///             show(b.deep(), ((Wide) b).own());
///         }
///
///         static void faces() {
///             Shape a = pick(0), b = pick(1), c = pick(2);
///             show(a.sides(), b.sides());
///             show(c.sides(), (int) mix(1, 20L, 3));
///         }
///     }
const MAIN: &[u8] = b"\
    \xca\xfe\xba\xbe\0\0\04\09\x0a\0\x02\0\x03\x07\0\x04\x0c\0\x05\0\x06\x01\0\x10java/lang/Object\x01\0\x06<init>\
    \x01\0\x03()V\x07\0\x08\x01\0\x06Square\x0a\0\x07\0\x03\x07\0\x0b\x01\0\x04Wide\x0a\0\x0a\0\x03\x07\0\x0e\x01\
    \0\x03Tri\x0a\0\x0d\0\x03\x0a\0\x11\0\x12\x07\0\x13\x0c\0\x14\0\x15\x01\0\x04Main\x01\0\x04pick\x01\0\x09(I)LB\
    ase;\x0a\0\x17\0\x18\x07\0\x19\x0c\0\x1a\0\x1b\x01\0\x04Base\x01\0\x05twice\x01\0\x03()I\x0a\0\x11\0\x1d\x0c\0\
    \x1e\0\x1f\x01\0\x04show\x01\0\x05(II)I\x0a\0\x17\0!\x0c\0\"\0\x1b\x01\0\x04plus\x0a\0\x17\0$\x0c\0%\0\x1b\x01\
    \0\x04deep\x0a\0\x0a\0'\x0c\0(\0\x1b\x01\0\x03own\x0b\0*\0+\x07\0,\x0c\0-\0\x1b\x01\0\x05Shape\x01\0\x05sides\
    \x05\0\0\0\0\0\0\0\x14\x0a\0\x11\01\x0c\02\03\x01\0\x03mix\x01\0\x06(IJI)J\x01\0\x04Code\x01\0\x04idle\x01\0\
    \x0dStackMapTable\x01\0\x07virtual\x01\0\x05faces\0\x20\0\x11\0\x02\0\0\0\0\0\x07\0\0\0\x05\0\x06\0\x01\04\0\0\
    \0\x11\0\x01\0\x01\0\0\0\x05*\xb7\0\x01\xb1\0\0\0\0\x01\x08\0\x1e\0\x1f\0\0\0\x08\05\0\x06\0\x01\04\0\0\0\x0d\
    \0\0\0\0\0\0\0\x01\xb1\0\0\0\0\0\x08\0\x14\0\x15\0\x01\04\0\0\0?\0\x02\0\x01\0\0\0%\x1a\x9a\0\x0d\xbb\0\x07Y\
    \xb7\0\x09\xa7\0\x19\x1a\x04\xa0\0\x0d\xbb\0\x0aY\xb7\0\x0c\xa7\0\x0a\xbb\0\x0dY\xb7\0\x0f\xb0\0\0\0\x01\06\0\
    \0\0\x08\0\x03\x0e\x0eF\x07\0\x17\0\x08\02\03\0\x01\04\0\0\0\x14\0\x06\0\x04\0\0\0\x08\x1a\x85\x1f\x1d\x85ia\
    \xad\0\0\0\0\0\x08\07\0\x06\0\x01\04\0\0\0[\0\x02\0\x03\0\0\0O\x03\xb8\0\x10K\x04\xb8\0\x10L\x05\xb8\0\x10M*\
    \xb6\0\x16+\xb6\0\x16\xb8\0\x1cW,\xb6\0\x16*\xb6\0\x20\xb8\0\x1cW+\xb6\0\x20,\xb6\0\x20\xb8\0\x1cW*\xb6\0#,\
    \xb6\0#\xb8\0\x1cW+\xb6\0#+\xc0\0\x0a\xb6\0&\xb8\0\x1cW\xb1\0\0\0\0\0\x08\08\0\x06\0\x01\04\0\0\0?\0\x05\0\x03\
    \0\0\03\x03\xb8\0\x10K\x04\xb8\0\x10L\x05\xb8\0\x10M*\xb9\0)\x01\0+\xb9\0)\x01\0\xb8\0\x1cW,\xb9\0)\x01\0\x04\
    \x14\0.\x06\xb8\00\x88\xb8\0\x1cW\xb1\0\0\0\0\0\0";

const SHAPE: &[u8] = b"\
    \xca\xfe\xba\xbe\0\0\04\0\x07\x07\0\x02\x01\0\x05Shape\x07\0\x04\x01\0\x10java/lang/Object\x01\0\x05sides\x01\
    \0\x03()I\x06\0\0\x01\0\x03\0\0\0\0\0\x01\x04\x01\0\x05\0\x06\0\0\0\0";

const BASE: &[u8] = b"\
    \xca\xfe\xba\xbe\0\0\04\0\x13\x0a\0\x02\0\x03\x07\0\x04\x0c\0\x05\0\x06\x01\0\x10java/lang/Object\x01\0\x06<in\
    it>\x01\0\x03()V\x0a\0\x08\0\x09\x07\0\x0a\x0c\0\x0b\0\x0c\x01\0\x04Base\x01\0\x05sides\x01\0\x03()I\x07\0\x0e\
    \x01\0\x05Shape\x01\0\x04Code\x01\0\x05twice\x01\0\x04plus\x01\0\x04deep\x04\x20\0\x08\0\x02\0\x01\0\x0d\0\0\0\
    \x04\0\0\0\x05\0\x06\0\x01\0\x0f\0\0\0\x11\0\x01\0\x01\0\0\0\x05*\xb7\0\x01\xb1\0\0\0\0\0\0\0\x10\0\x0c\0\x01\
    \0\x0f\0\0\0\x13\0\x02\0\x01\0\0\0\x07*\xb6\0\x07\x05h\xac\0\0\0\0\0\0\0\x11\0\x0c\0\x01\0\x0f\0\0\0\x0e\0\x01\
    \0\x01\0\0\0\x02\x04\xac\0\0\0\0\x04\0\0\x12\0\x0c\0\0\0\0";

const SQUARE: &[u8] = b"\
    \xca\xfe\xba\xbe\0\0\04\0\x13\x0a\0\x02\0\x03\x07\0\x04\x0c\0\x05\0\x06\x01\0\x04Base\x01\0\x06<init>\x01\0\
    \x03()V\x0a\0\x02\0\x08\x0c\0\x09\0\x0a\x01\0\x04plus\x01\0\x03()I\x0a\0\x0c\0\x0d\x07\0\x0e\x0c\0\x0f\0\x0a\
    \x01\0\x06Square\x01\0\x03own\x01\0\x04Code\x01\0\x05sides\x01\0\x04deep\0\x20\0\x0c\0\x02\0\0\0\0\0\x05\0\0\0\
    \x05\0\x06\0\x01\0\x10\0\0\0\x11\0\x01\0\x01\0\0\0\x05*\xb7\0\x01\xb1\0\0\0\0\0\x01\0\x11\0\x0a\0\x01\0\x10\0\
    \0\0\x0e\0\x01\0\x01\0\0\0\x02\x07\xac\0\0\0\0\0\0\0\x09\0\x0a\0\x01\0\x10\0\0\0\x16\0\x02\0\x01\0\0\0\x0a*\
    \xb7\0\x07*\xb7\0\x0b`\xac\0\0\0\0\0\x02\0\x0f\0\x0a\0\x01\0\x10\0\0\0\x0f\0\x01\0\x01\0\0\0\x03\x10\x0a\xac\0\
    \0\0\0\0\0\0\x12\0\x0a\0\x01\0\x10\0\0\0\x0e\0\x01\0\x01\0\0\0\x02\x08\xac\0\0\0\0\0\0";

const WIDE: &[u8] = b"\
    \xca\xfe\xba\xbe\0\0\04\0\x0d\x0a\0\x02\0\x03\x07\0\x04\x0c\0\x05\0\x06\x01\0\x06Square\x01\0\x06<init>\x01\0\
    \x03()V\x07\0\x08\x01\0\x04Wide\x01\0\x04Code\x01\0\x05sides\x01\0\x03()I\x01\0\x03own\0\x20\0\x07\0\x02\0\0\0\
    \0\0\x03\0\0\0\x05\0\x06\0\x01\0\x09\0\0\0\x11\0\x01\0\x01\0\0\0\x05*\xb7\0\x01\xb1\0\0\0\0\0\x01\0\x0a\0\x0b\
    \0\x01\0\x09\0\0\0\x0f\0\x01\0\x01\0\0\0\x03\x10\x06\xac\0\0\0\0\0\0\0\x0c\0\x0b\0\x01\0\x09\0\0\0\x0f\0\x01\0\
    \x01\0\0\0\x03\x10\x14\xac\0\0\0\0\0\0";

const TRI: &[u8] = b"\
    \xca\xfe\xba\xbe\0\0\04\0\x13\x0a\0\x02\0\x03\x07\0\x04\x0c\0\x05\0\x06\x01\0\x04Base\x01\0\x06<init>\x01\0\
    \x03()V\x05\0\0\0\0\0\0\0\x02\x0a\0\x0a\0\x0b\x07\0\x0c\x0c\0\x0d\0\x0e\x01\0\x03Tri\x01\0\x03own\x01\0\x05(JI\
    )I\x01\0\x04Code\x01\0\x05sides\x01\0\x03()I\x01\0\x04deep\0\x20\0\x0a\0\x02\0\0\0\0\0\x04\0\0\0\x05\0\x06\0\
    \x01\0\x0f\0\0\0\x11\0\x01\0\x01\0\0\0\x05*\xb7\0\x01\xb1\0\0\0\0\0\x01\0\x10\0\x11\0\x01\0\x0f\0\0\0\x0e\0\
    \x01\0\x01\0\0\0\x02\x06\xac\0\0\0\0\0\0\0\x12\0\x11\0\x01\0\x0f\0\0\0\x15\0\x04\0\x01\0\0\0\x09*\x14\0\x07\
    \x06\xb7\0\x09\xac\0\0\0\0\0\x02\0\x0d\0\x0e\0\x01\0\x0f\0\0\0\x14\0\x02\0\x04\0\0\0\x08\x1f\x88\x10\x0ah\x1d`\
    \xac\0\0\0\0\0\0";

const FILES: [&[u8]; 6] = [MAIN, SHAPE, BASE, SQUARE, WIDE, TRI];

const VIRTUAL: &str = "main SetRelAlarm al 8 12 7
main SetRelAlarm al 6 11 7
main SetRelAlarm al 11 1 7
main SetRelAlarm al 5 23 7
main SetRelAlarm al 5 20 7
main TerminateTask 0
";

/// A private method isn't overridden, and `super.plus()` is the method above.
#[test]
fn virtual_calls_go_by_the_object(rt: HostRuntime) -> Result<(), Fail> {
    let found = entry_lines(rt.alloc(), CONFIG, "virtual\n", &FILES)?;
    assert_eq!(rt; found.as_slice(), VIRTUAL.as_bytes());
    Ok(())
}

const FACES: &str = "main SetRelAlarm al 4 6 7
main SetRelAlarm al 3 61 7
main TerminateTask 0
";

#[test]
fn interface_calls_go_by_the_object(rt: HostRuntime) -> Result<(), Fail> {
    let found = entry_lines(rt.alloc(), CONFIG, "faces\n", &FILES)?;
    assert_eq!(rt; found.as_slice(), FACES.as_bytes());
    Ok(())
}
