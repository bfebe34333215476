//! Where both forms of a switch go.

use run_lines::entry_lines;
use std::test::Fail;

const CONFIG: &str = "keso 1 order little
domain app heap 0
counter c max 9 base 1 min 1
task idle domain app prio 0 acts 1 auto no sched full entry Main.idle
alarm al counter c activate idle
start al at 9 cycle 0
native Main.show(II)I SetRelAlarm al
task main domain app prio 1 acts 1 auto yes sched full entry Main.";

/// What javac 17 with `--release 8 -g:none` wrote of this; `dense` has a tableswitch, and the others a lookupswitch:
///
///     class Main {
///         static native int show(int a, int b);
///         static void idle() { }
///
///         static int dense(int n) {
///             switch (n) {
///                 case 1: return 10;
///                 case 2: return 20;
///                 case 4: return 40;
///                 default: return 99;
///             }
///         }
///
///         static int sparse(int n) {
///             int sum = 0;
///             switch (n) {
///                 case -2147483648: sum += 1;
///                 case 0: sum += 2; break;
///                 case 2147483647: sum += 4;
///                 default: sum += 8;
///             }
///             return sum;
///         }
///
///         static int none(int n) {
///             switch (n) {
///                 default: return n;
///             }
///         }
///
///         static void dense_switch() {
///             show(dense(0), dense(1));
///             show(dense(2), dense(3));
///             show(dense(4), dense(5));
///             show(dense(-2147483648), dense(2147483647));
///         }
///
///         static void sparse_switch() {
///             show(sparse(-2147483648), sparse(-2147483647));
///             show(sparse(0), sparse(1));
///             show(sparse(2147483647), sparse(2147483646));
///             show(none(3), none(-3));
///         }
///     }
const MAIN: &[u8] = b"\
    \xca\xfe\xba\xbe\0\0\04\0\x20\x0a\0\x02\0\x03\x07\0\x04\x0c\0\x05\0\x06\x01\0\x10java/lang/Object\x01\0\x06<in\
    it>\x01\0\x03()V\x0a\0\x08\0\x09\x07\0\x0a\x0c\0\x0b\0\x0c\x01\0\x04Main\x01\0\x05dense\x01\0\x04(I)I\x0a\0\
    \x08\0\x0e\x0c\0\x0f\0\x10\x01\0\x04show\x01\0\x05(II)I\x03\x80\0\0\0\x03\x7f\xff\xff\xff\x0a\0\x08\0\x14\x0c\
    \0\x15\0\x0c\x01\0\x06sparse\x03\x80\0\0\x01\x03\x7f\xff\xff\xfe\x0a\0\x08\0\x19\x0c\0\x1a\0\x0c\x01\0\x04none\
    \x01\0\x04Code\x01\0\x04idle\x01\0\x0dStackMapTable\x01\0\x0cdense_switch\x01\0\x0dsparse_switch\0\x20\0\x08\0\
    \x02\0\0\0\0\0\x08\0\0\0\x05\0\x06\0\x01\0\x1b\0\0\0\x11\0\x01\0\x01\0\0\0\x05*\xb7\0\x01\xb1\0\0\0\0\x01\x08\
    \0\x0f\0\x10\0\0\0\x08\0\x1c\0\x06\0\x01\0\x1b\0\0\0\x0d\0\0\0\0\0\0\0\x01\xb1\0\0\0\0\0\x08\0\x0b\0\x0c\0\x01\
    \0\x1b\0\0\0D\0\x01\0\x01\0\0\0,\x1a\xaa\0\0\0\0\0(\0\0\0\x01\0\0\0\x04\0\0\0\x1f\0\0\0\"\0\0\0(\0\0\0%\x10\
    \x0a\xac\x10\x14\xac\x10(\xac\x10c\xac\0\0\0\x01\0\x1d\0\0\0\x06\0\x04\x20\x02\x02\x02\0\x08\0\x15\0\x0c\0\x01\
    \0\x1b\0\0\0Q\0\x01\0\x02\0\0\05\x03<\x1a\xab\0\0\0-\0\0\0\x03\x80\0\0\0\0\0\0!\0\0\0\0\0\0\0$\x7f\xff\xff\xff\
    \0\0\0*\x84\x01\x01\x84\x01\x02\xa7\0\x09\x84\x01\x04\x84\x01\x08\x1b\xac\0\0\0\x01\0\x1d\0\0\0\x0a\0\x05\xfc\
    \0$\x01\x02\x05\x02\x02\0\x08\0\x1a\0\x0c\0\x01\0\x1b\0\0\0#\0\x01\0\x01\0\0\0\x0e\x1a\xab\0\0\0\0\0\x0b\0\0\0\
    \0\x1a\xac\0\0\0\x01\0\x1d\0\0\0\x03\0\x01\x0c\0\x08\0\x1e\0\x06\0\x01\0\x1b\0\0\0?\0\x02\0\0\0\0\03\x03\xb8\0\
    \x07\x04\xb8\0\x07\xb8\0\x0dW\x05\xb8\0\x07\x06\xb8\0\x07\xb8\0\x0dW\x07\xb8\0\x07\x08\xb8\0\x07\xb8\0\x0dW\
    \x12\x11\xb8\0\x07\x12\x12\xb8\0\x07\xb8\0\x0dW\xb1\0\0\0\0\0\x08\0\x1f\0\x06\0\x01\0\x1b\0\0\0B\0\x02\0\0\0\0\
    \06\x12\x11\xb8\0\x13\x12\x16\xb8\0\x13\xb8\0\x0dW\x03\xb8\0\x13\x04\xb8\0\x13\xb8\0\x0dW\x12\x12\xb8\0\x13\
    \x12\x17\xb8\0\x13\xb8\0\x0dW\x06\xb8\0\x18\x10\xfd\xb8\0\x18\xb8\0\x0dW\xb1\0\0\0\0\0\0";

const DENSE: &str = "main SetRelAlarm al 99 10 7
main SetRelAlarm al 20 99 7
main SetRelAlarm al 40 99 7
main SetRelAlarm al 99 99 7
main TerminateTask 0
";

#[test]
fn tableswitch_goes_by_its_places(rt: HostRuntime) -> Result<(), Fail> {
    let found = entry_lines(rt.alloc(), CONFIG, "dense_switch\n", &[MAIN])?;
    assert_eq!(rt; found.as_slice(), DENSE.as_bytes());
    Ok(())
}

const SPARSE: &str = "main SetRelAlarm al 3 8 7
main SetRelAlarm al 2 8 7
main SetRelAlarm al 12 8 7
main SetRelAlarm al 3 -3 7
main TerminateTask 0
";

#[test]
fn lookupswitch_goes_by_its_keys(rt: HostRuntime) -> Result<(), Fail> {
    let found = entry_lines(rt.alloc(), CONFIG, "sparse_switch\n", &[MAIN])?;
    assert_eq!(rt; found.as_slice(), SPARSE.as_bytes());
    Ok(())
}
