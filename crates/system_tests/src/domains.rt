//! Statics and heaps of two domains.

use run_lines::lines;
use std::test::Fail;

/// What javac 17 with `--release 8 -g:none` wrote of
///
///     class Count { static int k = 4; }
///     class Main {
///         static native int show(int a, int b);
///         static void idle() { }
///         static int n = 40;
///
///         static void run() { n = n + 1; show(n, Count.k); Count.k = n; }
///         static void make() { int[] a = new int[1]; }
///     }
const MAIN: &[u8] = b"\
    \xca\xfe\xba\xbe\0\0\04\0\x1b\x0a\0\x02\0\x03\x07\0\x04\x0c\0\x05\0\x06\x01\0\x10java/lang/Object\x01\0\x06<in\
    it>\x01\0\x03()V\x09\0\x08\0\x09\x07\0\x0a\x0c\0\x0b\0\x0c\x01\0\x04Main\x01\0\x01n\x01\0\x01I\x09\0\x0e\0\x0f\
    \x07\0\x10\x0c\0\x11\0\x0c\x01\0\x05Count\x01\0\x01k\x0a\0\x08\0\x13\x0c\0\x14\0\x15\x01\0\x04show\x01\0\x05(I\
    I)I\x01\0\x04Code\x01\0\x04idle\x01\0\x03run\x01\0\x04make\x01\0\x08<clinit>\0\x20\0\x08\0\x02\0\0\0\x01\0\x08\
    \0\x0b\0\x0c\0\0\0\x06\0\0\0\x05\0\x06\0\x01\0\x16\0\0\0\x11\0\x01\0\x01\0\0\0\x05*\xb7\0\x01\xb1\0\0\0\0\x01\
    \x08\0\x14\0\x15\0\0\0\x08\0\x17\0\x06\0\x01\0\x16\0\0\0\x0d\0\0\0\0\0\0\0\x01\xb1\0\0\0\0\0\x08\0\x18\0\x06\0\
    \x01\0\x16\0\0\0%\0\x02\0\0\0\0\0\x19\xb2\0\x07\x04`\xb3\0\x07\xb2\0\x07\xb2\0\x0d\xb8\0\x12W\xb2\0\x07\xb3\0\
    \x0d\xb1\0\0\0\0\0\x08\0\x19\0\x06\0\x01\0\x16\0\0\0\x11\0\x01\0\x01\0\0\0\x05\x04\xbc\x0aK\xb1\0\0\0\0\0\x08\
    \0\x1a\0\x06\0\x01\0\x16\0\0\0\x12\0\x01\0\0\0\0\0\x06\x10(\xb3\0\x07\xb1\0\0\0\0\0\0";

const COUNT: &[u8] = b"\
    \xca\xfe\xba\xbe\0\0\04\0\x0f\x0a\0\x02\0\x03\x07\0\x04\x0c\0\x05\0\x06\x01\0\x10java/lang/Object\x01\0\x06<in\
    it>\x01\0\x03()V\x09\0\x08\0\x09\x07\0\x0a\x0c\0\x0b\0\x0c\x01\0\x05Count\x01\0\x01k\x01\0\x01I\x01\0\x04Code\
    \x01\0\x08<clinit>\0\x20\0\x08\0\x02\0\0\0\x01\0\x08\0\x0b\0\x0c\0\0\0\x02\0\0\0\x05\0\x06\0\x01\0\x0d\0\0\0\
    \x11\0\x01\0\x01\0\0\0\x05*\xb7\0\x01\xb1\0\0\0\0\0\x08\0\x0e\0\x06\0\x01\0\x0d\0\0\0\x11\0\x01\0\0\0\0\0\x05\
    \x07\xb3\0\x07\xb1\0\0\0\0\0\0";

/// Tasks a and c are in one domain, and b is in the other.
const STATICS: &str = "keso 1 order little
domain left heap 0
domain right heap 0
counter c max 9 base 1 min 1
task idle domain left prio 0 acts 1 auto no sched full entry Main.idle
alarm al counter c activate idle
start al at 9 cycle 0
native Main.show(II)I SetRelAlarm al
task a domain left prio 3 acts 1 auto yes sched full entry Main.run
task b domain right prio 2 acts 1 auto yes sched full entry Main.run
task c domain left prio 1 acts 1 auto yes sched full entry Main.run
";

const STATICS_LINES: &str = "a SetRelAlarm al 41 4 7
a TerminateTask 0
b SetRelAlarm al 41 4 7
b TerminateTask 0
c SetRelAlarm al 42 41 7
c TerminateTask 0
";

#[test]
fn each_domain_has_its_own_statics(rt: HostRuntime) -> Result<(), Fail> {
    let found = lines(rt.alloc(), STATICS, "run 1000\n", &[MAIN, COUNT])?;
    assert_eq!(rt; found.as_slice(), STATICS_LINES.as_bytes());
    Ok(())
}

/// The four initialisers have three instructions each. The last one's return starts the kernel, and ticks count from
/// there: nine of them find the alarm.
const SCRIPTS: [(&str, &str); 2] = [
    (
        "run 11\ntick c\nrun 1\ntick c 8\nrun 9\n",
        "a SetRelAlarm al 41 4 7\n",
    ),
    (
        "run 11\ntick c\nrun 1\ntick c 9\nrun 9\n",
        "a SetRelAlarm al 41 4 8\n",
    ),
];

#[test]
fn the_last_initialiser_starts_the_kernel(rt: HostRuntime) -> Result<(), Fail> {
    for (script, line) in SCRIPTS {
        let found = lines(rt.alloc(), STATICS, script, &[MAIN, COUNT])?;
        assert_eq!(rt; found.as_slice(), line.as_bytes());
    }
    Ok(())
}

/// An array of one int takes 16 bytes.
const HEAPS: &str = "keso 1 order little
domain left heap 8
domain right heap 16
task a domain right prio 3 acts 1 auto yes sched full entry Main.make
task b domain left prio 2 acts 1 auto yes sched full entry Main.make
task c domain right prio 1 acts 1 auto yes sched full entry Main.make
";

#[test]
fn each_domain_has_its_own_heap(rt: HostRuntime) -> Result<(), Fail> {
    let found = lines(rt.alloc(), HEAPS, "run 1000\n", &[MAIN, COUNT])?;
    assert_eq!(rt;
        found.as_slice(),
        b"a TerminateTask 0\nb fail HeapFull Main.make()V 1\n".as_slice()
    );
    Ok(())
}

const SHARED: &str = "keso 1 order little
domain left heap 24
domain right heap 16
task a domain right prio 3 acts 1 auto yes sched full entry Main.make
task b domain left prio 2 acts 1 auto yes sched full entry Main.make
task c domain right prio 1 acts 1 auto yes sched full entry Main.make
";

#[test]
fn tasks_of_a_domain_share_its_heap(rt: HostRuntime) -> Result<(), Fail> {
    let found = lines(rt.alloc(), SHARED, "run 1000\n", &[MAIN, COUNT])?;
    assert_eq!(rt;
        found.as_slice(),
        b"a TerminateTask 0\nb TerminateTask 0\nc fail HeapFull Main.make()V 1\n".as_slice()
    );
    Ok(())
}
