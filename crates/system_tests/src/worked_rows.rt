//! Small systems, each with the lines that its rules give.

use kes_text::{Kind, NoMemory, Refusal, Stop};
use run_lines::lines;
use std::alloc::Global;
use std::test::Fail;

/// The bytecode, written by hand, of
///
///     class Main { static native int again(); static void run() { again(); } }
const AGAIN: &[u8] = b"\
    \xca\xfe\xba\xbe\0\0\04\0\x0c\x07\0\x02\x01\0\x04Main\x07\0\x04\x01\0\x10java/lang/Object\x01\0\x05again\x01\0\
    \x03()I\x01\0\x03run\x01\0\x03()V\x01\0\x04Code\x0a\0\x01\0\x0b\x0c\0\x05\0\x06\0!\0\x01\0\x03\0\0\0\0\0\x02\
    \x01\x09\0\x05\0\x06\0\0\0\x09\0\x07\0\x08\0\x01\0\x09\0\0\0\x11\0\x01\0\0\0\0\0\x05\xb8\0\x0aW\xb1\0\0\0\0\0\
    \0";

const AGAIN_CONFIG: &str = "keso 1 order little
domain app heap 64
task main domain app prio 1 acts 1 auto yes sched full entry Main.run
native Main.again()I ActivateTask main
";

const AGAIN_LINES: &str = "main ActivateTask main 4
main TerminateTask 0
";

#[test]
fn a_task_activates_itself(rt: HostRuntime) -> Result<(), Fail> {
    let found = lines(rt.alloc(), AGAIN_CONFIG, "run 4\n", &[AGAIN])?;
    assert_eq!(rt; found.as_slice(), AGAIN_LINES.as_bytes());
    Ok(())
}

/// The file with another byte at a place.
fn with_byte(alloc: Global, file: &[u8], at: usize, byte: u8) -> Result<Vec<u8>, NoMemory> {
    let mut bytes = Vec::from_slice(alloc, file)?;
    if let Some(place) = bytes.as_mut_slice().get_mut(at) {
        *place = byte;
    }
    Ok(bytes)
}

#[test]
fn version_50_is_as_version_52(rt: HostRuntime) -> Result<(), Fail> {
    let file = with_byte(rt.alloc(), AGAIN, 7, 0x32)?;
    let found = lines(rt.alloc(), AGAIN_CONFIG, "run 1000\n", &[file.as_slice()])?;
    assert_eq!(rt; found.as_slice(), AGAIN_LINES.as_bytes());
    Ok(())
}

/// The first file is number 0 to the layer that reads code.
const FLOAT: Stop = Stop::Refused(Refusal {
    file: 0,
    kind: Kind::Unsupported,
    at: 130,
});

/// The pop is an fadd.
#[test]
fn a_float_operation_is_refused(rt: HostRuntime) -> Result<(), Fail> {
    let file = with_byte(rt.alloc(), AGAIN, 130, 0x62)?;
    let found = lines(rt.alloc(), AGAIN_CONFIG, "run 4\n", &[file.as_slice()]);
    assert_eq!(rt; found.err(), Some(FLOAT));
    Ok(())
}

/// What javac 17 with `--release 8 -g:none` wrote of
///
///     class Main {
///         static native int again();
///         static void run() { again(); }
///         static float more(float a) { return a + a; }
///     }
const MORE: &[u8] = b"\
    \xca\xfe\xba\xbe\0\0\04\0\x11\x0a\0\x02\0\x03\x07\0\x04\x0c\0\x05\0\x06\x01\0\x10java/lang/Object\x01\0\x06<in\
    it>\x01\0\x03()V\x0a\0\x08\0\x09\x07\0\x0a\x0c\0\x0b\0\x0c\x01\0\x04Main\x01\0\x05again\x01\0\x03()I\x01\0\x04\
    Code\x01\0\x03run\x01\0\x04more\x01\0\x04(F)F\0\x20\0\x08\0\x02\0\0\0\0\0\x04\0\0\0\x05\0\x06\0\x01\0\x0d\0\0\
    \0\x11\0\x01\0\x01\0\0\0\x05*\xb7\0\x01\xb1\0\0\0\0\x01\x08\0\x0b\0\x0c\0\0\0\x08\0\x0e\0\x06\0\x01\0\x0d\0\0\
    \0\x11\0\x01\0\0\0\0\0\x05\xb8\0\x07W\xb1\0\0\0\0\0\x08\0\x0f\0\x10\0\x01\0\x0d\0\0\0\x10\0\x02\0\x01\0\0\0\
    \x04\"\"b\xae\0\0\0\0\0\0";

#[test]
fn a_float_operation_that_nothing_reaches_is_no_fault(rt: HostRuntime) -> Result<(), Fail> {
    let found = lines(rt.alloc(), AGAIN_CONFIG, "run 4\n", &[MORE])?;
    assert_eq!(rt; found.as_slice(), AGAIN_LINES.as_bytes());
    Ok(())
}

/// What javac 17 with `--release 8 -g:none` wrote of
///
///     class Main { static void run() { } }
const RETURNS: &[u8] = b"\
    \xca\xfe\xba\xbe\0\0\04\0\x0b\x0a\0\x02\0\x03\x07\0\x04\x0c\0\x05\0\x06\x01\0\x10java/lang/Object\x01\0\x06<in\
    it>\x01\0\x03()V\x07\0\x08\x01\0\x04Main\x01\0\x04Code\x01\0\x03run\0\x20\0\x07\0\x02\0\0\0\0\0\x02\0\0\0\x05\
    \0\x06\0\x01\0\x09\0\0\0\x11\0\x01\0\x01\0\0\0\x05*\xb7\0\x01\xb1\0\0\0\0\0\x08\0\x0a\0\x06\0\x01\0\x09\0\0\0\
    \x0d\0\0\0\0\0\0\0\x01\xb1\0\0\0\0\0\0";

const RETURNS_CONFIG: &str = "keso 1 order little
domain app heap 64
counter c max 1000 base 1 min 1
task a domain app prio 1 acts 1 auto yes sched full entry Main.run
task b domain app prio 1 acts 1 auto yes sched full entry Main.run
task h domain app prio 2 acts 1 auto no sched full entry Main.run
alarm al counter c activate h
start al at 1 cycle 1
";

#[test]
fn a_preempted_job_stays_first(rt: HostRuntime) -> Result<(), Fail> {
    let found = lines(
        rt.alloc(),
        RETURNS_CONFIG,
        "run 1\ntick c\nrun 6\n",
        &[RETURNS],
    )?;
    assert_eq!(rt;
        found.as_slice(),
        b"h TerminateTask 0\na TerminateTask 0\nb TerminateTask 0\n".as_slice()
    );
    Ok(())
}

/// What javac 17 with `--release 8 -g:none` wrote of
///
///     class Main {
///         static native int get();
///         static native int release();
///         static void low() { get(); release(); }
///         static void m() { }
///     }
const HOLDS: &[u8] = b"\
    \xca\xfe\xba\xbe\0\0\04\0\x13\x0a\0\x02\0\x03\x07\0\x04\x0c\0\x05\0\x06\x01\0\x10java/lang/Object\x01\0\x06<in\
    it>\x01\0\x03()V\x0a\0\x08\0\x09\x07\0\x0a\x0c\0\x0b\0\x0c\x01\0\x04Main\x01\0\x03get\x01\0\x03()I\x0a\0\x08\0\
    \x0e\x0c\0\x0f\0\x0c\x01\0\x07release\x01\0\x04Code\x01\0\x03low\x01\0\x01m\0\x20\0\x08\0\x02\0\0\0\0\0\x05\0\
    \0\0\x05\0\x06\0\x01\0\x10\0\0\0\x11\0\x01\0\x01\0\0\0\x05*\xb7\0\x01\xb1\0\0\0\0\x01\x08\0\x0b\0\x0c\0\0\x01\
    \x08\0\x0f\0\x0c\0\0\0\x08\0\x11\0\x06\0\x01\0\x10\0\0\0\x15\0\x01\0\0\0\0\0\x09\xb8\0\x07W\xb8\0\x0dW\xb1\0\0\
    \0\0\0\x08\0\x12\0\x06\0\x01\0\x10\0\0\0\x0d\0\0\0\0\0\0\0\x01\xb1\0\0\0\0\0\0";

const HOLDS_CONFIG: &str = "keso 1 order little
domain app heap 64
counter c max 1000 base 1 min 1
resource r1
task low domain app prio 1 acts 1 auto yes sched full entry Main.low
task m domain app prio 4 acts 1 auto no sched full entry Main.m
task top domain app prio 5 acts 1 auto no sched full entry Main.m
use low r1
use top r1
alarm al counter c activate m
start al at 1 cycle 1
native Main.get()I GetResource r1
native Main.release()I ReleaseResource r1
";

const HOLDS_LINES: &str = "low GetResource r1 0
low ReleaseResource r1 0
m TerminateTask 0
low TerminateTask 0
";

#[test]
fn who_holds_a_resource_has_its_ceiling(rt: HostRuntime) -> Result<(), Fail> {
    let script = "run 1\ntick c\nrun 2\nrun 2\nrun 3\n";
    let found = lines(rt.alloc(), HOLDS_CONFIG, script, &[HOLDS])?;
    assert_eq!(rt; found.as_slice(), HOLDS_LINES.as_bytes());
    Ok(())
}

const SMALL_HEAP: &str = "keso 1 order little
domain app heap 24
task main domain app prio 1 acts 1 auto yes sched full entry Main.run
";

/// What javac 17 with `--release 8 -g:none` wrote of
///
///     class Main { static void run() { new A(); new A(); } }
///     class A { int x; }
const TWO_INTS: &[u8] = b"\
    \xca\xfe\xba\xbe\0\0\04\0\x0e\x0a\0\x02\0\x03\x07\0\x04\x0c\0\x05\0\x06\x01\0\x10java/lang/Object\x01\0\x06<in\
    it>\x01\0\x03()V\x07\0\x08\x01\0\x01A\x0a\0\x07\0\x03\x07\0\x0b\x01\0\x04Main\x01\0\x04Code\x01\0\x03run\0\x20\
    \0\x0a\0\x02\0\0\0\0\0\x02\0\0\0\x05\0\x06\0\x01\0\x0c\0\0\0\x11\0\x01\0\x01\0\0\0\x05*\xb7\0\x01\xb1\0\0\0\0\
    \0\x08\0\x0d\0\x06\0\x01\0\x0c\0\0\0\x1d\0\x02\0\0\0\0\0\x11\xbb\0\x07Y\xb7\0\x09W\xbb\0\x07Y\xb7\0\x09W\xb1\0\
    \0\0\0\0\0";

const ONE_INT: &[u8] = b"\
    \xca\xfe\xba\xbe\0\0\04\0\x0c\x0a\0\x02\0\x03\x07\0\x04\x0c\0\x05\0\x06\x01\0\x10java/lang/Object\x01\0\x06<in\
    it>\x01\0\x03()V\x07\0\x08\x01\0\x01A\x01\0\x01x\x01\0\x01I\x01\0\x04Code\0\x20\0\x07\0\x02\0\0\0\x01\0\0\0\
    \x09\0\x0a\0\0\0\x01\0\0\0\x05\0\x06\0\x01\0\x0b\0\0\0\x11\0\x01\0\x01\0\0\0\x05*\xb7\0\x01\xb1\0\0\0\0\0\0";

/// Each takes 16 bytes.
#[test]
fn the_second_object_does_not_fit(rt: HostRuntime) -> Result<(), Fail> {
    let found = lines(rt.alloc(), SMALL_HEAP, "run 8\n", &[TWO_INTS, ONE_INT])?;
    assert_eq!(rt;
        found.as_slice(),
        b"main fail HeapFull Main.run()V 8\n".as_slice()
    );
    Ok(())
}

/// What javac 17 with `--release 8 -g:none` wrote of
///
///     class Main { static void run() { new B(); } }
///     class B { long x; long y; }
const ONCE: &[u8] = b"\
    \xca\xfe\xba\xbe\0\0\04\0\x0e\x0a\0\x02\0\x03\x07\0\x04\x0c\0\x05\0\x06\x01\0\x10java/lang/Object\x01\0\x06<in\
    it>\x01\0\x03()V\x07\0\x08\x01\0\x01B\x0a\0\x07\0\x03\x07\0\x0b\x01\0\x04Main\x01\0\x04Code\x01\0\x03run\0\x20\
    \0\x0a\0\x02\0\0\0\0\0\x02\0\0\0\x05\0\x06\0\x01\0\x0c\0\0\0\x11\0\x01\0\x01\0\0\0\x05*\xb7\0\x01\xb1\0\0\0\0\
    \0\x08\0\x0d\0\x06\0\x01\0\x0c\0\0\0\x15\0\x02\0\0\0\0\0\x09\xbb\0\x07Y\xb7\0\x09W\xb1\0\0\0\0\0\0";

const TWO_LONGS: &[u8] = b"\
    \xca\xfe\xba\xbe\0\0\04\0\x0d\x0a\0\x02\0\x03\x07\0\x04\x0c\0\x05\0\x06\x01\0\x10java/lang/Object\x01\0\x06<in\
    it>\x01\0\x03()V\x07\0\x08\x01\0\x01B\x01\0\x01x\x01\0\x01J\x01\0\x01y\x01\0\x04Code\0\x20\0\x07\0\x02\0\0\0\
    \x02\0\0\0\x09\0\x0a\0\0\0\0\0\x0b\0\x0a\0\0\0\x01\0\0\0\x05\0\x06\0\x01\0\x0c\0\0\0\x11\0\x01\0\x01\0\0\0\x05\
    *\xb7\0\x01\xb1\0\0\0\0\0\0";

#[test]
fn an_object_takes_all_of_a_heap(rt: HostRuntime) -> Result<(), Fail> {
    let found = lines(rt.alloc(), SMALL_HEAP, "run 1000\n", &[ONCE, TWO_LONGS])?;
    assert_eq!(rt; found.as_slice(), b"main TerminateTask 0\n".as_slice());
    Ok(())
}

/// What javac 17 with `--release 8 -g:none` wrote of
///
///     class Main { static native int get(); static void run() { get(); } }
const KEEPS: &[u8] = b"\
    \xca\xfe\xba\xbe\0\0\04\0\x0f\x0a\0\x02\0\x03\x07\0\x04\x0c\0\x05\0\x06\x01\0\x10java/lang/Object\x01\0\x06<in\
    it>\x01\0\x03()V\x0a\0\x08\0\x09\x07\0\x0a\x0c\0\x0b\0\x0c\x01\0\x04Main\x01\0\x03get\x01\0\x03()I\x01\0\x04Co\
    de\x01\0\x03run\0\x20\0\x08\0\x02\0\0\0\0\0\x03\0\0\0\x05\0\x06\0\x01\0\x0d\0\0\0\x11\0\x01\0\x01\0\0\0\x05*\
    \xb7\0\x01\xb1\0\0\0\0\x01\x08\0\x0b\0\x0c\0\0\0\x08\0\x0e\0\x06\0\x01\0\x0d\0\0\0\x11\0\x01\0\0\0\0\0\x05\xb8\
    \0\x07W\xb1\0\0\0\0\0\0";

const KEEPS_CONFIG: &str = "keso 1 order little
domain app heap 64
resource r1
task main domain app prio 1 acts 1 auto yes sched full entry Main.run
use main r1
native Main.get()I GetResource r1
";

#[test]
fn a_task_that_holds_a_resource_fails_at_its_end(rt: HostRuntime) -> Result<(), Fail> {
    let found = lines(rt.alloc(), KEEPS_CONFIG, "run 5\n", &[KEEPS])?;
    assert_eq!(rt;
        found.as_slice(),
        b"main GetResource r1 0\nmain TerminateTask 6\nmain fail HeldAtEnd\n".as_slice()
    );
    Ok(())
}

/// What javac 17 with `--release 8 -g:none` wrote of
///
///     class Main {
///         static native int cancel();
///         static native int set(int n, int c);
///         static void run() { cancel(); cancel(); set(0, 0); }
///     }
const CANCELS: &[u8] = b"\
    \xca\xfe\xba\xbe\0\0\04\0\x13\x0a\0\x02\0\x03\x07\0\x04\x0c\0\x05\0\x06\x01\0\x10java/lang/Object\x01\0\x06<in\
    it>\x01\0\x03()V\x0a\0\x08\0\x09\x07\0\x0a\x0c\0\x0b\0\x0c\x01\0\x04Main\x01\0\x06cancel\x01\0\x03()I\x0a\0\
    \x08\0\x0e\x0c\0\x0f\0\x10\x01\0\x03set\x01\0\x05(II)I\x01\0\x04Code\x01\0\x03run\0\x20\0\x08\0\x02\0\0\0\0\0\
    \x04\0\0\0\x05\0\x06\0\x01\0\x11\0\0\0\x11\0\x01\0\x01\0\0\0\x05*\xb7\0\x01\xb1\0\0\0\0\x01\x08\0\x0b\0\x0c\0\
    \0\x01\x08\0\x0f\0\x10\0\0\0\x08\0\x12\0\x06\0\x01\0\x11\0\0\0\x1b\0\x02\0\0\0\0\0\x0f\xb8\0\x07W\xb8\0\x07W\
    \x03\x03\xb8\0\x0dW\xb1\0\0\0\0\0\0";

const CANCELS_CONFIG: &str = "keso 1 order little
domain app heap 64
counter c max 1000 base 1 min 1
task x domain app prio 1 acts 1 auto yes sched full entry Main.run
alarm al counter c activate x
start al at 1 cycle 1
native Main.cancel()I CancelAlarm al
native Main.set(II)I SetRelAlarm al
";

const CANCELS_LINES: &str = "lost al
x CancelAlarm al 0
x CancelAlarm al 5
x SetRelAlarm al 0 0 8
x TerminateTask 0
";

#[test]
fn a_lost_action_is_shown(rt: HostRuntime) -> Result<(), Fail> {
    let found = lines(rt.alloc(), CANCELS_CONFIG, "tick c\nrun 10\n", &[CANCELS])?;
    assert_eq!(rt; found.as_slice(), CANCELS_LINES.as_bytes());
    Ok(())
}

/// What javac 17 with `--release 8 -g:none` wrote of
///
///     class Main {
///         static native int await();
///         static native int clear();
///         static native int set();
///         static void w() { await(); clear(); }
///         static void s() { set(); }
///     }
const AWAITS: &[u8] = b"\
    \xca\xfe\xba\xbe\0\0\04\0\x16\x0a\0\x02\0\x03\x07\0\x04\x0c\0\x05\0\x06\x01\0\x10java/lang/Object\x01\0\x06<in\
    it>\x01\0\x03()V\x0a\0\x08\0\x09\x07\0\x0a\x0c\0\x0b\0\x0c\x01\0\x04Main\x01\0\x05await\x01\0\x03()I\x0a\0\x08\
    \0\x0e\x0c\0\x0f\0\x0c\x01\0\x05clear\x0a\0\x08\0\x11\x0c\0\x12\0\x0c\x01\0\x03set\x01\0\x04Code\x01\0\x01w\
    \x01\0\x01s\0\x20\0\x08\0\x02\0\0\0\0\0\x06\0\0\0\x05\0\x06\0\x01\0\x13\0\0\0\x11\0\x01\0\x01\0\0\0\x05*\xb7\0\
    \x01\xb1\0\0\0\0\x01\x08\0\x0b\0\x0c\0\0\x01\x08\0\x0f\0\x0c\0\0\x01\x08\0\x12\0\x0c\0\0\0\x08\0\x14\0\x06\0\
    \x01\0\x13\0\0\0\x15\0\x01\0\0\0\0\0\x09\xb8\0\x07W\xb8\0\x0dW\xb1\0\0\0\0\0\x08\0\x15\0\x06\0\x01\0\x13\0\0\0\
    \x11\0\x01\0\0\0\0\0\x05\xb8\0\x10W\xb1\0\0\0\0\0\0";

const AWAITS_CONFIG: &str = "keso 1 order little
domain app heap 64
event go
task w domain app prio 2 acts 1 auto yes sched full entry Main.w
task s domain app prio 1 acts 1 auto yes sched full entry Main.s
wait w go
native Main.await()I WaitEvent go
native Main.clear()I ClearEvent go
native Main.set()I SetEvent w go
";

const AWAITS_LINES: &str = "w WaitEvent go 0
s SetEvent w go 0
w ClearEvent go 0
w TerminateTask 0
s TerminateTask 0
";

#[test]
fn an_event_wakes_who_awaits_it(rt: HostRuntime) -> Result<(), Fail> {
    let found = lines(rt.alloc(), AWAITS_CONFIG, "run 10\n", &[AWAITS])?;
    assert_eq!(rt; found.as_slice(), AWAITS_LINES.as_bytes());
    Ok(())
}

fn refusal_of(alloc: Global, config: &str, script: &str) -> Option<Stop> {
    lines(alloc, config, script, &[AGAIN]).err()
}

fn at_line(kind: Kind, line: u64) -> Option<Stop> {
    Some(Stop::Refused(Refusal {
        file: 0,
        kind,
        at: line,
    }))
}

const TOO_HIGH: &str = "keso 1 order little
domain app heap 64
task main domain app prio 64 acts 1 auto yes sched full entry Main.run
native Main.again()I ActivateTask main
";

#[test]
fn a_priority_of_64_is_refused(rt: HostRuntime) -> Result<(), Fail> {
    assert_eq!(rt;
        refusal_of(rt.alloc(), TOO_HIGH, ""),
        at_line(Kind::Range, 3)
    );
    Ok(())
}

const NO_DOMAIN: &str = "keso 1 order little
task main domain app prio 1 acts 1 auto yes sched full entry Main.run
native Main.again()I ActivateTask main
";

#[test]
fn a_domain_that_is_not_there_is_refused(rt: HostRuntime) -> Result<(), Fail> {
    assert_eq!(rt;
        refusal_of(rt.alloc(), NO_DOMAIN, ""),
        at_line(Kind::Unknown, 2)
    );
    Ok(())
}

#[test]
fn an_empty_configuration_is_refused(rt: HostRuntime) -> Result<(), Fail> {
    assert_eq!(rt; refusal_of(rt.alloc(), "", ""), at_line(Kind::Syntax, 1));
    Ok(())
}

const DEVICES: &str = "keso 1 order little
devices base 0 size 8
domain app heap 64
task main domain app prio 1 acts 1 auto yes sched full entry Main.run
native Main.again()I ActivateTask main
";

#[test]
fn a_poke_past_the_device_bytes_is_refused(rt: HostRuntime) -> Result<(), Fail> {
    assert_eq!(rt;
        refusal_of(rt.alloc(), DEVICES, "poke 8 01\n"),
        at_line(Kind::Range, 1)
    );
    Ok(())
}
