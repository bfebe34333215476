//! Alarms and the ticks of their counters.

use run_lines::lines;
use std::test::Fail;

/// What javac 17 with `--release 8 -g:none` wrote of
///
///     class Main {
///         static native int set(int first, int cycle);
///         static native int at(int first, int cycle);
///         static native int cancel();
///         static native int get();
///         static native int await();
///
///         static void idle() { }
///         static void waits() { await(); }
///
///         static void sets() {
///             get(); cancel();
///             set(0, 0); set(6, 0); set(1, 1); set(1, 6); set(-1, 0); set(1, -1);
///             at(-1, 0); at(6, 0); at(1, 1);
///             set(5, 0); get(); set(5, 0); at(9, 9); cancel();
///             at(0, 0); get(); cancel();
///             at(3, 2); get();
///         }
///
///         static void wraps() { at(1, 0); get(); }
///     }
const MAIN: &[u8] = b"\
    \xca\xfe\xba\xbe\0\0\04\0\x1f\x0a\0\x02\0\x03\x07\0\x04\x0c\0\x05\0\x06\x01\0\x10java/lang/Object\x01\0\x06<in\
    it>\x01\0\x03()V\x0a\0\x08\0\x09\x07\0\x0a\x0c\0\x0b\0\x0c\x01\0\x04Main\x01\0\x05await\x01\0\x03()I\x0a\0\x08\
    \0\x0e\x0c\0\x0f\0\x0c\x01\0\x03get\x0a\0\x08\0\x11\x0c\0\x12\0\x0c\x01\0\x06cancel\x0a\0\x08\0\x14\x0c\0\x15\
    \0\x16\x01\0\x03set\x01\0\x05(II)I\x0a\0\x08\0\x18\x0c\0\x19\0\x16\x01\0\x02at\x01\0\x04Code\x01\0\x04idle\x01\
    \0\x05waits\x01\0\x04sets\x01\0\x05wraps\0\x20\0\x08\0\x02\0\0\0\0\0\x0a\0\0\0\x05\0\x06\0\x01\0\x1a\0\0\0\x11\
    \0\x01\0\x01\0\0\0\x05*\xb7\0\x01\xb1\0\0\0\0\x01\x08\0\x15\0\x16\0\0\x01\x08\0\x19\0\x16\0\0\x01\x08\0\x12\0\
    \x0c\0\0\x01\x08\0\x0f\0\x0c\0\0\x01\x08\0\x0b\0\x0c\0\0\0\x08\0\x1b\0\x06\0\x01\0\x1a\0\0\0\x0d\0\0\0\0\0\0\0\
    \x01\xb1\0\0\0\0\0\x08\0\x1c\0\x06\0\x01\0\x1a\0\0\0\x11\0\x01\0\0\0\0\0\x05\xb8\0\x07W\xb1\0\0\0\0\0\x08\0\
    \x1d\0\x06\0\x01\0\x1a\0\0\0\x82\0\x02\0\0\0\0\0v\xb8\0\x0dW\xb8\0\x10W\x03\x03\xb8\0\x13W\x10\x06\x03\xb8\0\
    \x13W\x04\x04\xb8\0\x13W\x04\x10\x06\xb8\0\x13W\x02\x03\xb8\0\x13W\x04\x02\xb8\0\x13W\x02\x03\xb8\0\x17W\x10\
    \x06\x03\xb8\0\x17W\x04\x04\xb8\0\x17W\x08\x03\xb8\0\x13W\xb8\0\x0dW\x08\x03\xb8\0\x13W\x10\x09\x10\x09\xb8\0\
    \x17W\xb8\0\x10W\x03\x03\xb8\0\x17W\xb8\0\x0dW\xb8\0\x10W\x06\x05\xb8\0\x17W\xb8\0\x0dW\xb1\0\0\0\0\0\x08\0\
    \x1e\0\x06\0\x01\0\x1a\0\0\0\x17\0\x02\0\0\0\0\0\x0b\x04\x03\xb8\0\x17W\xb8\0\x0dW\xb1\0\0\0\0\0\0";

const SETS: &str = "keso 1 order little
domain app heap 0
counter c max 5 base 1 min 2
task idle domain app prio 1 acts 1 auto no sched full entry Main.idle
task main domain app prio 2 acts 1 auto yes sched full entry Main.sets
alarm al counter c activate idle
native Main.set(II)I SetRelAlarm al
native Main.at(II)I SetAbsAlarm al
native Main.cancel()I CancelAlarm al
native Main.get()I GetAlarm al
";

/// The counter stands at 0, so the alarm that is set to 0 is due in 6 ticks.
const SETS_LINES: &str = "main GetAlarm al -5
main CancelAlarm al 5
main SetRelAlarm al 0 0 8
main SetRelAlarm al 6 0 8
main SetRelAlarm al 1 1 8
main SetRelAlarm al 1 6 8
main SetRelAlarm al -1 0 8
main SetRelAlarm al 1 -1 8
main SetAbsAlarm al -1 0 8
main SetAbsAlarm al 6 0 8
main SetAbsAlarm al 1 1 8
main SetRelAlarm al 5 0 0
main GetAlarm al 5
main SetRelAlarm al 5 0 7
main SetAbsAlarm al 9 9 7
main CancelAlarm al 0
main SetAbsAlarm al 0 0 0
main GetAlarm al 6
main CancelAlarm al 0
main SetAbsAlarm al 3 2 0
main GetAlarm al 3
main TerminateTask 0
idle TerminateTask 0
idle TerminateTask 0
";

/// The last alarm is due at the third tick and at the fifth.
#[test]
fn alarms_are_set_and_cancelled(rt: HostRuntime) -> Result<(), Fail> {
    let script = "run 1000\ntick c 2\nrun 9\ntick c\nrun 9\ntick c\nrun 9\ntick c\nrun 9\n";
    let found = lines(rt.alloc(), SETS, script, &[MAIN])?;
    assert_eq!(rt; found.as_slice(), SETS_LINES.as_bytes());
    Ok(())
}

const WRAPS: &str = "keso 1 order little
domain app heap 0
counter c max 5 base 1 min 1
task idle domain app prio 1 acts 1 auto no sched full entry Main.idle
task main domain app prio 2 acts 1 auto yes sched full entry Main.wraps
alarm al counter c activate idle
native Main.at(II)I SetAbsAlarm al
native Main.get()I GetAlarm al
";

/// The counter stands at 2, goes to 5 and from 0 to 1.
const WRAPS_LINES: [(&str, &str); 2] = [
    (
        "tick c 2\nrun 100\ntick c 4\nrun 9\n",
        "main SetAbsAlarm al 1 0 0\nmain GetAlarm al 5\nmain TerminateTask 0\n",
    ),
    (
        "tick c 2\nrun 100\ntick c 5\nrun 9\n",
        "main SetAbsAlarm al 1 0 0\nmain GetAlarm al 5\nmain TerminateTask 0\nidle TerminateTask 0\n",
    ),
];

#[test]
fn a_counter_goes_from_its_end_to_zero(rt: HostRuntime) -> Result<(), Fail> {
    for (script, wanted) in WRAPS_LINES {
        let found = lines(rt.alloc(), WRAPS, script, &[MAIN])?;
        assert_eq!(rt; found.as_slice(), wanted.as_bytes());
    }
    Ok(())
}

/// The alarm of the lower task acts first.
const TOGETHER: &str = "keso 1 order little
domain app heap 0
counter c max 5 base 1 min 1
task x domain app prio 1 acts 1 auto no sched full entry Main.idle
task y domain app prio 2 acts 1 auto no sched full entry Main.idle
alarm first counter c activate x
alarm second counter c activate y
start second at 2 cycle 2
start first at 2 cycle 2
";

#[test]
fn a_tick_dispatches_behind_all_its_actions(rt: HostRuntime) -> Result<(), Fail> {
    let found = lines(
        rt.alloc(),
        TOGETHER,
        "tick c\nrun 9\ntick c\nrun 9\n",
        &[MAIN],
    )?;
    assert_eq!(rt;
        found.as_slice(),
        b"y TerminateTask 0\nx TerminateTask 0\n".as_slice()
    );
    Ok(())
}

const LOST: &str = "y TerminateTask 0
lost first
lost first
lost second
y TerminateTask 0
x TerminateTask 0
";

/// At the fourth tick y has ended and x has not; at the sixth there is a job of each.
#[test]
fn lost_actions_are_shown_in_order(rt: HostRuntime) -> Result<(), Fail> {
    let script = "tick c 2\nrun 2\ntick c 2\ntick c 2\nrun 9\n";
    let found = lines(rt.alloc(), TOGETHER, script, &[MAIN])?;
    assert_eq!(rt; found.as_slice(), LOST.as_bytes());
    Ok(())
}

/// The task is activated by one alarm, and its event is set by the other.
const WOKEN: &str = "keso 1 order little
domain app heap 0
counter c max 5 base 1 min 1
event go
task w domain app prio 1 acts 1 auto no sched full entry Main.waits
wait w go
alarm wake counter c activate w
alarm ring counter c set w go
native Main.await()I WaitEvent go
";

/// When both start, and what is shown of a script.
const RINGS: [(&str, &str, &str); 3] = [
    (
        "start ring at 1 cycle 0\nstart wake at 1 cycle 0\n",
        "tick c\nrun 100\n",
        "w WaitEvent go 0\nw TerminateTask 0\n",
    ),
    (
        "start ring at 1 cycle 2\nstart wake at 2 cycle 0\n",
        "tick c 2\nrun 100\n",
        "lost ring\nw WaitEvent go 0\n",
    ),
    (
        "start ring at 1 cycle 2\nstart wake at 2 cycle 0\n",
        "tick c 2\nrun 100\ntick c\nrun 100\n",
        "lost ring\nw WaitEvent go 0\nw TerminateTask 0\n",
    ),
];

#[test]
fn alarms_set_events_of_tasks_that_are_there(rt: HostRuntime) -> Result<(), Fail> {
    for (starts, script, wanted) in RINGS {
        let config = format!(in rt.alloc(); "{WOKEN}{starts}")?;
        let found = lines(rt.alloc(), config.as_str(), script, &[MAIN])?;
        assert_eq!(rt; found.as_slice(), wanted.as_bytes());
    }
    Ok(())
}
