//! Events that are set, cleared and awaited.

use run_lines::lines;
use std::test::Fail;

/// What javac 17 with `--release 8 -g:none` wrote of
///
///     class Main {
///         static native int show(int a, int b);
///         static native int await();
///         static native int await_a();
///         static native int clear();
///         static native int clear_both();
///         static native int mask();
///         static native int own_mask();
///         static native int gone_mask();
///         static native int set();
///         static native int set_both();
///         static native int set_own();
///         static native int set_gone();
///         static native int wake();
///         static native int get();
///         static native int free();
///
///         static void idle() { }
///
///         static void w() {
///             await(); show(mask(), 1);
///             clear(); show(mask(), 2);
///             await(); show(mask(), 3);
///             get(); await(); free();
///             clear_both(); await(); show(mask(), 4);
///         }
///
///         static void s() {
///             show(mask(), 0);
///             set();
///             show(mask(), 0);
///             set_both();
///             show(mask(), 0);
///         }
///
///         static void x() { await_a(); }
///
///         static void t() {
///             await(); clear();
///             own_mask(); set_own();
///             set_gone(); gone_mask();
///             wake(); gone_mask(); wake();
///             set_gone();
///             wake(); gone_mask();
///         }
///     }
const MAIN: &[u8] = b"\
    \xca\xfe\xba\xbe\0\0\04\0>\x0a\0\x02\0\x03\x07\0\x04\x0c\0\x05\0\x06\x01\0\x10java/lang/Object\x01\0\x06<init>\
    \x01\0\x03()V\x0a\0\x08\0\x09\x07\0\x0a\x0c\0\x0b\0\x0c\x01\0\x04Main\x01\0\x05await\x01\0\x03()I\x0a\0\x08\0\
    \x0e\x0c\0\x0f\0\x0c\x01\0\x04mask\x0a\0\x08\0\x11\x0c\0\x12\0\x13\x01\0\x04show\x01\0\x05(II)I\x0a\0\x08\0\
    \x15\x0c\0\x16\0\x0c\x01\0\x05clear\x0a\0\x08\0\x18\x0c\0\x19\0\x0c\x01\0\x03get\x0a\0\x08\0\x1b\x0c\0\x1c\0\
    \x0c\x01\0\x04free\x0a\0\x08\0\x1e\x0c\0\x1f\0\x0c\x01\0\x0aclear_both\x0a\0\x08\0!\x0c\0\"\0\x0c\x01\0\x03set\
    \x0a\0\x08\0$\x0c\0%\0\x0c\x01\0\x08set_both\x0a\0\x08\0'\x0c\0(\0\x0c\x01\0\x07await_a\x0a\0\x08\0*\x0c\0+\0\
    \x0c\x01\0\x08own_mask\x0a\0\x08\0-\x0c\0.\0\x0c\x01\0\x07set_own\x0a\0\x08\00\x0c\01\0\x0c\x01\0\x08set_gone\
    \x0a\0\x08\03\x0c\04\0\x0c\x01\0\x09gone_mask\x0a\0\x08\06\x0c\07\0\x0c\x01\0\x04wake\x01\0\x04Code\x01\0\x04i\
    dle\x01\0\x01w\x01\0\x01s\x01\0\x01x\x01\0\x01t\0\x20\0\x08\0\x02\0\0\0\0\0\x15\0\0\0\x05\0\x06\0\x01\08\0\0\0\
    \x11\0\x01\0\x01\0\0\0\x05*\xb7\0\x01\xb1\0\0\0\0\x01\x08\0\x12\0\x13\0\0\x01\x08\0\x0b\0\x0c\0\0\x01\x08\0(\0\
    \x0c\0\0\x01\x08\0\x16\0\x0c\0\0\x01\x08\0\x1f\0\x0c\0\0\x01\x08\0\x0f\0\x0c\0\0\x01\x08\0+\0\x0c\0\0\x01\x08\
    \04\0\x0c\0\0\x01\x08\0\"\0\x0c\0\0\x01\x08\0%\0\x0c\0\0\x01\x08\0.\0\x0c\0\0\x01\x08\01\0\x0c\0\0\x01\x08\07\
    \0\x0c\0\0\x01\x08\0\x19\0\x0c\0\0\x01\x08\0\x1c\0\x0c\0\0\0\x08\09\0\x06\0\x01\08\0\0\0\x0d\0\0\0\0\0\0\0\x01\
    \xb1\0\0\0\0\0\x08\0:\0\x06\0\x01\08\0\0\0M\0\x02\0\0\0\0\0A\xb8\0\x07W\xb8\0\x0d\x04\xb8\0\x10W\xb8\0\x14W\
    \xb8\0\x0d\x05\xb8\0\x10W\xb8\0\x07W\xb8\0\x0d\x06\xb8\0\x10W\xb8\0\x17W\xb8\0\x07W\xb8\0\x1aW\xb8\0\x1dW\xb8\
    \0\x07W\xb8\0\x0d\x07\xb8\0\x10W\xb1\0\0\0\0\0\x08\0;\0\x06\0\x01\08\0\0\0-\0\x02\0\0\0\0\0!\xb8\0\x0d\x03\xb8\
    \0\x10W\xb8\0\x20W\xb8\0\x0d\x03\xb8\0\x10W\xb8\0#W\xb8\0\x0d\x03\xb8\0\x10W\xb1\0\0\0\0\0\x08\0<\0\x06\0\x01\
    \08\0\0\0\x11\0\x01\0\0\0\0\0\x05\xb8\0&W\xb1\0\0\0\0\0\x08\0=\0\x06\0\x01\08\0\0\0=\0\x01\0\0\0\0\01\xb8\0\
    \x07W\xb8\0\x14W\xb8\0)W\xb8\0,W\xb8\0/W\xb8\02W\xb8\05W\xb8\02W\xb8\05W\xb8\0/W\xb8\05W\xb8\02W\xb1\0\0\0\0\0\
    \0";

const CONFIG: &str = "keso 1 order little
domain app heap 0
counter c max 9 base 1 min 1
event a
event b
resource r
task idle domain app prio 0 acts 1 auto no sched full entry Main.idle
task w domain app prio 2 acts 1 auto yes sched full entry Main.w
task s domain app prio 1 acts 1 auto yes sched full entry Main.s
use w r
wait w a
wait w b
alarm al counter c activate idle
start al at 9 cycle 0
native Main.show(II)I SetRelAlarm al
native Main.await()I WaitEvent b+a
native Main.clear()I ClearEvent a
native Main.clear_both()I ClearEvent a+b
native Main.mask()I GetEvent w
native Main.set()I SetEvent w b
native Main.set_both()I SetEvent w a+b
native Main.get()I GetResource r
native Main.free()I ReleaseResource r
";

const LINES: &str = "w WaitEvent a+b 0
s GetEvent w 0
s SetRelAlarm al 0 0 7
s SetEvent w b 0
w GetEvent w 2
w SetRelAlarm al 2 1 7
w ClearEvent a 0
w GetEvent w 2
w SetRelAlarm al 2 2 7
w WaitEvent a+b 0
w GetEvent w 2
w SetRelAlarm al 2 3 7
w GetResource r 0
w WaitEvent a+b 6
w ReleaseResource r 0
w ClearEvent a+b 0
w WaitEvent a+b 0
s GetEvent w 0
s SetRelAlarm al 0 0 7
s SetEvent w a+b 0
w GetEvent w 3
w SetRelAlarm al 3 4 7
w TerminateTask 0
s GetEvent w -7
s SetRelAlarm al -7 0 7
s TerminateTask 0
";

#[test]
fn a_task_waits_until_one_of_its_events_is_set(rt: HostRuntime) -> Result<(), Fail> {
    let found = lines(rt.alloc(), CONFIG, "run 1000\n", &[MAIN])?;
    assert_eq!(rt; found.as_slice(), LINES.as_bytes());
    Ok(())
}

/// Task t is basic, and x extended.
const REFUSED: &str = "keso 1 order little
domain app heap 0
event a
event b
task t domain app prio 1 acts 1 auto yes sched full entry Main.t
task x domain app prio 2 acts 1 auto no sched full entry Main.x
wait x a
native Main.await()I WaitEvent a+b
native Main.await_a()I WaitEvent a
native Main.clear()I ClearEvent a
native Main.own_mask()I GetEvent t
native Main.gone_mask()I GetEvent x
native Main.set_own()I SetEvent t a
native Main.set_gone()I SetEvent x a
native Main.wake()I ActivateTask x
";

/// A new activation clears the events.
const REFUSED_LINES: &str = "t WaitEvent a+b 1
t ClearEvent a 1
t GetEvent t -1
t SetEvent t a 1
t SetEvent x a 7
t GetEvent x -7
t ActivateTask x 0
x WaitEvent a 0
t GetEvent x 0
t ActivateTask x 4
t SetEvent x a 0
x TerminateTask 0
t ActivateTask x 0
x WaitEvent a 0
t GetEvent x 0
t TerminateTask 0
";

#[test]
fn basic_and_suspended_tasks_have_no_events(rt: HostRuntime) -> Result<(), Fail> {
    let found = lines(rt.alloc(), REFUSED, "run 1000\n", &[MAIN])?;
    assert_eq!(rt; found.as_slice(), REFUSED_LINES.as_bytes());
    Ok(())
}
