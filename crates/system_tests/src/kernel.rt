//! Tasks that preempt each other, with resources.

use kes_text::Stop;
use run_lines::{entry_lines, lines};
use std::alloc::Global;
use std::test::Fail;

const CONFIG: &str = "keso 1 order little
domain app heap 0
counter c max 9 base 1 min 1
resource r
resource s
task idle domain app prio 0 acts 1 auto no sched full entry Main.idle
task high domain app prio 3 acts 1 auto no sched full entry Main.count
use high r
use idle s
alarm al counter c activate idle
start al at 9 cycle 0
native Main.show(II)I SetRelAlarm al
native Main.high()I ActivateTask high
native Main.chain_high()I ChainTask high
native Main.schedule()I Schedule
native Main.end()I TerminateTask
native Main.get()I GetResource r
native Main.free()I ReleaseResource r
native Main.get_other()I GetResource s
native Main.free_other()I ReleaseResource s
";

/// What javac 17 with `--release 8 -g:none` wrote of
///
///     class Main {
///         static native int show(int a, int b);
///         static native int high();
///         static native int low();
///         static native int chain_high();
///         static native int chain_low();
///         static native int schedule();
///         static native int end();
///         static native int get();
///         static native int free();
///         static native int get_other();
///         static native int free_other();
///         static int n;
///
///         static void idle() { }
///         static void count() { n = n + 1; show(n, 0); }
///
///         static void activates() { show(1, 1); high(); show(2, 2); }
///         static void schedules() { high(); show(1, 1); schedule(); show(2, 2); }
///         static void holds() { get(); high(); show(1, 1); schedule(); chain_high(); end(); free(); show(2, 2); }
///         static void nests() { get(); get(); get_other(); free(); free_other(); free(); free(); }
///         static void thrice() { if (n == 0) { n = 1; low(); low(); low(); } }
///         static void itself() { n = n + 1; if (n < 3) chain_low(); show(n, n); }
///         static void chains() { low(); chain_low(); show(1, 1); chain_high(); show(2, 2); }
///         static void ends() { show(1, 1); end(); show(2, 2); }
///     }
const MAIN: &[u8] = b"\
    \xca\xfe\xba\xbe\0\0\04\0<\x0a\0\x02\0\x03\x07\0\x04\x0c\0\x05\0\x06\x01\0\x10java/lang/Object\x01\0\x06<init>\
    \x01\0\x03()V\x09\0\x08\0\x09\x07\0\x0a\x0c\0\x0b\0\x0c\x01\0\x04Main\x01\0\x01n\x01\0\x01I\x0a\0\x08\0\x0e\
    \x0c\0\x0f\0\x10\x01\0\x04show\x01\0\x05(II)I\x0a\0\x08\0\x12\x0c\0\x13\0\x14\x01\0\x04high\x01\0\x03()I\x0a\0\
    \x08\0\x16\x0c\0\x17\0\x14\x01\0\x08schedule\x0a\0\x08\0\x19\x0c\0\x1a\0\x14\x01\0\x03get\x0a\0\x08\0\x1c\x0c\
    \0\x1d\0\x14\x01\0\x0achain_high\x0a\0\x08\0\x1f\x0c\0\x20\0\x14\x01\0\x03end\x0a\0\x08\0\"\x0c\0#\0\x14\x01\0\
    \x04free\x0a\0\x08\0%\x0c\0&\0\x14\x01\0\x09get_other\x0a\0\x08\0(\x0c\0)\0\x14\x01\0\x0afree_other\x0a\0\x08\
    \0+\x0c\0,\0\x14\x01\0\x03low\x0a\0\x08\0.\x0c\0/\0\x14\x01\0\x09chain_low\x01\0\x04Code\x01\0\x04idle\x01\0\
    \x05count\x01\0\x09activates\x01\0\x09schedules\x01\0\x05holds\x01\0\x05nests\x01\0\x06thrice\x01\0\x0dStackMa\
    pTable\x01\0\x06itself\x01\0\x06chains\x01\0\x04ends\0\x20\0\x08\0\x02\0\0\0\x01\0\x08\0\x0b\0\x0c\0\0\0\x16\0\
    \0\0\x05\0\x06\0\x01\00\0\0\0\x11\0\x01\0\x01\0\0\0\x05*\xb7\0\x01\xb1\0\0\0\0\x01\x08\0\x0f\0\x10\0\0\x01\x08\
    \0\x13\0\x14\0\0\x01\x08\0,\0\x14\0\0\x01\x08\0\x1d\0\x14\0\0\x01\x08\0/\0\x14\0\0\x01\x08\0\x17\0\x14\0\0\x01\
    \x08\0\x20\0\x14\0\0\x01\x08\0\x1a\0\x14\0\0\x01\x08\0#\0\x14\0\0\x01\x08\0&\0\x14\0\0\x01\x08\0)\0\x14\0\0\0\
    \x08\01\0\x06\0\x01\00\0\0\0\x0d\0\0\0\0\0\0\0\x01\xb1\0\0\0\0\0\x08\02\0\x06\0\x01\00\0\0\0\x1d\0\x02\0\0\0\0\
    \0\x11\xb2\0\x07\x04`\xb3\0\x07\xb2\0\x07\x03\xb8\0\x0dW\xb1\0\0\0\0\0\x08\03\0\x06\0\x01\00\0\0\0\x1d\0\x02\0\
    \0\0\0\0\x11\x04\x04\xb8\0\x0dW\xb8\0\x11W\x05\x05\xb8\0\x0dW\xb1\0\0\0\0\0\x08\04\0\x06\0\x01\00\0\0\0!\0\x02\
    \0\0\0\0\0\x15\xb8\0\x11W\x04\x04\xb8\0\x0dW\xb8\0\x15W\x05\x05\xb8\0\x0dW\xb1\0\0\0\0\0\x08\05\0\x06\0\x01\00\
    \0\0\01\0\x02\0\0\0\0\0%\xb8\0\x18W\xb8\0\x11W\x04\x04\xb8\0\x0dW\xb8\0\x15W\xb8\0\x1bW\xb8\0\x1eW\xb8\0!W\x05\
    \x05\xb8\0\x0dW\xb1\0\0\0\0\0\x08\06\0\x06\0\x01\00\0\0\0)\0\x01\0\0\0\0\0\x1d\xb8\0\x18W\xb8\0\x18W\xb8\0$W\
    \xb8\0!W\xb8\0'W\xb8\0!W\xb8\0!W\xb1\0\0\0\0\0\x08\07\0\x06\0\x01\00\0\0\0,\0\x01\0\0\0\0\0\x17\xb2\0\x07\x9a\
    \0\x13\x04\xb3\0\x07\xb8\0*W\xb8\0*W\xb8\0*W\xb1\0\0\0\x01\08\0\0\0\x03\0\x01\x16\0\x08\09\0\x06\0\x01\00\0\0\
    \03\0\x02\0\0\0\0\0\x1e\xb2\0\x07\x04`\xb3\0\x07\xb2\0\x07\x06\xa2\0\x07\xb8\0-W\xb2\0\x07\xb2\0\x07\xb8\0\x0d\
    W\xb1\0\0\0\x01\08\0\0\0\x03\0\x01\x13\0\x08\0:\0\x06\0\x01\00\0\0\0%\0\x02\0\0\0\0\0\x19\xb8\0*W\xb8\0-W\x04\
    \x04\xb8\0\x0dW\xb8\0\x1bW\x05\x05\xb8\0\x0dW\xb1\0\0\0\0\0\x08\0;\0\x06\0\x01\00\0\0\0\x1d\0\x02\0\0\0\0\0\
    \x11\x04\x04\xb8\0\x0dW\xb8\0\x1eW\x05\x05\xb8\0\x0dW\xb1\0\0\0\0\0\0";

/// The lines of the run of a task `low` of this rule, with this entry.
fn low_lines(alloc: Global, rule: &str, entry: &str) -> Result<Vec<u8>, Stop> {
    let config = format!(in alloc;
        "{CONFIG}task low domain app {rule} entry Main.{entry}\nuse low r\nnative Main.low()I ActivateTask low\nnative Main.chain_low()I ChainTask low\n"
    )?;
    lines(alloc, config.as_str(), "run 1000\n", &[MAIN])
}

const FULL: &str = "prio 1 acts 1 auto yes sched full";

const ACTIVATES: &str = "low SetRelAlarm al 1 1 7
low ActivateTask high 0
high SetRelAlarm al 1 0 7
high TerminateTask 0
low SetRelAlarm al 2 2 7
low TerminateTask 0
";

#[test]
fn an_activated_task_preempts(rt: HostRuntime) -> Result<(), Fail> {
    let found = low_lines(rt.alloc(), FULL, "activates")?;
    assert_eq!(rt; found.as_slice(), ACTIVATES.as_bytes());
    Ok(())
}

const SCHEDULES: &str = "low ActivateTask high 0
low SetRelAlarm al 1 1 7
low Schedule 0
high SetRelAlarm al 1 0 7
high TerminateTask 0
low SetRelAlarm al 2 2 7
low TerminateTask 0
";

#[test]
fn a_task_that_is_not_preempted_gives_way_at_schedule(rt: HostRuntime) -> Result<(), Fail> {
    let found = low_lines(rt.alloc(), "prio 1 acts 1 auto yes sched non", "schedules")?;
    assert_eq!(rt; found.as_slice(), SCHEDULES.as_bytes());
    Ok(())
}

const HOLDS: &str = "low GetResource r 0
low ActivateTask high 0
low SetRelAlarm al 1 1 7
low Schedule 6
low ChainTask high 6
low TerminateTask 6
low ReleaseResource r 0
high SetRelAlarm al 1 0 7
high TerminateTask 0
low SetRelAlarm al 2 2 7
low TerminateTask 0
";

#[test]
fn a_held_resource_keeps_a_task_in_front(rt: HostRuntime) -> Result<(), Fail> {
    let found = low_lines(rt.alloc(), FULL, "holds")?;
    assert_eq!(rt; found.as_slice(), HOLDS.as_bytes());
    Ok(())
}

/// The ceiling of r is 3, and that of s is 0.
const NESTS: &str = "low GetResource r 0
low GetResource r 1
low GetResource s 1
low ReleaseResource r 0
low ReleaseResource s 1
low ReleaseResource r 5
low ReleaseResource r 5
low TerminateTask 0
";

#[test]
fn resources_that_may_not_be_had_are_refused(rt: HostRuntime) -> Result<(), Fail> {
    let found = low_lines(rt.alloc(), FULL, "nests")?;
    assert_eq!(rt; found.as_slice(), NESTS.as_bytes());
    Ok(())
}

const NESTED: &str = "low GetResource r 0
low GetResource r 1
low GetResource s 0
low ReleaseResource r 5
low ReleaseResource s 0
low ReleaseResource r 0
low ReleaseResource r 5
low TerminateTask 0
";

#[test]
fn the_resource_taken_last_is_released_first(rt: HostRuntime) -> Result<(), Fail> {
    let found = low_lines(rt.alloc(), "prio 0 acts 1 auto yes sched full", "nests")?;
    assert_eq!(rt; found.as_slice(), NESTED.as_bytes());
    Ok(())
}

const THRICE: &str = "low ActivateTask low 0
low ActivateTask low 0
low ActivateTask low 4
low TerminateTask 0
low TerminateTask 0
low TerminateTask 0
";

/// Only the first job activates the task, which has three activations.
#[test]
fn an_activation_past_the_limit_is_refused(rt: HostRuntime) -> Result<(), Fail> {
    let found = low_lines(rt.alloc(), "prio 1 acts 3 auto yes sched full", "thrice")?;
    assert_eq!(rt; found.as_slice(), THRICE.as_bytes());
    Ok(())
}

const ITSELF: &str = "low ChainTask low 0
low ChainTask low 0
low SetRelAlarm al 3 3 7
low TerminateTask 0
";

#[test]
fn a_task_chains_itself(rt: HostRuntime) -> Result<(), Fail> {
    let found = low_lines(rt.alloc(), FULL, "itself")?;
    assert_eq!(rt; found.as_slice(), ITSELF.as_bytes());
    Ok(())
}

const ENDS: &str = "low SetRelAlarm al 1 1 7
low TerminateTask 0
";

#[test]
fn a_task_ends_where_it_says(rt: HostRuntime) -> Result<(), Fail> {
    let found = low_lines(rt.alloc(), FULL, "ends")?;
    assert_eq!(rt; found.as_slice(), ENDS.as_bytes());
    Ok(())
}

/// What is chained has all its activations already; then the task ends with another one.
const CHAINS: &str = "top ActivateTask low 0
top ChainTask low 4
top SetRelAlarm al 1 1 7
top ChainTask high 0
high SetRelAlarm al 1 0 7
high TerminateTask 0
low TerminateTask 0
";

const CHAINS_CONFIG: &str = "keso 1 order little
domain app heap 0
counter c max 9 base 1 min 1
task low domain app prio 1 acts 1 auto no sched full entry Main.idle
task high domain app prio 3 acts 1 auto no sched full entry Main.count
alarm al counter c activate low
start al at 9 cycle 0
native Main.show(II)I SetRelAlarm al
native Main.low()I ActivateTask low
native Main.chain_low()I ChainTask low
native Main.chain_high()I ChainTask high
task top domain app prio 2 acts 1 auto yes sched full entry Main.";

#[test]
fn a_task_ends_with_what_it_chains(rt: HostRuntime) -> Result<(), Fail> {
    let found = entry_lines(rt.alloc(), CHAINS_CONFIG, "chains\n", &[MAIN])?;
    assert_eq!(rt; found.as_slice(), CHAINS.as_bytes());
    Ok(())
}
