ghost use Rattle.std.specs.Prelude.{◌≡◌, true, false, codes, Some};
ghost use Rattle.kconfig.specs.Words.{is_name, is_entry, is_field, is_method, parts};

use kconfig::*;
use kes_text::{Kind, Refusal, Stop};
use std::alloc::Global;
use std::test::Fail;

/// What the definitions give at examples worked out by hand.
fn worked_examples()
    ensures last_dot { parts (codes "a.b.c") ≡ Some (codes "a.b", codes "c") }
    ensures entry { is_entry (codes "a/B.run") ≡ true }
    ensures digit_first { is_entry (codes "B.9") ≡ false }
    ensures no_class { is_field (codes ".x") ≡ false }
    ensures method { is_method (codes "B.n()I") ≡ true }
    ensures call_first { is_method (codes "B(n.I") ≡ false }
    ensures name { is_name (codes "t_1") ≡ true }
{}

#[test]
fn definitions_compute(_rt: HostRuntime) {
    worked_examples();
}

/// The refusal of a text, or None where it reads or there is no memory.
fn refusal_of(alloc: Global, text: &str) -> Option<(Kind, u64)> {
    match read_config(alloc, text.as_bytes()) {
        Err(Stop::Refused(Refusal { kind, at, .. })) => Some((kind, at)),
        _ => None,
    }
}

/// The refusal of a line that stands behind lines which declare one thing of each kind.
fn refusal_behind(alloc: Global, line: &str) -> Result<Option<(Kind, u64)>, Fail> {
    let text = format!(in alloc; "{DECLARED}{line}")?;
    Ok(refusal_of(alloc, &text))
}

const DECLARED: &str = "keso 1 order little
domain d heap 64
counter c max 100 base 1 min 5
event e
event f
resource r
task t domain d prio 1 acts 1 auto yes sched full entry a/B.run
task u domain d prio 2 acts 2 auto no sched non entry a/B.run
alarm a counter c activate t
object o class Port base 0
cell Port.out at 0 width 4
native A.n()I Schedule
";

/// The line behind these.
const NEXT: u64 = 13;

/// Lines that may stand behind these.
const LAWFUL: &str = "
devices base 0 size 0
devices base 4294967288 size 65536
domain dd heap 8388608
domain t heap 0x40
domain n2345678901234567890123456789012 heap 0
counter d max 2147483647 base 65535 min 2147483647
counter d max 1 base 1 min 1
event d
resource e
task v domain d prio 63 acts 15 auto no sched non entry a.b.run
task v domain d prio 0 acts 0001 auto no sched non entry B.run
use t r
wait t e
alarm b counter c activate u
start a at 1 cycle 0
start a at 100 cycle 5
start a at 0x64 cycle 0x64
native A.m()I ActivateTask t
native A.m()I TerminateTask
native A.m()I ChainTask t
native A.m()I GetResource r
native A.m()I ReleaseResource r
native A.m()I SetEvent t e
native A.m()I SetEvent t f+e
native A.m()I ClearEvent e+f
native A.m()I GetEvent t
native A.m()I WaitEvent f
native A.m(II)I SetRelAlarm a
native A.m(II)I SetAbsAlarm a
native A.m()I CancelAlarm a
native A.m()I GetAlarm a
cell Port.in at 65528 width 8
cell a.b.c at 3 width 1
object p class Port base 18446744073709551608
device A.p()LPort; o
portal A.q()I domain d target B.s()I limit 1
portal A.q()I domain d target B.s()I limit 256";

#[test]
fn lawful_lines_read(rt: HostRuntime) -> Result<(), Fail> {
    for line in LAWFUL.lines().chain([
        "wait t e\nalarm b counter c set t e",
        "alarm b counter c set t e\nwait t e",
    ]) {
        let text = format!(in rt.alloc(); "{DECLARED}{line}")?;
        assert!(rt; read_config(rt.alloc(), text.as_bytes()).is_ok(), "{line}");
    }
    Ok(())
}

/// Lines that have no form.
const OF_ANOTHER_FORM: &str = "keso 1 order little
nothing
Domain x heap 8
devices base 0 size
devices base 0 size 0 0
devices size 0 base 0
domain 9x heap 8
domain n23456789012345678901234567890123 heap 8
domain a-b heap 8
domain x heap -8
domain x heap 0x
domain x heap 0x12345678901234567
domain x heap 8x
domain x heap 0X8
counter x max 1 base 1
counter x max 1 min 1 base 1
event
event _x
event x y
resource 1
task v domain d prio 1 acts 1 auto y sched full entry A.b
task v domain d prio 1 acts 1 auto yes sched half entry A.b
task v domain d prio 1 acts 1 auto yes sched full entry b
task v domain d prio 1 acts 1 auto yes sched full entry .b
task v domain d prio 1 acts 1 auto yes sched full entry A.
task v domain d prio 1 acts 1 auto yes sched full entry A.9
task v domain d prio 1 acts 1 auto yes sched full
task v domain d acts 1 prio 1 auto yes sched full entry A.b
use t
use t r r
wait t
alarm b counter c
alarm b counter c activate
alarm b counter c activate t e
alarm b counter c set t
alarm b count c activate t
start a at 1
start a at x cycle 0
native A.m()I
native A.m()I Activate t
native A.m()I ActivateTask
native A.m()I ActivateTask t t
native A.m()I TerminateTask t
native A.m()I SetEvent t
native A.m()I SetEvent t e+e
native A.m()I SetEvent t e++f
native A.m()I ClearEvent +e
native A.m()I WaitEvent e+
native m()I Schedule
native A(m.I Schedule
native A.m\t()I Schedule
cell Port at 0 width 4
cell Port. at 0 width 4
cell .out at 0 width 4
cell Port.x at 0 width 3
cell Port.x at 0 width 04
object p class Port
object p class P\u{7f} base 0
device A.p o
device A.p()LPort; o o
portal A.q()I domain d target B.s limit 1
portal A.q()I domain d target B.s()I limit one
event\te";

#[test]
fn lines_of_another_form_are_syntax(rt: HostRuntime) -> Result<(), Fail> {
    for line in OF_ANOTHER_FORM.lines() {
        assert_eq!(rt;
            refusal_behind(rt.alloc(), line)?,
            Some((Kind::Syntax, NEXT)),
            "{line}"
        );
    }
    Ok(())
}

/// Lines with a number outside its bounds.
const OUTSIDE_BOUNDS: &str = "devices base 4 size 0
devices base 4294967296 size 0
devices base 0 size 12
devices base 0 size 65544
domain x heap 4
domain x heap 8388616
domain x heap 18446744073709551616
domain x heap 99999999999999999999999999999999999999999
counter x max 0 base 1 min 1
counter x max 2147483648 base 1 min 1
counter x max 9 base 0 min 1
counter x max 9 base 65536 min 1
counter x max 9 base 1 min 0
counter x max 9 base 1 min 10
task v domain d prio 64 acts 1 auto yes sched full entry A.b
task v domain d prio 1 acts 0 auto yes sched full entry A.b
task v domain d prio 1 acts 16 auto yes sched full entry A.b
wait u e
wait u nothing
start a at 0 cycle 0
start a at 101 cycle 0
start a at 1 cycle 4
start a at 1 cycle 101
start nothing at 18446744073709551616 cycle 0
start nothing at 0 cycle 18446744073709551616
cell Port.x at 65536 width 1
cell Port.x at 2 width 4
object p class Port base 4
object p class Port base 18446744073709551616
portal A.q()I domain d target B.s()I limit 0
portal A.q()I domain d target B.s()I limit 257";

#[test]
fn numbers_outside_their_bounds_are_range(rt: HostRuntime) -> Result<(), Fail> {
    for line in OUTSIDE_BOUNDS.lines() {
        assert_eq!(rt;
            refusal_behind(rt.alloc(), line)?,
            Some((Kind::Range, NEXT)),
            "{line}"
        );
    }
    Ok(())
}

/// Lines that declare what stands already.
const STANDING: &str = "domain d heap 8
counter c max 9 base 1 min 1
event e
resource r
task t domain nothing prio 1 acts 1 auto yes sched full entry A.b
alarm a counter nothing activate t
object o class Port base 8
cell Port.out at 4 width 4
native A.n()I ActivateTask nothing
device A.n()I nothing
portal A.n()I domain nothing target B.s()I limit 1";

#[test]
fn what_stands_already_is_twice(rt: HostRuntime) -> Result<(), Fail> {
    for line in STANDING.lines() {
        assert_eq!(rt;
            refusal_behind(rt.alloc(), line)?,
            Some((Kind::Twice, NEXT)),
            "{line}"
        );
    }
    for lines in [
        "use t r\nuse t r",
        "wait t e\nwait t e",
        "start a at 1 cycle 0\nstart a at 2 cycle 0",
        "device A.p()LPort; o\nnative A.p()LPort; Schedule",
        "portal A.q()I domain d target B.s()I limit 1\nportal A.q()I domain d target B.s()I limit 1",
    ] {
        assert_eq!(rt;
            refusal_behind(rt.alloc(), lines)?,
            Some((Kind::Twice, NEXT + 1)),
            "{lines}"
        );
    }
    Ok(())
}

/// Lines that name what is declared nowhere.
const UNDECLARED: &str = "task v domain x prio 1 acts 1 auto yes sched full entry A.b
use x r
use 9x r
use t x
wait x e
wait t x
alarm b counter x activate t
alarm b counter c activate x
alarm b counter c set x e
alarm b counter c set t x
alarm b counter c set t e
start x at 0 cycle 4
native A.m()I ActivateTask x
native A.m()I ChainTask e
native A.m()I GetEvent x
native A.m()I GetResource t
native A.m()I ReleaseResource x
native A.m()I SetEvent x e
native A.m()I SetEvent t e+x
native A.m()I ClearEvent r
native A.m()I WaitEvent e+9x
native A.m()I SetRelAlarm x
native A.m()I SetAbsAlarm x
native A.m()I CancelAlarm x
native A.m()I GetAlarm x
device A.p()LPort; x
portal A.q()I domain x target B.s()I limit 1";

#[test]
fn what_is_undeclared_is_unknown(rt: HostRuntime) -> Result<(), Fail> {
    for line in UNDECLARED
        .lines()
        .chain(["alarm b counter c set t e\nwait t f"])
    {
        assert_eq!(rt;
            refusal_behind(rt.alloc(), line)?,
            Some((Kind::Unknown, NEXT)),
            "{line}"
        );
    }
    Ok(())
}

/// The refusal of a text with `count` further lines, made of a text before and behind their numbers.
fn refusal_of_many(
    alloc: Global,
    before: &str,
    behind: &str,
    count: u64,
) -> Result<Option<(Kind, u64)>, Fail> {
    let mut text = format!(in alloc;
        "keso 1 order big\ndomain d heap 0\ncounter c max 1 base 1 min 1\ntask t domain d prio 1 acts 1 auto no sched full entry A.b\n"
    )?;
    for number in 0..count {
        let line = format!(in alloc; "{before}{number}{behind}\n")?;
        text.push_str(&line)?;
    }
    Ok(refusal_of(alloc, &text))
}

#[test]
fn one_line_more_than_the_limit_is_room(rt: HostRuntime) -> Result<(), Fail> {
    for (before, behind, most) in [
        ("domain x", " heap 8", 15),
        ("counter x", " max 1 base 1 min 1", 7),
        ("event x", "", 31),
        ("resource x", "", 32),
        (
            "task x",
            " domain d prio 1 acts 1 auto no sched full entry A.b",
            63,
        ),
        ("alarm x", " counter c activate t", 64),
        ("object x", " class P base 0", 64),
        ("portal A.x", "()I domain d target B.s()I limit 1", 256u16),
    ] {
        let most = u64::from(most);
        let lawful = refusal_of_many(rt.alloc(), before, behind, most)?;
        assert_eq!(rt; lawful, None, "{before}");
        let refused = refusal_of_many(rt.alloc(), before, behind, most + 1)?;
        assert_eq!(rt; refused, Some((Kind::Room, most + 5)), "{before}");
    }
    let twice = refusal_behind(rt.alloc(), "devices base 0 size 0\ndevices base 0 size 0")?;
    assert_eq!(rt; twice, Some((Kind::Room, NEXT + 1)));
    Ok(())
}

#[test]
fn the_first_of_several_faults_stands(rt: HostRuntime) -> Result<(), Fail> {
    for (line, kind) in [
        ("domain 9 heap 4", Kind::Syntax),
        ("domain d heap 4", Kind::Range),
        (
            "task t domain x prio 64 acts 1 auto no sched full entry A.b",
            Kind::Range,
        ),
        ("native A.n()I Nothing x", Kind::Syntax),
        ("event e\nnothing", Kind::Twice),
    ] {
        assert_eq!(rt;
            refusal_behind(rt.alloc(), line)?,
            Some((kind, NEXT)),
            "{line}"
        );
    }
    let full = refusal_of_many(rt.alloc(), "domain x0 heap 8\n#", "", 1)?;
    assert_eq!(rt; full, None);
    let room = refusal_of_many(rt.alloc(), "event x", "\ndomain x heap 8 #", 1)?;
    assert_eq!(rt; room, Some((Kind::Syntax, 6)));
    Ok(())
}

#[test]
fn the_first_line_is_the_keso_line(rt: HostRuntime) {
    for (text, at) in [
        ("", 1),
        ("\n", 2),
        ("# x\n\n  # y", 4),
        ("domain d heap 8\nkeso 1 order little\n", 1),
        ("\nkeso 01 order little\n", 2),
        ("keso 2 order little", 1),
        ("keso 1 order middle", 1),
        ("keso 1 order", 1),
        ("keso 1 order little\r", 1),
        ("keso 1 order little\r\r\n", 1),
        ("keso 1 order little\nkeso 1 order little", 2),
    ] {
        assert_eq!(rt;
            refusal_of(rt.alloc(), text),
            Some((Kind::Syntax, at)),
            "{text}"
        );
    }
}

const WHOLE: &str = "# blanks, comments and carriage returns\r
\r
  keso  1 order   big \r
devices base 0x10 size 16
domain d heap 64
event e
#event f
event f
resource r
counter c max 100 base 2 min 5\r
task t domain d prio 7 acts 1 auto yes sched non entry a/B.run
wait t f
use t r
alarm a counter c set t f
start a at 10 cycle 0x0A
native A.n()I SetEvent t f
cell Port.out at 4 width 2
object o class Port base 8
device A.p()LPort; o
portal A.q()I domain d target B.s()I limit 3";

#[test]
fn a_configuration_has_its_first_lines(rt: HostRuntime) -> Result<(), Fail> {
    let config = read_config(rt.alloc(), WHOLE.as_bytes())?;
    assert!(rt; config.keso.big);
    assert_eq!(rt; (config.keso.line, config.devices.line), (3, 4));
    assert_eq!(rt; (config.devices.base, config.devices.size), (16, 16));
    Ok(())
}

#[test]
fn a_configuration_has_its_task(rt: HostRuntime) -> Result<(), Fail> {
    let config = read_config(rt.alloc(), WHOLE.as_bytes())?;
    assert_eq!(rt;
        (config.tasks.len(), config.waits.len(), config.uses.len()),
        (1, 1, 1)
    );
    for task in config.tasks.as_slice() {
        assert_eq!(rt;
            (task.line, task.domain, task.prio, task.acts),
            (11, 0, 7, 1)
        );
        assert_eq!(rt; (task.auto, task.full), (true, false));
        assert_eq!(rt; task.name.as_slice(), b"t".as_slice());
        assert_eq!(rt; task.entry.as_slice(), b"a/B.run".as_slice());
    }
    for wait in config.waits.as_slice() {
        assert_eq!(rt; (wait.line, wait.task, wait.event), (12, 0, 1));
    }
    Ok(())
}

#[test]
fn a_configuration_has_its_alarm_and_its_native(rt: HostRuntime) -> Result<(), Fail> {
    let config = read_config(rt.alloc(), WHOLE.as_bytes())?;
    assert_eq!(rt;
        (
            config.alarms.len(),
            config.starts.len(),
            config.natives.len()
        ),
        (1, 1, 1)
    );
    for alarm in config.alarms.as_slice() {
        assert_eq!(rt; alarm.action, Action::Set { task: 0, event: 1 });
    }
    for start in config.starts.as_slice() {
        assert_eq!(rt;
            (start.line, start.alarm, start.first, start.cycle),
            (15, 0, 10, 10)
        );
    }
    for native in config.natives.as_slice() {
        assert_eq!(rt; native.service, Service::SetEvent { task: 0, mask: 2 });
    }
    Ok(())
}

#[test]
fn a_configuration_has_its_object_and_its_portal(rt: HostRuntime) -> Result<(), Fail> {
    let config = read_config(rt.alloc(), WHOLE.as_bytes())?;
    assert_eq!(rt;
        (
            config.cells.len(),
            config.objects.len(),
            config.portals.len()
        ),
        (1, 1, 1)
    );
    for cell in config.cells.as_slice() {
        assert_eq!(rt; (cell.line, cell.at, cell.width), (17, 4, 2));
    }
    for object in config.objects.as_slice() {
        assert_eq!(rt; object.class.as_slice(), b"Port".as_slice());
        assert_eq!(rt; object.base, 8);
    }
    for portal in config.portals.as_slice() {
        assert_eq!(rt; (portal.line, portal.domain, portal.limit), (20, 0, 3));
        assert_eq!(rt; portal.target.as_slice(), b"B.s()I".as_slice());
    }
    Ok(())
}
