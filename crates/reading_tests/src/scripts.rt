ghost use Rattle.std.specs.Prelude.{◌≡◌, length, IfOk};
ghost use Rattle.script.specs.Names.{AreFew};

use kes_text::{Kind, Refusal, Stop};
use osek_core::Call;
use script::*;
use sqlite_items::Items;
use std::alloc::{AllocError, Global};
use std::test::Fail;

fn two(alloc: Global, first: &str, second: &str) -> Result<Items<Items<u8>>, AllocError>
    ensures { IfOk result (λ names. length names ≡ 2) }
{
    let mut names = Items::new(alloc);
    names.push(Items::from_slice(alloc, first.as_bytes())?)?;
    names.push(Items::from_slice(alloc, second.as_bytes())?)?;
    Ok(names)
}

/// Two of each, and eight device bytes.
fn names(alloc: Global) -> Result<Names, AllocError>
    ensures { IfOk result AreFew }
{
    Ok(Names {
        tasks: two(alloc, "main", "low")?,
        resources: two(alloc, "bus", "lamp")?,
        events: two(alloc, "go", "stop")?,
        counters: two(alloc, "ms", "rpm")?,
        alarms: two(alloc, "beat", "late")?,
        methods: two(alloc, "Main.run()V", "A.b(I)I")?,
        devices: 8,
    })
}

/// The refusal of a script, or None where it reads or there is no memory.
fn refusal_of(names: &Names, alloc: Global, text: &str) -> Option<(Kind, u64)>
    requires { AreFew names.now }
{
    match read_script(alloc, text.as_bytes(), names, 5) {
        Err(Stop::Refused(Refusal { kind, at, .. })) => Some((kind, at)),
        _ => None,
    }
}

#[test]
fn lines_of_each_form_read(rt: HostRuntime) -> Result<(), Fail> {
    let names = names(rt.alloc())?;
    let text = b"run\r\n# twice\nrun 0x2\n\n tick  rpm\npoke 6 00fF";
    let lines = read_script(rt.alloc(), text, &names, 5)?;
    let steps = lines.iter().map(|line| (line.times, line.step));
    let expected = [
        (1, Move::Run),
        (2, Move::Run),
        (1, Move::Tick(1)),
        (
            1,
            Move::Poke {
                at: 6,
                bytes: PokeBytes {
                    len: 2,
                    bytes: [0, 255, 0, 0, 0, 0, 0, 0],
                },
            },
        ),
    ];
    assert!(rt; steps.eq(expected.iter().copied()));
    Ok(())
}

#[test]
fn each_fault_stands_at_its_line(rt: HostRuntime) -> Result<(), Fail> {
    let names = names(rt.alloc())?;
    for (text, kind, line) in [
        ("run\nwalk", Kind::Syntax, 2),
        ("run x", Kind::Syntax, 1),
        ("run 1 2", Kind::Syntax, 1),
        ("run 0", Kind::Range, 1),
        ("run 1000000000000000001", Kind::Range, 1),
        ("run 18446744073709551616", Kind::Range, 1),
        ("tick", Kind::Syntax, 1),
        ("tick ms ms", Kind::Syntax, 1),
        ("tick late 0", Kind::Range, 1),
        ("\ntick 9x", Kind::Unknown, 2),
        ("poke 0", Kind::Syntax, 1),
        ("poke 0 0", Kind::Syntax, 1),
        ("poke 0 0g", Kind::Syntax, 1),
        ("poke 0 001122334455667788", Kind::Syntax, 1),
        ("poke 0 00 00", Kind::Syntax, 1),
        ("poke 8 01", Kind::Range, 1),
        ("poke 7 0102", Kind::Range, 1),
        ("run 5\npoke 0 00", Kind::TooMany, 2),
        ("run 4\ntick ms 2\nwalk", Kind::TooMany, 2),
    ] {
        assert_eq!(rt; refusal_of(&names, rt.alloc(), text), Some((kind, line)));
    }
    Ok(())
}

fn line(times: u64, step: Move) -> Line {
    Line { times, step }
}

#[test]
fn equal_moves_are_written_as_one(rt: HostRuntime) -> Result<(), Fail> {
    let names = names(rt.alloc())?;
    let poke = Move::Poke {
        at: 5,
        bytes: PokeBytes {
            len: 2,
            bytes: [10, 255, 0, 0, 0, 0, 0, 0],
        },
    };
    let lines = [
        line(2, Move::Run),
        line(3, Move::Run),
        line(1, Move::Tick(0)),
        line(1, Move::Tick(1)),
        line(2, Move::Tick(1)),
        line(1, poke),
        line(1, poke),
        line(1_000_000_000_000_000_000, Move::Run),
        line(1, Move::Run),
    ];
    let text = write_script(rt.alloc(), &lines, &names)?;
    let expected =
        b"run 5\ntick ms 1\ntick rpm 3\npoke 5 0aff\npoke 5 0aff\nrun 1000000000000000000\nrun 1\n";
    assert_eq!(rt; text.as_slice(), expected.as_slice());
    Ok(())
}

#[test]
fn what_is_written_reads_back(rt: HostRuntime) -> Result<(), Fail> {
    let names = names(rt.alloc())?;
    let poke = Move::Poke {
        at: 5,
        bytes: PokeBytes {
            len: 3,
            bytes: [0, 10, 255, 0, 0, 0, 0, 0],
        },
    };
    let most = 1_000_000_000_000_000_000;
    let lines = [
        line(2, Move::Run),
        line(3, Move::Run),
        line(7, Move::Tick(1)),
        line(1, Move::Tick(0)),
        line(4, Move::Tick(0)),
        line(1, poke),
        line(1, poke),
        line(most, Move::Run),
        line(1, Move::Run),
    ];
    let joined = [
        line(5, Move::Run),
        line(7, Move::Tick(1)),
        line(5, Move::Tick(0)),
        line(1, poke),
        line(1, poke),
        line(most, Move::Run),
        line(1, Move::Run),
    ];
    let text = write_script(rt.alloc(), &lines, &names)?;
    let read = read_script(rt.alloc(), text.as_slice(), &names, 2 * most)?;
    assert_eq!(rt; read.as_slice(), joined.as_slice());
    Ok(())
}

fn service(call: Call, answer: i32) -> Event {
    Event::Service {
        who: Who::Task(1),
        call,
        answer,
    }
}

#[test]
fn services_are_shown_with_their_objects(rt: HostRuntime) -> Result<(), Fail> {
    let names = names(rt.alloc())?;
    for (call, words) in [
        (Call::ActivateTask { task: 0 }, "ActivateTask main"),
        (Call::TerminateTask, "TerminateTask"),
        (Call::ChainTask { task: 1 }, "ChainTask low"),
        (Call::Schedule, "Schedule"),
        (Call::GetResource { resource: 1 }, "GetResource lamp"),
        (Call::ReleaseResource { resource: 0 }, "ReleaseResource bus"),
        (Call::SetEvent { task: 0, mask: 3 }, "SetEvent main go+stop"),
        (Call::ClearEvent { mask: 2 }, "ClearEvent stop"),
        (Call::GetEvent { task: 0 }, "GetEvent main"),
        (Call::WaitEvent { mask: 1 }, "WaitEvent go"),
        (Call::CancelAlarm { alarm: 0 }, "CancelAlarm beat"),
        (Call::GetAlarm { alarm: 1 }, "GetAlarm late"),
    ] {
        let shown = event_line(rt.alloc(), &service(call, -4), &names)?;
        let expected = format!(in rt.alloc(); "low {words} -4")?;
        assert_eq!(rt; shown.as_slice(), expected.as_bytes());
    }
    Ok(())
}

#[test]
fn numbers_of_alarms_have_a_sign(rt: HostRuntime) -> Result<(), Fail> {
    let names = names(rt.alloc())?;
    let relative = Call::SetRelAlarm {
        alarm: 0,
        first: 7,
        cycle: 0xFFFF_FFFF,
    };
    let shown = event_line(rt.alloc(), &service(relative, 0), &names)?;
    assert_eq!(rt; shown.as_slice(), b"low SetRelAlarm beat 7 -1 0".as_slice());
    let absolute = Call::SetAbsAlarm {
        alarm: 1,
        first: 0,
        cycle: 0x8000_0000,
    };
    let shown = event_line(rt.alloc(), &service(absolute, 4), &names)?;
    assert_eq!(rt;
        shown.as_slice(),
        b"low SetAbsAlarm late 0 -2147483648 4".as_slice()
    );
    Ok(())
}

#[test]
fn other_events_are_shown(rt: HostRuntime) -> Result<(), Fail> {
    let names = names(rt.alloc())?;
    let who = Who::Start;
    let place = Some(Place { method: 1, pc: 12 });
    let read = Event::DevRead {
        who,
        at: 4,
        width: 8,
        value: u64::MAX,
    };
    let write = Event::DevWrite {
        who,
        at: 0,
        width: 1,
        value: 0,
    };
    let kind = FailKind::Null;
    let held = FailKind::HeldAtEnd;
    for (event, expected) in [
        (read, "start read 4 8 18446744073709551615"),
        (write, "start write 0 1 0"),
        (
            Event::Fail { who, kind, place },
            "start fail Null A.b(I)I 12",
        ),
        (
            Event::Fail {
                who: Who::Task(0),
                kind: held,
                place: None,
            },
            "main fail HeldAtEnd",
        ),
        (Event::Lost { alarm: 1 }, "lost late"),
        (Event::Stuck { who }, "start stuck"),
    ] {
        let shown = event_line(rt.alloc(), &event, &names)?;
        assert_eq!(rt; shown.as_slice(), expected.as_bytes());
    }
    Ok(())
}
