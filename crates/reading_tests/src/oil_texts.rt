ghost use Rattle.std.specs.Prelude.{◌≡◌};
ghost use Rattle.osek_model.specs.Call.{IsCallOf};

use kes_text::{Kind, NoMemory, Stop};
use oil_in::*;
use oil_out::print_oil;
use osek_core::Call;
use osek_model::Kernel;
use std::alloc::Global;
use std::test::Fail;

/// Two objects of each kind, with each form of each attribute.
const TWO_OF_EACH: &str = "OIL_VERSION = \"2.5\";
#include \"keso_impl.oil\"
CPU keso {
  OS os {
    STATUS = EXTENDED;
    STARTUPHOOK = TRUE;
    ERRORHOOK = FALSE;
    SHUTDOWNHOOK = FALSE;
    PRETASKHOOK = FALSE;
    POSTTASKHOOK = FALSE;
    USEGETSERVICEID = FALSE;
    USEPARAMETERACCESS = FALSE;
    USERESSCHEDULER = FALSE;
  };
  APPMODE mode { };
  EVENT e_go {
    MASK = 1;
  };
  EVENT e_halt {
    MASK = 2;
  };
  RESOURCE r_bus {
    RESOURCEPROPERTY = STANDARD;
  };
  RESOURCE r_led {
    RESOURCEPROPERTY = STANDARD;
  };
  COUNTER c_ms {
    MAXALLOWEDVALUE = 2147483647;
    TICKSPERBASE = 10;
    MINCYCLE = 2;
  };
  COUNTER c_turn {
    MAXALLOWEDVALUE = 359;
    TICKSPERBASE = 1;
    MINCYCLE = 5;
  };
  TASK t_idle {
    PRIORITY = 0;
    SCHEDULE = NON;
    ACTIVATION = 15;
    AUTOSTART = TRUE { APPMODE = mode; };
  };
  TASK t_main {
    PRIORITY = 63;
    SCHEDULE = FULL;
    ACTIVATION = 1;
    AUTOSTART = FALSE;
    RESOURCE = r_bus;
    RESOURCE = r_led;
    EVENT = e_go;
    EVENT = e_halt;
  };
  ALARM a_beat {
    COUNTER = c_turn;
    ACTION = SETEVENT { TASK = t_main; EVENT = e_halt; };
    AUTOSTART = FALSE;
  };
  ALARM a_once {
    COUNTER = c_turn;
    ACTION = ACTIVATETASK { TASK = t_idle; };
    AUTOSTART = TRUE { ALARMTIME = 7; CYCLETIME = 0; APPMODE = mode; };
  };
};
";

/// The text of the stored example, which has one task.
const STORED: &str =
    "OIL_VERSION = \"2.5\";\n#include \"keso_impl.oil\"\nCPU keso {\n  OS os {\n    STATUS = EXTENDED;\n    STARTUPHOOK = TRUE;\n    ERRORHOOK = FALSE;\n    SHUTDOWNHOOK = FALSE;\n    PRETASKHOOK = FALSE;\n    POSTTASKHOOK = FALSE;\n    USEGETSERVICEID = FALSE;\n    USEPARAMETERACCESS = FALSE;\n    USERESSCHEDULER = FALSE;\n  };\n  APPMODE mode { };\n  TASK t_main {\n    PRIORITY = 1;\n    SCHEDULE = FULL;\n    ACTIVATION = 1;\n    AUTOSTART = TRUE { APPMODE = mode; };\n  };\n};\n";

/// The text with other bytes in the place of a line and its line feed.
fn with_line(alloc: Global, number: u64, line: &str) -> Result<Vec<u8>, NoMemory> {
    let mut text = Vec::new(alloc);
    let mut at = 1u64;
    for other in TWO_OF_EACH.lines() {
        if at == number {
            text.extend_from_slice(line.as_bytes())?;
        } else {
            text.extend_from_slice(other.as_bytes())?;
            text.extend_from_slice(b"\n")?;
        }
        at = at.saturating_add(1);
    }
    Ok(text)
}

/// Why the text is refused, and at which line, if it is.
fn refusal_of(alloc: Global, text: &[u8]) -> Option<(Kind, u64)> {
    match read_oil(alloc, text) {
        Err(Stop::Refused(refusal)) => Some((refusal.kind, refusal.at)),
        _ => None,
    }
}

#[test]
fn what_is_read_prints_as_it_was(rt: HostRuntime) -> Result<(), Fail> {
    for text in [TWO_OF_EACH, STORED] {
        let tables = read_oil(rt.alloc(), text.as_bytes());
        assert!(rt; tables.is_ok());
        let Ok(tables) = tables else {
            continue;
        };
        let printed = print_oil(rt.alloc(), &tables)?;
        assert_eq!(rt; printed.as_slice(), text.as_bytes());
    }
    Ok(())
}

#[test]
fn the_stored_example_has_one_task(rt: HostRuntime) -> Result<(), Fail> {
    let Ok(tables) = read_oil(rt.alloc(), STORED.as_bytes()) else {
        assert!(rt; false);
        return Ok(());
    };
    assert_eq!(rt; tables.tasks.len(), 1);
    let Some(task) = tables.tasks.get(0) else {
        return Ok(());
    };
    assert_eq!(rt; task.name.text.as_slice(), b"main".as_slice());
    assert_eq!(rt; task.rule.priority, 1);
    assert!(rt; task.auto && task.rule.preemptable && !task.rule.extended);
    Ok(())
}

/// Lines in the place of others, with the fault that each shows.
const FAULTS: &[(u64, &str, Kind)] = &[
    (1, "OIL_VERSION = \"2.4\";\n", Kind::Syntax),
    (15, "  APPMODE  mode { };\n", Kind::Syntax),
    (16, "  EVENT e_9 {\n", Kind::Syntax),
    (
        16,
        "  EVENT e_a234567890123456789012345678901x3 {\n",
        Kind::Syntax,
    ),
    (17, "    MASK = 01;\n", Kind::Syntax),
    (17, "    MASK = ;\n", Kind::Syntax),
    (17, "    MASK = 4;\n", Kind::Syntax),
    (17, "    MASK = 18446744073709551616;\n", Kind::Range),
    (17, "    MASK = 018446744073709551616;\n", Kind::Syntax),
    (18, "  }\n", Kind::Syntax),
    (19, "  EVENT e_go {\n", Kind::Twice),
    (23, "    RESOURCEPROPERTY = LINKED;\n", Kind::Syntax),
    (25, "  RESOURCE r_bus {\n", Kind::Twice),
    (29, "    MAXALLOWEDVALUE = 2147483648;\n", Kind::Range),
    (29, "    MAXALLOWEDVALUE = 0;\n", Kind::Range),
    (30, "    TICKSPERBASE = 65536;\n", Kind::Range),
    (33, "  COUNTER c_ms {\n", Kind::Twice),
    (36, "    MINCYCLE = 360;\n", Kind::Range),
    (39, "    PRIORITY = 64;\n", Kind::Range),
    (39, "    PRIORITY = 00;\n", Kind::Syntax),
    (40, "    SCHEDULE = HALF;\n", Kind::Syntax),
    (41, "    ACTIVATION = 0;\n", Kind::Range),
    (41, "    ACTIVATION = 16;\n", Kind::Range),
    (42, "    AUTOSTART = TRUE;\n", Kind::Syntax),
    (44, "  TASK t_idle {\n", Kind::Twice),
    (50, "    RESOURCE = r_bus;\n", Kind::Syntax),
    (50, "    RESOURCE = r_none;\n", Kind::Unknown),
    (52, "    EVENT = e_go;\n", Kind::Syntax),
    (52, "    EVENT = e_bus;\n", Kind::Unknown),
    (55, "    COUNTER = c_ns;\n", Kind::Unknown),
    (55, "    COUNTER = c_9;\n", Kind::Syntax),
    (
        56,
        "    ACTION = ACTIVATETASK { TASK = t_none; };\n",
        Kind::Unknown,
    ),
    (
        56,
        "    ACTION = SETEVENT { TASK = t_idle; EVENT = e_halt; };\n",
        Kind::Unknown,
    ),
    (56, "    ACTION = ALARMCALLBACK { };\n", Kind::Syntax),
    (59, "  ALARM a_beat {\n", Kind::Twice),
    (
        62,
        "    AUTOSTART = TRUE { ALARMTIME = 360; CYCLETIME = 0; APPMODE = mode; };\n",
        Kind::Range,
    ),
    (
        62,
        "    AUTOSTART = TRUE { ALARMTIME = 0; CYCLETIME = 0; APPMODE = mode; };\n",
        Kind::Range,
    ),
    (
        62,
        "    AUTOSTART = TRUE { ALARMTIME = 7; CYCLETIME = 4; APPMODE = mode; };\n",
        Kind::Range,
    ),
    (64, "}; \n", Kind::Syntax),
    (64, "};", Kind::Syntax),
    (64, "", Kind::Syntax),
];

#[test]
fn each_line_has_its_faults(rt: HostRuntime) -> Result<(), Fail> {
    for (number, line, kind) in FAULTS {
        let text = with_line(rt.alloc(), *number, line)?;
        let refusal = refusal_of(rt.alloc(), text.as_slice());
        assert_eq!(rt; refusal, Some((*kind, *number)), "at {number}");
    }
    Ok(())
}

#[test]
fn faults_of_several_lines(rt: HostRuntime) -> Result<(), Fail> {
    for (number, lines, kind, at) in [
        (43, "    EVENT = e_go;\n  };\n", Kind::Range, 43),
        (43, "    EVENT = e_none;\n  };\n", Kind::Range, 43),
        (28, "  EVENT e_late {\n  COUNTER c_ms {\n", Kind::Syntax, 28),
        (64, "};\n};\n", Kind::Syntax, 65),
    ] {
        let text = with_line(rt.alloc(), number, lines)?;
        let refusal = refusal_of(rt.alloc(), text.as_slice());
        assert_eq!(rt; refusal, Some((kind, at)), "at {number}");
    }
    assert_eq!(rt; refusal_of(rt.alloc(), b""), Some((Kind::Syntax, 1)));
    Ok(())
}

/// The lines before the objects, and behind them this many events.
fn with_events(alloc: Global, count: u64, last: &str) -> Result<Vec<u8>, NoMemory> {
    let mut text = Vec::new(alloc);
    for line in TWO_OF_EACH.lines().take(15) {
        text.extend_from_slice(line.as_bytes())?;
        text.extend_from_slice(b"\n")?;
    }
    for place in 0..count {
        let mask = 1u64 << (place % 64);
        let event = format!(in alloc; "  EVENT e_a{place} {{\n    MASK = {mask};\n  }};\n")?;
        text.extend_from_slice(event.as_bytes())?;
    }
    text.extend_from_slice(last.as_bytes())?;
    Ok(text)
}

#[test]
fn there_is_room_for_31_events(rt: HostRuntime) -> Result<(), Fail> {
    let text = with_events(rt.alloc(), 31, "};\n")?;
    assert!(rt; read_oil(rt.alloc(), text.as_slice()).is_ok());
    let text = with_events(rt.alloc(), 31, "  EVENT e_a0 {\n")?;
    let refusal = refusal_of(rt.alloc(), text.as_slice());
    assert_eq!(rt; refusal, Some((Kind::Room, 109)));
    Ok(())
}

#[test]
fn the_worked_examples_hold(_rt: HostRuntime) {
    objects_are_read();
    pieces_are_read();
    first_faults();
}

/// What a service answers where a job runs, and whether the job has ended.
fn serve(kernel: &mut Kernel, call: Call) -> Option<(i32, bool)>
    requires objects { IsCallOf kernel.old.plan call }
    ensures { kernel.new.plan ≡ kernel.old.plan }
{
    match kernel.running() {
        None => None,
        Some(_) => {
            let answer = kernel.service(call);
            Some((answer.value, answer.ended))
        }
    }
}

#[test]
fn kernel_of_tables_that_are_read_runs(rt: HostRuntime) -> Result<(), Fail> {
    let tables = read_oil(rt.alloc(), TWO_OF_EACH.as_bytes())?;
    let mut kernel = Kernel::new(rt.alloc(), &tables)?;
    assert_eq!(rt; kernel.running(), None);
    kernel.start();
    assert_eq!(rt; kernel.running(), Some(0));
    assert_eq!(rt; serve(&mut kernel, Call::Schedule), Some((0, false)));
    assert_eq!(rt;
        serve(&mut kernel, Call::ClearEvent { mask: 1 }),
        Some((1, false))
    );
    assert_eq!(rt; serve(&mut kernel, Call::TerminateTask), Some((0, true)));
    assert_eq!(rt; kernel.running(), None);
    Ok(())
}
