use crate::status::Status;
use crate::top::keso;
use kes_outside::{MemFiles, MemSink};
use std::alloc::{AllocError, Global};
use std::test::Fail;

const CONFIG: &str =
    "keso 1 order little\ndomain app heap 64\ntask main domain app prio 1 acts 1 auto yes sched full entry Main.run\nnative Main.again()I ActivateTask main\n";

/// A class whose `run` calls the native `again`, drops its answer, and returns.
const CLASS: [u8; 138] = [
    0xca, 0xfe, 0xba, 0xbe, 0x00, 0x00, 0x00, 0x34, 0x00, 0x0c, 0x07, 0x00, 0x02, 0x01, 0x00, 0x04,
    0x4d, 0x61, 0x69, 0x6e, 0x07, 0x00, 0x04, 0x01, 0x00, 0x10, 0x6a, 0x61, 0x76, 0x61, 0x2f, 0x6c,
    0x61, 0x6e, 0x67, 0x2f, 0x4f, 0x62, 0x6a, 0x65, 0x63, 0x74, 0x01, 0x00, 0x05, 0x61, 0x67, 0x61,
    0x69, 0x6e, 0x01, 0x00, 0x03, 0x28, 0x29, 0x49, 0x01, 0x00, 0x03, 0x72, 0x75, 0x6e, 0x01, 0x00,
    0x03, 0x28, 0x29, 0x56, 0x01, 0x00, 0x04, 0x43, 0x6f, 0x64, 0x65, 0x0a, 0x00, 0x01, 0x00, 0x0b,
    0x0c, 0x00, 0x05, 0x00, 0x06, 0x00, 0x21, 0x00, 0x01, 0x00, 0x03, 0x00, 0x00, 0x00, 0x00, 0x00,
    0x02, 0x01, 0x09, 0x00, 0x05, 0x00, 0x06, 0x00, 0x00, 0x00, 0x09, 0x00, 0x07, 0x00, 0x08, 0x00,
    0x01, 0x00, 0x09, 0x00, 0x00, 0x00, 0x11, 0x00, 0x01, 0x00, 0x00, 0x00, 0x00, 0x00, 0x05, 0xb8,
    0x00, 0x0a, 0x57, 0xb1, 0x00, 0x00, 0x00, 0x00, 0x00, 0x00,
];

/// A class whose `run` jumps to its return, where a frame is declared.
const JUMP: [u8; 162] = [
    0xca, 0xfe, 0xba, 0xbe, 0x00, 0x00, 0x00, 0x34, 0x00, 0x0d, 0x07, 0x00, 0x02, 0x01, 0x00, 0x04,
    0x4d, 0x61, 0x69, 0x6e, 0x07, 0x00, 0x04, 0x01, 0x00, 0x10, 0x6a, 0x61, 0x76, 0x61, 0x2f, 0x6c,
    0x61, 0x6e, 0x67, 0x2f, 0x4f, 0x62, 0x6a, 0x65, 0x63, 0x74, 0x01, 0x00, 0x05, 0x61, 0x67, 0x61,
    0x69, 0x6e, 0x01, 0x00, 0x03, 0x28, 0x29, 0x49, 0x01, 0x00, 0x03, 0x72, 0x75, 0x6e, 0x01, 0x00,
    0x03, 0x28, 0x29, 0x56, 0x01, 0x00, 0x04, 0x43, 0x6f, 0x64, 0x65, 0x0a, 0x00, 0x01, 0x00, 0x0b,
    0x0c, 0x00, 0x05, 0x00, 0x06, 0x01, 0x00, 0x0d, 0x53, 0x74, 0x61, 0x63, 0x6b, 0x4d, 0x61, 0x70,
    0x54, 0x61, 0x62, 0x6c, 0x65, 0x00, 0x21, 0x00, 0x01, 0x00, 0x03, 0x00, 0x00, 0x00, 0x00, 0x00,
    0x02, 0x01, 0x09, 0x00, 0x05, 0x00, 0x06, 0x00, 0x00, 0x00, 0x09, 0x00, 0x07, 0x00, 0x08, 0x00,
    0x01, 0x00, 0x09, 0x00, 0x00, 0x00, 0x19, 0x00, 0x01, 0x00, 0x00, 0x00, 0x00, 0x00, 0x04, 0xa7,
    0x00, 0x03, 0xb1, 0x00, 0x00, 0x00, 0x01, 0x00, 0x0c, 0x00, 0x00, 0x00, 0x03, 0x00, 0x01, 0x03,
    0x00, 0x00,
];

/// The C behind the prologue.
const C_TEXT: &str =
    "#define KDEV 0ul\nDeclareTask(t_main);\nstatic W r0[8];\nstatic W f0(void);\nstatic W f0(void) {\n  W w0 = 0ull;\n  w0 = K_ActivateTask(t_main);\n  w0 = w0;\n  return 0ull;\n}\nvoid StartupHook(void) {\n}\nKTASK(t_main, f0)\n";

const OIL_TEXT: &str =
    "OIL_VERSION = \"2.5\";\n#include \"keso_impl.oil\"\nCPU keso {\n  OS os {\n    STATUS = EXTENDED;\n    STARTUPHOOK = TRUE;\n    ERRORHOOK = FALSE;\n    SHUTDOWNHOOK = FALSE;\n    PRETASKHOOK = FALSE;\n    POSTTASKHOOK = FALSE;\n    USEGETSERVICEID = FALSE;\n    USEPARAMETERACCESS = FALSE;\n    USERESSCHEDULER = FALSE;\n  };\n  APPMODE mode { };\n  TASK t_main {\n    PRIORITY = 1;\n    SCHEDULE = FULL;\n    ACTIVATION = 1;\n    AUTOSTART = TRUE { APPMODE = mode; };\n  };\n};\n";

const MAP_TEXT: &str =
    "keso map 1\norder little\ndevices 0\ndomains 1\nmethod 0 Main.run()V\nregion 0 heap 0\nfunction 0 0 method 0\nweights 1 1 1\n";

const LINES: &str = "methods 1\nchecks kept 0\nchecks removed 0\ndirect calls 0\n";

/// One call of the program over files and sinks in memory.
#[derive(Drop)]
struct Ran {
    status: Status,
    files: MemFiles,
    out: MemSink,
    err: MemSink,
}

fn file(alloc: Global, name: &str, bytes: &[u8]) -> Result<(String, Vec<u8>), AllocError> {
    Ok((
        String::from_str(alloc, name)?,
        Vec::from_slice(alloc, bytes)?,
    ))
}

fn strings(alloc: Global, words: &[&str]) -> Result<Vec<String>, AllocError> {
    let mut strings = Vec::new(alloc);
    for word in words {
        strings.push(String::from_str(alloc, word)?)?;
    }
    Ok(strings)
}

/// Which calls fail, of the files, of the output and of standard error.
#[derive(Clone, Copy)]
struct Failing<'a> {
    files: &'a [u64],
    out: &'a [u64],
    err: &'a [u64],
}

const NONE_FAILS: Failing<'static> = Failing {
    files: &[],
    out: &[],
    err: &[],
};

fn run(
    alloc: Global,
    words: &[&str],
    held: Vec<(String, Vec<u8>)>,
    failing: Failing<'_>,
) -> Result<Ran, AllocError> {
    let words = strings(alloc, words)?;
    let mut files = MemFiles::new(held, Vec::from_slice(alloc, failing.files)?);
    let mut out = MemSink::new(alloc, Vec::from_slice(alloc, failing.out)?);
    let mut err = MemSink::new(alloc, Vec::from_slice(alloc, failing.err)?);
    let status = keso(alloc, words.as_slice(), &mut files, &mut out, &mut err);
    Ok(Ran {
        status,
        files,
        out,
        err,
    })
}

/// The example, built into base `row`, from this configuration and these two classes.
fn build_of_two(
    alloc: Global,
    config: &str,
    class: &[u8],
    other: &[u8],
) -> Result<Ran, AllocError> {
    let held = vec![in alloc;
        file(alloc, "main.cfg", config.as_bytes())?,
        file(alloc, "Main.class", class)?,
        file(alloc, "Other.class", other)?,
    ]?;
    run(
        alloc,
        &[
            "build",
            "main.cfg",
            "Main.class",
            "Other.class",
            "-o",
            "row",
        ],
        held,
        NONE_FAILS,
    )
}

/// The example, built into base `row`, from this configuration and this class.
fn build_of(
    alloc: Global,
    config: &str,
    class: &[u8],
    failing: Failing<'_>,
) -> Result<Ran, AllocError> {
    let held = vec![in alloc;
        file(alloc, "main.cfg", config.as_bytes())?,
        file(alloc, "Main.class", class)?,
    ]?;
    run(
        alloc,
        &["build", "main.cfg", "Main.class", "-o", "row"],
        held,
        failing,
    )
}

fn has(ran: &Ran, name: &str, text: &str) -> bool {
    ran.files.get(name) == Some(text.as_bytes())
}

fn has_c(ran: &Ran) -> bool {
    match ran.files.get("row.c") {
        Some(text) => text.starts_with(b"/* KESO C 1 */\n#include <stdint.h>\n")
            && text.ends_with(C_TEXT.as_bytes()),
        None => false,
    }
}

#[test]
fn the_example_is_built(rt: HostRuntime) -> Result<(), Fail> {
    let ran = build_of(rt.alloc(), CONFIG, &CLASS, NONE_FAILS)?;
    assert_eq!(rt; ran.status, Status::Ok);
    assert_eq!(rt; ran.out.bytes(), LINES.as_bytes());
    assert_eq!(rt; ran.err.bytes().len(), 0);
    assert!(rt; has_c(&ran));
    assert!(rt; has(&ran, "row.oil", OIL_TEXT));
    assert!(rt; has(&ran, "row.map", MAP_TEXT));
    assert!(rt; has(&ran, "main.cfg", CONFIG));
    Ok(())
}

#[test]
fn words_that_are_no_command_touch_nothing(rt: HostRuntime) -> Result<(), Fail> {
    let alloc = rt.alloc();
    let some: [&[&str]; 10] = [
        &[],
        &["build", "a", "b"],
        &["build", "main.cfg", "-o", "row"],
        &["build", "main.cfg", "Main.class", "-o"],
        &["build", "main.cfg", "Main.class", "-o", "-row"],
        &["build", "", "Main.class", "-o", "row"],
        &["build", "main.cfg", "Main.class", "-other", "-o", "row"],
        &["trace", "main.cfg", "Main.class", "-o", "row"],
        &["trace", "main.cfg", "row.script"],
        &["trace", "main.cfg", "-s", "Main.class"],
    ];
    for words in some {
        let ran = run(alloc, words, Vec::new(alloc), NONE_FAILS)?;
        assert_eq!(rt; ran.status, Status::Usage);
        assert_eq!(rt;
            ran.err.bytes(),
            b"keso: the words are not a command\n".as_slice()
        );
        assert_eq!(rt; ran.out.bytes().len(), 0);
    }
    Ok(())
}

#[test]
fn a_file_that_is_not_there_is_named(rt: HostRuntime) -> Result<(), Fail> {
    let alloc = rt.alloc();
    let held = vec![in alloc; file(alloc, "main.cfg", CONFIG.as_bytes())?]?;
    let ran = run(
        alloc,
        &["build", "main.cfg", "Main.class", "-o", "row"],
        held,
        NONE_FAILS,
    )?;
    assert_eq!(rt; ran.status, Status::ReadFault);
    assert_eq!(rt;
        ran.err.bytes(),
        b"keso: cannot read Main.class\n".as_slice()
    );
    assert_eq!(rt; ran.files.get("row.c"), None);
    Ok(())
}

#[test]
fn each_read_and_write_may_fail(rt: HostRuntime) -> Result<(), Fail> {
    let alloc = rt.alloc();
    let cases = [
        (0, Status::ReadFault, "keso: cannot read main.cfg\n"),
        (1, Status::ReadFault, "keso: cannot read Main.class\n"),
        (2, Status::WriteFault, "keso: cannot write row.c\n"),
        (3, Status::WriteFault, "keso: cannot write row.oil\n"),
        (4, Status::WriteFault, "keso: cannot write row.map\n"),
    ];
    for (call, status, line) in cases {
        let failing = Failing {
            files: &[call],
            ..NONE_FAILS
        };
        let ran = build_of(alloc, CONFIG, &CLASS, failing)?;
        assert_eq!(rt; ran.status, status);
        assert_eq!(rt; ran.err.bytes(), line.as_bytes());
        assert_eq!(rt; ran.out.bytes().len(), 0);
        assert_eq!(rt; has_c(&ran), call > 2);
        assert_eq!(rt; has(&ran, "row.oil", OIL_TEXT), call > 3);
        assert_eq!(rt; ran.files.get("row.map"), None);
    }
    Ok(())
}

#[test]
fn an_output_that_fails_leaves_the_files_whole(rt: HostRuntime) -> Result<(), Fail> {
    let failing = Failing {
        out: &[0],
        ..NONE_FAILS
    };
    let ran = build_of(rt.alloc(), CONFIG, &CLASS, failing)?;
    assert_eq!(rt; ran.status, Status::WriteFault);
    assert_eq!(rt;
        ran.err.bytes(),
        b"keso: cannot write the output\n".as_slice()
    );
    assert!(rt; has_c(&ran) && has(&ran, "row.oil", OIL_TEXT) && has(&ran, "row.map", MAP_TEXT));
    Ok(())
}

#[test]
fn a_standard_error_that_fails_changes_no_status(rt: HostRuntime) -> Result<(), Fail> {
    let failing = Failing {
        err: &[0],
        ..NONE_FAILS
    };
    let ran = build_of(rt.alloc(), "", &CLASS, failing)?;
    assert_eq!(rt; ran.status, Status::Refused);
    assert_eq!(rt; ran.err.bytes().len(), 0);
    Ok(())
}

/// What standard error takes where this configuration is built with the example's class.
fn said_of(alloc: Global, config: &str) -> Result<Ran, AllocError> {
    build_of(alloc, config, &CLASS, NONE_FAILS)
}

#[test]
fn input_of_another_form_comes_later(rt: HostRuntime) -> Result<(), Fail> {
    let configs = [
        "keso 1 order little\n",
        "keso 1 order big\ndomain app heap 64\ntask main domain app prio 1 acts 1 auto yes sched full entry Main.run\nnative Main.again()I Schedule\n",
        "keso 1 order big\ndomain app heap 64\nresource r\ntask main domain app prio 1 acts 1 auto yes sched full entry Main.run\nnative Main.again()I ActivateTask main\n",
        "keso 1 order big\ndevices base 0 size 0\ndomain app heap 64\ntask main domain app prio 1 acts 1 auto yes sched full entry Main.run\nnative Main.again()I ActivateTask main\n",
    ];
    for config in configs {
        let ran = said_of(rt.alloc(), config)?;
        assert_eq!(rt; ran.status, Status::Refused);
        assert_eq!(rt; ran.err.bytes(), b"keso: main.cfg: Later at 0\n".as_slice());
        assert_eq!(rt; ran.files.get("row.c"), None);
    }
    Ok(())
}

#[test]
fn a_fault_of_the_configuration_comes_first(rt: HostRuntime) -> Result<(), Fail> {
    let cases = [
        ("", "keso: main.cfg: Syntax at 1\n"),
        ("keso 1 order middle\n", "keso: main.cfg: Syntax at 1\n"),
        (
            "keso 1 order big\ndomain app heap 63\n",
            "keso: main.cfg: Range at 2\n",
        ),
        (
            "keso 1 order big\n\nevent e\nevent e\n",
            "keso: main.cfg: Twice at 4\n",
        ),
        (
            "keso 1 order big\nuse t r\n",
            "keso: main.cfg: Unknown at 2\n",
        ),
    ];
    for (config, line) in cases {
        for class in [CLASS.as_slice(), &CLASS[..9]] {
            let ran = build_of(rt.alloc(), config, class, NONE_FAILS)?;
            assert_eq!(rt; ran.status, Status::Refused);
            assert_eq!(rt; ran.err.bytes(), line.as_bytes());
            assert_eq!(rt; ran.files.get("row.c"), None);
        }
    }
    Ok(())
}

#[test]
fn comments_and_returns_are_passed_over(rt: HostRuntime) -> Result<(), Fail> {
    let config =
        "# a row\r\n  keso  1 order little\r\n\ndomain app heap 0x40\ntask main domain app prio 1 acts 1 auto yes sched full entry Main.run\nnative Main.again()I ActivateTask main";
    let ran = said_of(rt.alloc(), config)?;
    assert_eq!(rt; ran.status, Status::Ok);
    assert!(rt; has_c(&ran) && has(&ran, "row.oil", OIL_TEXT) && has(&ran, "row.map", MAP_TEXT));
    Ok(())
}

/// The example with another byte at a place.
fn with_byte(at: usize, byte: u8) -> [u8; 138] {
    let mut bytes = CLASS;
    if at < 138 {
        bytes[at] = byte;
    }
    bytes
}

#[test]
fn a_fault_of_the_class_file_comes_before_later(rt: HostRuntime) -> Result<(), Fail> {
    let alloc = rt.alloc();
    let cases = [
        (0, 0xcb, "keso: Main.class: Magic at 0\n"),
        (7, 0x35, "keso: Main.class: Version at 6\n"),
        (10, 2, "keso: Main.class: PoolTag at 10\n"),
        (126, 0, "keso: Main.class: CodeLength at 123\n"),
        (12, 0, "keso: Main.class: PoolIndex at 11\n"),
        (84, 5, "keso: Main.class: BadDescriptor at 83\n"),
        (112, 0, "keso: Main.class: CodeCount at 105\n"),
    ];
    for (at, byte, line) in cases {
        for config in ["keso 1 order big\n", CONFIG] {
            let ran = build_of(alloc, config, &with_byte(at, byte), NONE_FAILS)?;
            assert_eq!(rt; ran.status, Status::Refused);
            assert_eq!(rt; ran.err.bytes(), line.as_bytes());
            assert_eq!(rt; ran.files.get("row.c"), None);
        }
    }
    let ran = build_of(alloc, CONFIG, &CLASS[..9], NONE_FAILS)?;
    assert_eq!(rt;
        ran.err.bytes(),
        b"keso: Main.class: Truncated at 9\n".as_slice()
    );
    Ok(())
}

#[test]
fn a_class_of_another_form_comes_later(rt: HostRuntime) -> Result<(), Fail> {
    let ran = build_of(rt.alloc(), CONFIG, &with_byte(130, 0x00), NONE_FAILS)?;
    assert_eq!(rt; ran.status, Status::Refused);
    assert_eq!(rt; ran.err.bytes(), b"keso: main.cfg: Later at 0\n".as_slice());
    Ok(())
}

#[test]
fn the_code_of_an_entry_is_checked(rt: HostRuntime) -> Result<(), Fail> {
    let alloc = rt.alloc();
    // fadd, pop2
    let cases = [
        (0x62, "keso: Main.class: Unsupported at 130\n"),
        (0x58, "keso: Main.class: Typing at 130\n"),
    ];
    for (byte, line) in cases {
        let ran = build_of(alloc, CONFIG, &with_byte(130, byte), NONE_FAILS)?;
        assert_eq!(rt; ran.status, Status::Refused);
        assert_eq!(rt; ran.err.bytes(), line.as_bytes());
        assert_eq!(rt; ran.files.get("row.c"), None);
    }
    Ok(())
}

#[test]
fn a_call_that_leads_back_is_refused(rt: HostRuntime) -> Result<(), Fail> {
    // The method calls itself, and drops nothing.
    let mut bytes = with_byte(130, 0x00);
    bytes[82] = 0x07;
    bytes[84] = 0x08;
    let ran = build_of(rt.alloc(), CONFIG, &bytes, NONE_FAILS)?;
    assert_eq!(rt; ran.status, Status::Refused);
    assert_eq!(rt;
        ran.err.bytes(),
        b"keso: Main.class: Recursive at 127\n".as_slice()
    );
    assert_eq!(rt; ran.files.get("row.c"), None);
    Ok(())
}

/// The class that jumps with another byte at a place.
fn jump_with_byte(at: usize, byte: u8) -> [u8; 162] {
    let mut bytes = JUMP;
    if at < 162 {
        bytes[at] = byte;
    }
    bytes
}

#[test]
fn the_frames_of_an_entry_are_checked(rt: HostRuntime) -> Result<(), Fail> {
    let alloc = rt.alloc();
    // The last has an attribute of another name in place of its StackMapTable.
    let cases = [
        (0, 0xca, "keso: main.cfg: Later at 0\n"),
        (159, 128, "keso: Main.class: FrameTag at 159\n"),
        (159, 2, "keso: Main.class: FramePlace at 159\n"),
        (88, b'T', "keso: Main.class: Typing at 143\n"),
    ];
    for (at, byte, line) in cases {
        let ran = build_of(alloc, CONFIG, &jump_with_byte(at, byte), NONE_FAILS)?;
        assert_eq!(rt; ran.status, Status::Refused);
        assert_eq!(rt; ran.err.bytes(), line.as_bytes());
    }
    Ok(())
}

#[test]
fn a_line_that_names_nothing_is_refused(rt: HostRuntime) -> Result<(), Fail> {
    let cases = [
        (
            "keso 1 order big\ndomain app heap 64\ntask main domain app prio 1 acts 1 auto yes sched full entry Main.stop\nnative Main.no()I ActivateTask main\n",
            "keso: main.cfg: NoEntry at 3\n",
        ),
        (
            "keso 1 order big\ndomain app heap 64\ntask main domain app prio 1 acts 1 auto yes sched full entry Main.run\nnative Main.no()I ActivateTask main\n",
            "keso: main.cfg: BadNative at 4\n",
        ),
    ];
    for (config, line) in cases {
        let ran = said_of(rt.alloc(), config)?;
        assert_eq!(rt; ran.status, Status::Refused);
        assert_eq!(rt; ran.err.bytes(), line.as_bytes());
    }
    Ok(())
}

#[test]
fn classes_that_are_no_world_are_refused(rt: HostRuntime) -> Result<(), Fail> {
    let alloc = rt.alloc();
    // `Nain` in place of `Main`, and `java/lang/Pbject` in place of `java/lang/Object`
    let cases = [
        (16, b'N', "keso: main.cfg: Later at 0\n"),
        (16, b'M', "keso: Other.class: Duplicate at 0\n"),
        (0, 0, "keso: Other.class: Magic at 0\n"),
    ];
    for (at, byte, line) in cases {
        let ran = build_of_two(alloc, CONFIG, &CLASS, &with_byte(at, byte))?;
        assert_eq!(rt; ran.status, Status::Refused);
        assert_eq!(rt; ran.err.bytes(), line.as_bytes());
    }
    let ran = build_of(
        alloc,
        "keso 1 order big\n",
        &with_byte(36, b'P'),
        NONE_FAILS,
    )?;
    assert_eq!(rt;
        ran.err.bytes(),
        b"keso: Main.class: MissingClass at 89\n".as_slice()
    );
    Ok(())
}

/// The example's class, traced under this configuration with this script.
fn trace_of(
    alloc: Global,
    config: &str,
    script: &str,
    failing: Failing<'_>,
) -> Result<Ran, AllocError> {
    let held = vec![in alloc;
        file(alloc, "main.cfg", config.as_bytes())?,
        file(alloc, "row.script", script.as_bytes())?,
        file(alloc, "Main.class", &CLASS)?,
    ]?;
    run(
        alloc,
        &["trace", "main.cfg", "row.script", "Main.class"],
        held,
        failing,
    )
}

const TRACED: &str = "main ActivateTask main 4\nmain TerminateTask 0\n";

#[test]
fn the_example_is_traced(rt: HostRuntime) -> Result<(), Fail> {
    for script in ["run 4\n", "run 1000000000000000000\n"] {
        let ran = trace_of(rt.alloc(), CONFIG, script, NONE_FAILS)?;
        assert_eq!(rt; ran.status, Status::Ok);
        assert_eq!(rt; ran.out.bytes(), TRACED.as_bytes());
        assert_eq!(rt; ran.err.bytes().len(), 0);
    }
    Ok(())
}

/// A configuration that isn't traced yet.
const DEVICES: &str =
    "keso 1 order big\ndevices base 0 size 0\ndomain app heap 64\ntask main domain app prio 1 acts 1 auto yes sched full entry Main.run\nnative Main.again()I ActivateTask main\n";

#[test]
fn a_fault_of_the_script_comes_before_later(rt: HostRuntime) -> Result<(), Fail> {
    let cases = [
        (
            CONFIG,
            "run 4\ntick c\n",
            "keso: row.script: Unknown at 2\n",
        ),
        (DEVICES, "tick c\n", "keso: row.script: Unknown at 1\n"),
        (DEVICES, "run 4\n", "keso: main.cfg: Later at 0\n"),
        (
            "keso 1 order middle\n",
            "tick c\n",
            "keso: main.cfg: Syntax at 1\n",
        ),
        (
            CONFIG,
            "run 1000000000000000000\nrun\n",
            "keso: row.script: TooMany at 2\n",
        ),
    ];
    for (config, script, line) in cases {
        let ran = trace_of(rt.alloc(), config, script, NONE_FAILS)?;
        assert_eq!(rt; ran.status, Status::Refused);
        assert_eq!(rt; ran.err.bytes(), line.as_bytes());
        assert_eq!(rt; ran.out.bytes().len(), 0);
    }
    Ok(())
}

#[test]
fn each_read_of_a_trace_may_fail(rt: HostRuntime) -> Result<(), Fail> {
    let cases = [
        (0, "keso: cannot read main.cfg\n"),
        (1, "keso: cannot read row.script\n"),
        (2, "keso: cannot read Main.class\n"),
    ];
    for (call, line) in cases {
        let failing = Failing {
            files: &[call],
            ..NONE_FAILS
        };
        let ran = trace_of(rt.alloc(), CONFIG, "run 4\n", failing)?;
        assert_eq!(rt; ran.status, Status::ReadFault);
        assert_eq!(rt; ran.err.bytes(), line.as_bytes());
        assert_eq!(rt; ran.out.bytes().len(), 0);
    }
    Ok(())
}

#[test]
fn an_output_that_fails_has_the_lines_before(rt: HostRuntime) -> Result<(), Fail> {
    let failing = Failing {
        out: &[1],
        ..NONE_FAILS
    };
    let ran = trace_of(rt.alloc(), CONFIG, "run 4\n", failing)?;
    assert_eq!(rt; ran.status, Status::WriteFault);
    assert_eq!(rt; ran.out.bytes(), b"main ActivateTask main 4\n".as_slice());
    assert_eq!(rt;
        ran.err.bytes(),
        b"keso: cannot write the output\n".as_slice()
    );
    Ok(())
}
