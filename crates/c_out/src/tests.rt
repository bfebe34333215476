use crate::expression::append_expression;
use crate::print_c;
use crate::prologue::prologue_text;
use csubset::{
    Atom, CFunction, CProgram, CRegion, CService, CTask, Expr, Form, OneOp, Stmt, TwoOp,
};
use sqlite_items::{Boxed, Items};
use std::alloc::{AllocError, Global};
use std::process::Abort;
use std::test::Fail;

fn name(alloc: Global, text: &str) -> Result<Items<u8>, AllocError> {
    Items::from_slice(alloc, text.as_bytes())
}

fn names(alloc: Global, texts: &[&str]) -> Result<Items<Items<u8>>, AllocError> {
    let mut names = Items::new(alloc);
    for text in texts {
        names.push(name(alloc, text)?)?;
    }
    Ok(names)
}

/// Appends a statement with no label line before it.
fn push(statements: &mut Items<Stmt>, alloc: Global, form: Form) -> Result<(), AllocError> {
    let labels = Items::new(alloc);
    statements.push(Stmt { labels, form })
}

fn push_service(
    statements: &mut Items<Stmt>,
    alloc: Global,
    service: CService,
) -> Result<(), AllocError> {
    push(statements, alloc, Form::Service { to: 2, service })
}

fn task_line(alloc: Global, task: &str, function: u32) -> Result<CTask, AllocError> {
    let name = name(alloc, task)?;
    Ok(CTask { name, function })
}

/// Asserts that the program is printed as the prologue and then `lines`.
fn assert_body(
    rt: &impl Abort,
    alloc: Global,
    program: &CProgram,
    lines: &str,
) -> Result<(), AllocError> {
    let text = print_c(alloc, program)?;
    let mut wanted = Vec::from_slice(alloc, prologue_text().as_bytes())?;
    wanted.extend_from_slice(lines.as_bytes())?;
    assert_eq!(rt; text.as_slice(), wanted.as_slice());
    Ok(())
}

/// One task, whose function activates the task again.
fn again_program(alloc: Global) -> Result<CProgram, AllocError> {
    let task = name(alloc, "main")?;
    let mut statements = Items::new(alloc);
    let service = CService::ActivateTask { task };
    push(&mut statements, alloc, Form::Service { to: 0, service })?;
    let value = Expr::Atom(Atom::Word(0));
    push(&mut statements, alloc, Form::Assign { to: 0, value })?;
    let value = Atom::Number(0);
    push(&mut statements, alloc, Form::Return { value })?;
    let function = CFunction {
        parameters: 0,
        further: 1,
        statements,
        end_labels: Items::new(alloc),
    };
    let region = CRegion {
        words: 8,
        first: Items::new(alloc),
    };
    Ok(CProgram {
        device_base: 0,
        tasks: names(alloc, &["main"])?,
        resources: Items::new(alloc),
        events: Items::new(alloc),
        alarms: Items::new(alloc),
        regions: Items::from_vec(Vec::from_array(alloc, [region])?),
        functions: Items::from_vec(Vec::from_array(alloc, [function])?),
        starts: Items::new(alloc),
        task_lines: Items::from_vec(Vec::from_array(alloc, [task_line(alloc, "main", 0)?])?),
    })
}

#[test]
fn prints_a_small_program(rt: HostRuntime) -> Result<(), Fail> {
    let alloc = rt.alloc();
    let lines = "#define KDEV 0ul
DeclareTask(t_main);
static W r0[8];
static W f0(void);
static W f0(void) {
  W w0 = 0ull;
  w0 = K_ActivateTask(t_main);
  w0 = w0;
  return 0ull;
}
void StartupHook(void) {
}
KTASK(t_main, f0)
";
    assert_body(&rt, alloc, &again_program(alloc)?, lines)?;
    Ok(())
}

#[test]
fn prints_operators_on_one_word(rt: HostRuntime) -> Result<(), Fail> {
    let alloc = rt.alloc();
    let operators = [
        (OneOp::Lo4, "LO4(w7)"),
        (OneOp::Sx4, "SX4(w7)"),
        (OneOp::Sb4, "SB4(w7)"),
        (OneOp::Sh4, "SH4(w7)"),
        (OneOp::Zb, "ZB(w7)"),
        (OneOp::Zh, "ZH(w7)"),
    ];
    for (op, wanted) in operators {
        let a = Boxed::new(alloc, Expr::Atom(Atom::Word(7)))?;
        let mut text = Vec::new(alloc);
        append_expression(&mut text, &Expr::One { op, a })?;
        assert_eq!(rt; text.as_slice(), wanted.as_bytes(), "{op:?}");
    }
    Ok(())
}

#[test]
fn prints_operators_on_two_words(rt: HostRuntime) -> Result<(), Fail> {
    let alloc = rt.alloc();
    let operators = [
        (TwoOp::Add8, "ADD8(w1, 2ull)"),
        (TwoOp::Sub8, "SUB8(w1, 2ull)"),
        (TwoOp::Mul8, "MUL8(w1, 2ull)"),
        (TwoOp::Add4, "ADD4(w1, 2ull)"),
        (TwoOp::Sub4, "SUB4(w1, 2ull)"),
        (TwoOp::Mul4, "MUL4(w1, 2ull)"),
        (TwoOp::Div8, "DIV8(w1, 2ull)"),
        (TwoOp::Rem8, "REM8(w1, 2ull)"),
        (TwoOp::Div4, "DIV4(w1, 2ull)"),
        (TwoOp::Rem4, "REM4(w1, 2ull)"),
        (TwoOp::Shl8, "SHL8(w1, 2ull)"),
        (TwoOp::Shr8, "SHR8(w1, 2ull)"),
        (TwoOp::Ushr8, "USHR8(w1, 2ull)"),
        (TwoOp::Shl4, "SHL4(w1, 2ull)"),
        (TwoOp::Shr4, "SHR4(w1, 2ull)"),
        (TwoOp::Ushr4, "USHR4(w1, 2ull)"),
        (TwoOp::And, "AND(w1, 2ull)"),
        (TwoOp::Or, "OR(w1, 2ull)"),
        (TwoOp::Xor, "XOR(w1, 2ull)"),
        (TwoOp::Eq, "EQ(w1, 2ull)"),
        (TwoOp::Ne, "NE(w1, 2ull)"),
        (TwoOp::Ltu, "LTU(w1, 2ull)"),
        (TwoOp::Lt8, "LT8(w1, 2ull)"),
        (TwoOp::Lt4, "LT4(w1, 2ull)"),
        (TwoOp::Cmp8, "CMP8(w1, 2ull)"),
    ];
    for (op, wanted) in operators {
        let a = Boxed::new(alloc, Expr::Atom(Atom::Word(1)))?;
        let b = Boxed::new(alloc, Expr::Atom(Atom::Number(2)))?;
        let mut text = Vec::new(alloc);
        append_expression(&mut text, &Expr::Two { op, a, b })?;
        assert_eq!(rt; text.as_slice(), wanted.as_bytes(), "{op:?}");
    }
    Ok(())
}

/// Loads, stores and an assignment, with label lines before the first.
fn push_accesses(statements: &mut Items<Stmt>, alloc: Global) -> Result<(), AllocError> {
    let a = Boxed::new(alloc, Expr::Atom(Atom::Word(0)))?;
    let b = Boxed::new(alloc, Expr::Atom(Atom::Number(u64::MAX)))?;
    let op = TwoOp::Add8;
    let value = Expr::Two { op, a, b };
    let form = Form::Assign { to: 2, value };
    let labels = Items::from_slice(alloc, &[0, 7])?;
    statements.push(Stmt { labels, form })?;
    let (to, bytes, region, at) = (3, 2, 1, Atom::Number(6));
    push(
        statements,
        alloc,
        Form::Load {
            to,
            bytes,
            region,
            at,
        },
    )?;
    let (bytes, region, at, value) = (8, 1, Atom::Word(3), Atom::Number(0));
    push(
        statements,
        alloc,
        Form::Store {
            bytes,
            region,
            at,
            value,
        },
    )?;
    let (to, bytes, at) = (3, 4, Atom::Word(2));
    push(statements, alloc, Form::DeviceLoad { to, bytes, at })?;
    let (bytes, at, value) = (1, Atom::Number(16), Atom::Word(3));
    push(statements, alloc, Form::DeviceStore { bytes, at, value })
}

/// The other forms that are no service, with a label line before a jump.
fn push_jumps(statements: &mut Items<Stmt>, alloc: Global) -> Result<(), AllocError> {
    let test = Expr::Atom(Atom::Word(2));
    push(statements, alloc, Form::If { test, label: 0 })?;
    let cases = Items::from_slice(alloc, &[(1, 0), (300, 7)])?;
    let (on, other) = (Atom::Word(2), 1);
    push(statements, alloc, Form::Switch { on, cases, other })?;
    push(statements, alloc, Form::Suspend)?;
    push(statements, alloc, Form::Resume)?;
    let arguments = Items::from_slice(alloc, &[Atom::Word(1), Atom::Number(3)])?;
    let (to, function) = (0, 0);
    push(
        statements,
        alloc,
        Form::Call {
            to,
            function,
            arguments,
        },
    )?;
    push(statements, alloc, Form::Fail { number: 2 })?;
    let labels = Items::from_slice(alloc, &[1])?;
    let form = Form::Goto { label: 7 };
    statements.push(Stmt { labels, form })?;
    let value = Atom::Word(2);
    push(statements, alloc, Form::Return { value })
}

/// The services of tasks, resources and events.
fn push_services(statements: &mut Items<Stmt>, alloc: Global) -> Result<(), AllocError> {
    let task = name(alloc, "a")?;
    push_service(statements, alloc, CService::ActivateTask { task })?;
    push_service(statements, alloc, CService::TerminateTask)?;
    let task = name(alloc, "b")?;
    push_service(statements, alloc, CService::ChainTask { task })?;
    push_service(statements, alloc, CService::Schedule)?;
    let resource = name(alloc, "lock")?;
    push_service(statements, alloc, CService::GetResource { resource })?;
    let resource = name(alloc, "lock")?;
    push_service(statements, alloc, CService::ReleaseResource { resource })?;
    let (task, events) = (name(alloc, "a")?, names(alloc, &["go", "stop"])?);
    push_service(statements, alloc, CService::SetEvent { task, events })?;
    let events = names(alloc, &["go"])?;
    push_service(statements, alloc, CService::ClearEvent { events })?;
    let task = name(alloc, "a")?;
    push_service(statements, alloc, CService::GetEvent { task })?;
    let events = names(alloc, &["stop", "go"])?;
    push_service(statements, alloc, CService::WaitEvent { events })
}

fn push_alarm_services(statements: &mut Items<Stmt>, alloc: Global) -> Result<(), AllocError> {
    let alarm = name(alloc, "beat")?;
    let (first, cycle) = (Atom::Word(0), Atom::Number(10));
    push_service(
        statements,
        alloc,
        CService::SetRelAlarm {
            alarm,
            first,
            cycle,
        },
    )?;
    let alarm = name(alloc, "beat")?;
    let (first, cycle) = (Atom::Number(9), Atom::Word(1));
    push_service(
        statements,
        alloc,
        CService::SetAbsAlarm {
            alarm,
            first,
            cycle,
        },
    )?;
    let alarm = name(alloc, "beat")?;
    push_service(statements, alloc, CService::CancelAlarm { alarm })?;
    let alarm = name(alloc, "beat")?;
    push_service(statements, alloc, CService::GetAlarm { alarm })
}

fn whole_program(alloc: Global) -> Result<CProgram, AllocError> {
    let mut statements = Items::new(alloc);
    push_accesses(&mut statements, alloc)?;
    push_jumps(&mut statements, alloc)?;
    let forms = CFunction {
        parameters: 2,
        further: 2,
        statements,
        end_labels: Items::from_slice(alloc, &[9])?,
    };
    let mut statements = Items::new(alloc);
    push_services(&mut statements, alloc)?;
    push_alarm_services(&mut statements, alloc)?;
    let services = CFunction {
        parameters: 1,
        further: 0,
        statements,
        end_labels: Items::new(alloc),
    };
    let table = CRegion {
        words: 2,
        first: Items::from_slice(alloc, &[1, 258])?,
    };
    let heap = CRegion {
        words: 4,
        first: Items::new(alloc),
    };
    let lines = [task_line(alloc, "a", 1)?, task_line(alloc, "b", 0)?];
    Ok(CProgram {
        device_base: 4096,
        tasks: names(alloc, &["a", "b"])?,
        resources: names(alloc, &["lock"])?,
        events: names(alloc, &["go", "stop"])?,
        alarms: names(alloc, &["beat"])?,
        regions: Items::from_vec(Vec::from_array(alloc, [table, heap])?),
        functions: Items::from_vec(Vec::from_array(alloc, [forms, services])?),
        starts: Items::from_slice(alloc, &[1, 0])?,
        task_lines: Items::from_vec(Vec::from_array(alloc, lines)?),
    })
}

#[test]
fn prints_every_line_and_statement(rt: HostRuntime) -> Result<(), Fail> {
    let alloc = rt.alloc();
    let lines = "#define KDEV 4096ul
DeclareTask(t_a);
DeclareTask(t_b);
DeclareResource(r_lock);
DeclareEvent(e_go);
DeclareEvent(e_stop);
DeclareAlarm(a_beat);
static W r0[2] = { 1ull, 258ull };
static W r1[4];
static W f0(W w0, W w1);
static W f1(W w0);
static W f0(W w0, W w1) {
  W w2 = 0ull;
  W w3 = 0ull;
L0:
L7:
  w2 = ADD8(w0, 18446744073709551615ull);
  w3 = LD2(r1, 6ull);
  ST8(r1, w3, 0ull);
  w3 = DLD4(w2);
  DST1(16ull, w3);
  if (w2) goto L0;
  switch (w2) { case 1ull: goto L0; case 300ull: goto L7; default: goto L1; }
  SUSPEND;
  RESUME;
  w0 = f0(w1, 3ull);
  FAIL(2);
L1:
  goto L7;
  return w2;
L9:
}
static W f1(W w0) {
  w2 = K_ActivateTask(t_a);
  w2 = K_TerminateTask();
  w2 = K_ChainTask(t_b);
  w2 = K_Schedule();
  w2 = K_GetResource(r_lock);
  w2 = K_ReleaseResource(r_lock);
  w2 = K_SetEvent(t_a, e_go | e_stop);
  w2 = K_ClearEvent(e_go);
  w2 = K_GetEvent(t_a);
  w2 = K_WaitEvent(e_stop | e_go);
  w2 = K_SetRelAlarm(a_beat, w0, 10ull);
  w2 = K_SetAbsAlarm(a_beat, 9ull, w1);
  w2 = K_CancelAlarm(a_beat);
  w2 = K_GetAlarm(a_beat);
}
void StartupHook(void) {
  (void)f1();
  (void)f0();
}
KTASK(t_a, f1)
KTASK(t_b, f0)
";
    assert_body(&rt, alloc, &whole_program(alloc)?, lines)?;
    Ok(())
}
