use crate::{Domain, Done, execute};
use actions::Action;
use b_frame::Frame;
use b_heap::Fields;
use classfile::read_class;
use jcode::Op;
use jnames::{MethodKey, Name, Param, Shape};
use jworld::{ClassId, FieldId, MethodId, World};
use kconfig::Service;
use kes_text::{NoMemory, Stop};
use osek_core::{Call, FailKind};
use std::alloc::{AllocError, Global};
use std::process::Abort;
use std::test::Fail;
use values::Value;

/// `class P` with static final byte s = 300, boolean b, int i and the native method `int m()`.
const P_FILE: &[u8] =
    b"\xca\xfe\xba\xbe\x00\x00\x00\x34\x00\x0f\x01\x00\x01\x50\x07\x00\x01\x01\x00\x10\x6a\x61\x76\x61\x2f\x6c\x61\x6e\x67\x2f\x4f\x62\x6a\x65\x63\x74\x07\x00\x03\x01\x00\x01\x73\x01\x00\x01\x42\x03\x00\x00\x01\x2c\x01\x00\x0d\x43\x6f\x6e\x73\x74\x61\x6e\x74\x56\x61\x6c\x75\x65\x01\x00\x01\x62\x01\x00\x01\x5a\x01\x00\x01\x69\x01\x00\x01\x49\x01\x00\x01\x6d\x01\x00\x03\x28\x29\x49\x00\x21\x00\x02\x00\x04\x00\x00\x00\x03\x00\x18\x00\x05\x00\x06\x00\x01\x00\x08\x00\x00\x00\x02\x00\x07\x00\x00\x00\x09\x00\x0a\x00\x00\x00\x00\x00\x0b\x00\x0c\x00\x00\x00\x01\x01\x01\x00\x0d\x00\x0e\x00\x00\x00\x00";

const P: ClassId = ClassId { n: 4 };

const S: FieldId = FieldId { class: P, n: 0 };

const I: FieldId = FieldId { class: P, n: 2 };

const M: MethodId = MethodId { class: P, n: 0 };

fn world_of(alloc: Global) -> Result<World<'static>, Stop> {
    let mut classes = Vec::new(alloc);
    classes.push(read_class(alloc, P_FILE)?)?;
    if classes.len() > 2048 {
        return Err(Stop::NoMemory);
    }
    World::new(alloc, classes)
}

fn fields_of(alloc: Global) -> Result<Fields<'static>, Stop> {
    Ok(Fields::new(alloc, world_of(alloc)?)?)
}

fn frame_with(alloc: Global, operands: &[Value]) -> Result<Frame, AllocError> {
    let mut frame = Frame::new(alloc, 1, 4)?;
    for value in operands {
        frame.push(*value)?;
    }
    Ok(frame)
}

/// How an instruction ends on a frame with these operands, and its topmost operand then.
fn ends_on(
    alloc: Global,
    fields: &Fields<'_>,
    domain: &mut Domain,
    action: &Action,
    operands: &[Value],
) -> Result<(Done, Option<Value>), NoMemory> {
    let mut frame = frame_with(alloc, operands)?;
    let ends = execute(alloc, fields, action, &Op::Nop, &mut frame, domain)?;
    Ok((ends, frame.top()))
}

/// That an instruction ends so on a frame with these operands, with this operand on the top then.
fn shows(
    rt: &impl Abort,
    alloc: Global,
    fields: &Fields<'_>,
    domain: &mut Domain,
    action: Action,
    operands: &[Value],
    told: (Done, Option<Value>),
) -> Result<(), NoMemory> {
    assert_eq!(rt; ends_on(alloc, fields, domain, &action, operands)?, told);
    Ok(())
}

fn shows_room(
    rt: &impl Abort,
    alloc: Global,
    fields: &Fields<'_>,
    domain: &mut Domain,
) -> Result<(), NoMemory> {
    shows(
        rt,
        alloc,
        fields,
        domain,
        Action::New { class: P },
        &[],
        (Done::Next, Some(Value::Object(0))),
    )?;
    shows(
        rt,
        alloc,
        fields,
        domain,
        Action::New { class: P },
        &[],
        (Done::Fails(FailKind::HeapFull), None),
    )?;
    Ok(())
}

fn shows_fields(
    rt: &impl Abort,
    alloc: Global,
    fields: &Fields<'_>,
    domain: &mut Domain,
) -> Result<(), NoMemory> {
    shows(
        rt,
        alloc,
        fields,
        domain,
        Action::PutField { field: I },
        &[Value::Object(0), Value::Int(7)],
        (Done::Next, None),
    )?;
    shows(
        rt,
        alloc,
        fields,
        domain,
        Action::GetField { field: I },
        &[Value::Object(0)],
        (Done::Next, Some(Value::Int(7))),
    )?;
    shows(
        rt,
        alloc,
        fields,
        domain,
        Action::GetField { field: I },
        &[Value::Null],
        (Done::Fails(FailKind::Null), Some(Value::Null)),
    )?;
    Ok(())
}

fn try_objects(rt: &impl Abort, alloc: Global, fields: &Fields<'_>) -> Result<(), NoMemory> {
    let mut domain = Domain::new(alloc, fields, 24)?;
    shows_room(rt, alloc, fields, &mut domain)?;
    shows_fields(rt, alloc, fields, &mut domain)
}

#[test]
fn objects_have_fields(rt: HostRuntime) -> Result<(), Fail> {
    let alloc = rt.alloc();
    let fields = fields_of(alloc)?;
    try_objects(&rt, alloc, &fields)?;
    Ok(())
}

fn shows_statics(
    rt: &impl Abort,
    alloc: Global,
    fields: &Fields<'_>,
    domain: &mut Domain,
) -> Result<(), NoMemory> {
    shows(
        rt,
        alloc,
        fields,
        domain,
        Action::GetStatic { field: S },
        &[],
        (Done::Next, Some(Value::Int(44))),
    )?;
    shows(
        rt,
        alloc,
        fields,
        domain,
        Action::PutStatic { field: S },
        &[Value::Int(258)],
        (Done::Next, None),
    )?;
    shows(
        rt,
        alloc,
        fields,
        domain,
        Action::GetStatic { field: S },
        &[],
        (Done::Next, Some(Value::Int(2))),
    )?;
    Ok(())
}

fn try_statics(rt: &impl Abort, alloc: Global, fields: &Fields<'_>) -> Result<(), NoMemory> {
    let mut domain = Domain::new(alloc, fields, 0)?;
    shows_statics(rt, alloc, fields, &mut domain)
}

#[test]
fn static_fields_are_kept(rt: HostRuntime) -> Result<(), Fail> {
    let alloc = rt.alloc();
    let fields = fields_of(alloc)?;
    try_statics(&rt, alloc, &fields)?;
    Ok(())
}

/// Makes an array of shorts.
fn shorts(alloc: Global) -> Action {
    Action::NewArray {
        element: Param {
            shape: Shape::Short,
            name: Name::new(Vec::new(alloc)),
        },
    }
}

fn shows_lengths(
    rt: &impl Abort,
    alloc: Global,
    fields: &Fields<'_>,
    domain: &mut Domain,
) -> Result<(), NoMemory> {
    shows(
        rt,
        alloc,
        fields,
        domain,
        shorts(alloc),
        &[Value::Int(3)],
        (Done::Next, Some(Value::Object(0))),
    )?;
    shows(
        rt,
        alloc,
        fields,
        domain,
        shorts(alloc),
        &[Value::Int(-1)],
        (Done::Fails(FailKind::NegativeSize), Some(Value::Int(-1))),
    )?;
    shows(
        rt,
        alloc,
        fields,
        domain,
        Action::ArrayLength,
        &[Value::Object(0)],
        (Done::Next, Some(Value::Int(3))),
    )?;
    Ok(())
}

fn shows_items(
    rt: &impl Abort,
    alloc: Global,
    fields: &Fields<'_>,
    domain: &mut Domain,
) -> Result<(), NoMemory> {
    shows(
        rt,
        alloc,
        fields,
        domain,
        Action::ArrayStore { references: false },
        &[Value::Object(0), Value::Int(2), Value::Int(65_535)],
        (Done::Next, None),
    )?;
    shows(
        rt,
        alloc,
        fields,
        domain,
        Action::ArrayLoad,
        &[Value::Object(0), Value::Int(2)],
        (Done::Next, Some(Value::Int(-1))),
    )?;
    shows(
        rt,
        alloc,
        fields,
        domain,
        Action::ArrayLoad,
        &[Value::Object(0), Value::Int(3)],
        (Done::Fails(FailKind::Bounds), Some(Value::Int(3))),
    )?;
    Ok(())
}

fn try_arrays(rt: &impl Abort, alloc: Global, fields: &Fields<'_>) -> Result<(), NoMemory> {
    let mut domain = Domain::new(alloc, fields, 16)?;
    shows_lengths(rt, alloc, fields, &mut domain)?;
    shows_items(rt, alloc, fields, &mut domain)
}

#[test]
fn arrays_have_items(rt: HostRuntime) -> Result<(), Fail> {
    let alloc = rt.alloc();
    let fields = fields_of(alloc)?;
    try_arrays(&rt, alloc, &fields)?;
    Ok(())
}

fn name_of(alloc: Global, name: &[u8]) -> Result<Name, AllocError> {
    Ok(Name::new(Vec::from_slice(alloc, name)?))
}

fn is_instance_of(alloc: Global, name: &[u8]) -> Result<Action, AllocError> {
    let target = name_of(alloc, name)?;
    Ok(Action::InstanceOf { target })
}

fn cast_to(alloc: Global, name: &[u8]) -> Result<Action, AllocError> {
    let target = name_of(alloc, name)?;
    Ok(Action::CheckCast { target })
}

fn shows_types(
    rt: &impl Abort,
    alloc: Global,
    fields: &Fields<'_>,
    domain: &mut Domain,
) -> Result<(), NoMemory> {
    shows(
        rt,
        alloc,
        fields,
        domain,
        Action::New { class: P },
        &[],
        (Done::Next, Some(Value::Object(0))),
    )?;
    shows(
        rt,
        alloc,
        fields,
        domain,
        is_instance_of(alloc, b"P")?,
        &[Value::Object(0)],
        (Done::Next, Some(Value::Int(1))),
    )?;
    Ok(())
}

fn shows_casts(
    rt: &impl Abort,
    alloc: Global,
    fields: &Fields<'_>,
    domain: &mut Domain,
) -> Result<(), NoMemory> {
    shows(
        rt,
        alloc,
        fields,
        domain,
        cast_to(alloc, b"[I")?,
        &[Value::Object(0)],
        (Done::Fails(FailKind::Cast), Some(Value::Object(0))),
    )?;
    shows(
        rt,
        alloc,
        fields,
        domain,
        Action::Throw,
        &[Value::Object(0)],
        (Done::Fails(FailKind::Thrown), Some(Value::Object(0))),
    )?;
    Ok(())
}

fn try_types(rt: &impl Abort, alloc: Global, fields: &Fields<'_>) -> Result<(), NoMemory> {
    let mut domain = Domain::new(alloc, fields, 24)?;
    shows_types(rt, alloc, fields, &mut domain)?;
    shows_casts(rt, alloc, fields, &mut domain)
}

#[test]
fn objects_are_told_by_their_class(rt: HostRuntime) -> Result<(), Fail> {
    let alloc = rt.alloc();
    let fields = fields_of(alloc)?;
    try_types(&rt, alloc, &fields)?;
    Ok(())
}

/// A call of `m`.
fn call_m(alloc: Global) -> Result<Action, AllocError> {
    let name = name_of(alloc, b"m")?;
    let descriptor = name_of(alloc, b"()I")?;
    Ok(Action::Virtual {
        key: MethodKey { name, descriptor },
        parameters: 0,
    })
}

fn shows_calls(
    rt: &impl Abort,
    alloc: Global,
    fields: &Fields<'_>,
    domain: &mut Domain,
) -> Result<(), NoMemory> {
    shows(
        rt,
        alloc,
        fields,
        domain,
        Action::New { class: P },
        &[],
        (Done::Next, Some(Value::Object(0))),
    )?;
    shows(
        rt,
        alloc,
        fields,
        domain,
        call_m(alloc)?,
        &[Value::Object(0)],
        (
            Done::Call {
                method: M,
                count: 1,
            },
            Some(Value::Object(0)),
        ),
    )?;
    Ok(())
}

fn shows_answers(
    rt: &impl Abort,
    alloc: Global,
    fields: &Fields<'_>,
    domain: &mut Domain,
) -> Result<(), NoMemory> {
    shows(
        rt,
        alloc,
        fields,
        domain,
        Action::Answer,
        &[Value::Long(9)],
        (Done::Leave(Some(Value::Long(9))), Some(Value::Long(9))),
    )?;
    shows(
        rt,
        alloc,
        fields,
        domain,
        Action::Local,
        &[],
        (Done::Next, None),
    )?;
    Ok(())
}

fn try_calls(rt: &impl Abort, alloc: Global, fields: &Fields<'_>) -> Result<(), NoMemory> {
    let mut domain = Domain::new(alloc, fields, 24)?;
    shows_calls(rt, alloc, fields, &mut domain)?;
    shows_answers(rt, alloc, fields, &mut domain)
}

#[test]
fn methods_are_called(rt: HostRuntime) -> Result<(), Fail> {
    let alloc = rt.alloc();
    let fields = fields_of(alloc)?;
    try_calls(&rt, alloc, &fields)?;
    Ok(())
}

const CHAIN: Service = Service::ChainTask { task: 1 };

const REL: Service = Service::SetRelAlarm { alarm: 3 };

/// What REL is on 10 and -1.
const SET: Call = Call::SetRelAlarm {
    alarm: 3,
    first: 10,
    cycle: 0xffff_ffff,
};

fn shows_services(
    rt: &impl Abort,
    alloc: Global,
    fields: &Fields<'_>,
    domain: &mut Domain,
) -> Result<(), NoMemory> {
    shows(
        rt,
        alloc,
        fields,
        domain,
        Action::Service { service: CHAIN },
        &[],
        (
            Done::Serve(Call::ChainTask { task: 1 }),
            Some(Value::Int(0)),
        ),
    )?;
    shows(
        rt,
        alloc,
        fields,
        domain,
        Action::Service { service: REL },
        &[Value::Int(10), Value::Int(-1)],
        (Done::Serve(SET), Some(Value::Int(0))),
    )?;
    Ok(())
}

fn try_services(rt: &impl Abort, alloc: Global, fields: &Fields<'_>) -> Result<(), NoMemory> {
    let mut domain = Domain::new(alloc, fields, 0)?;
    shows_services(rt, alloc, fields, &mut domain)
}

#[test]
fn services_are_called(rt: HostRuntime) -> Result<(), Fail> {
    let alloc = rt.alloc();
    let fields = fields_of(alloc)?;
    try_services(&rt, alloc, &fields)?;
    Ok(())
}
