use crate::action::Action;
use crate::instruction::action_of;
use classfile::read_class;
use jcode::Op;
use jworld::{ClassId, World};
use kbind::{Bound, bind};
use kconfig::{Service, read_config};
use kes_text::{NoMemory, Stop};
use mentions::Setting;
use std::alloc::Global;
use std::test::Fail;

const CONFIG: &[u8] =
    b"keso 1 order little\ndomain app heap 64\ntask main domain app prio 1 acts 1 auto yes sched full entry Main.run\nnative Main.again()I ActivateTask main\n";

/// A class whose `run` calls the native `again`, drops its answer, and returns.
const CLASS: [u8; 138] = [
    0xca, 0xfe, 0xba, 0xbe, 0x00, 0x00, 0x00, 0x34, 0x00, 0x0c, 0x07, 0x00, 0x02, 0x01, 0x00, 0x04,
    0x4d, 0x61, 0x69, 0x6e, 0x07, 0x00, 0x04, 0x01, 0x00, 0x10, 0x6a, 0x61, 0x76, 0x61, 0x2f, 0x6c,
    0x61, 0x6e, 0x67, 0x2f, 0x4f, 0x62, 0x6a, 0x65, 0x63, 0x74, 0x01, 0x00, 0x05, 0x61, 0x67, 0x61,
    0x69, 0x6e, 0x01, 0x00, 0x03, 0x28, 0x29, 0x49, 0x01, 0x00, 0x03, 0x72, 0x75, 0x6e, 0x01, 0x00,
    0x03, 0x28, 0x29, 0x56, 0x01, 0x00, 0x04, 0x43, 0x6f, 0x64, 0x65, 0x0a, 0x00, 0x01, 0x00, 0x0b,
    0x0c, 0x00, 0x05, 0x00, 0x06, 0x00, 0x21, 0x00, 0x01, 0x00, 0x03, 0x00, 0x00, 0x00, 0x00, 0x00,
    0x02, 0x01, 0x09, 0x00, 0x05, 0x00, 0x06, 0x00, 0x00, 0x00, 0x09, 0x00, 0x07, 0x00, 0x08, 0x00,
    0x01, 0x00, 0x09, 0x00, 0x00, 0x00, 0x11, 0x00, 0x01, 0x00, 0x00, 0x00, 0x00, 0x00, 0x05, 0xb8,
    0x00, 0x0a, 0x57, 0xb1, 0x00, 0x00, 0x00, 0x00, 0x00, 0x00,
];

fn world_of(alloc: Global, bytes: &[u8]) -> Result<World<'_>, Stop> {
    let mut classes = Vec::new(alloc);
    classes.push(read_class(alloc, bytes)?)?;
    if classes.len() > 2048 {
        return Err(Stop::NoMemory);
    }
    World::new(alloc, classes)
}

fn bound_to(alloc: Global, world: &World<'_>) -> Result<Bound, Stop> {
    bind(alloc, read_config(alloc, CONFIG)?, world)
}

/// What a test tells of an action.
#[derive(Clone, Copy, Debug, PartialEq, Eq)]
enum Told {
    Activates(u32),
    Makes(u32),
    Returns,
    Local,
    Other,
}

fn told_of(action: &Action) -> Told {
    match action {
        Action::Service {
            service: Service::ActivateTask { task },
        } => Told::Activates(*task),
        Action::New { class } => Told::Makes(class.n),
        Action::Return => Told::Returns,
        Action::Local => Told::Local,
        _ => Told::Other,
    }
}

fn tell(alloc: Global, s: &Setting<'_, '_>, op: &Op) -> Result<Told, NoMemory> {
    let own = ClassId { n: 4 };
    let Some(file) = s.world.get(own) else {
        return Ok(Told::Other);
    };
    let action = action_of(alloc, s, own, file, op)?;
    Ok(told_of(&action))
}

fn tell_in(alloc: Global, world: &World<'_>, bound: &Bound, op: &Op) -> Result<Told, NoMemory> {
    let setting = Setting::new(alloc, world, bound)?;
    tell(alloc, &setting, op)
}

fn tell_bound(alloc: Global, world: &World<'_>, op: &Op) -> Result<Told, Stop> {
    let bound = bound_to(alloc, world)?;
    Ok(tell_in(alloc, world, &bound, op)?)
}

fn tell_of(alloc: Global, op: &Op) -> Result<Told, Stop> {
    let world = world_of(alloc, &CLASS)?;
    tell_bound(alloc, &world, op)
}

#[test]
fn operands_are_told_by_what_they_name(rt: HostRuntime) -> Result<(), Fail> {
    let alloc = rt.alloc();
    assert_eq!(rt;
        tell_of(alloc, &Op::InvokeStatic { index: 10 })?,
        Told::Activates(0)
    );
    assert_eq!(rt; tell_of(alloc, &Op::New { index: 3 })?, Told::Makes(0));
    assert_eq!(rt; tell_of(alloc, &Op::Return)?, Told::Returns);
    assert_eq!(rt; tell_of(alloc, &Op::Nop)?, Told::Local);
    Ok(())
}
