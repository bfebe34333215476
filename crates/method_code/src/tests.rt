use crate::method::MethodCode;
use crate::places::Places;
use actions::Action;
use classfile::read_class;
use jcode::{Ins, Op};
use jworld::{ClassId, MethodId, World};
use kbind::{Bound, bind};
use kconfig::{Service, read_config};
use kes_text::{NoMemory, Stop};
use mentions::Setting;
use method_typing::{Typed, type_method};
use std::alloc::Global;
use std::test::Fail;

const CONFIG: &[u8] =
    b"keso 1 order little\ndomain app heap 64\ntask main domain app prio 1 acts 1 auto yes sched full entry Main.run\nnative Main.again()I ActivateTask main\n";

/// A class whose `run` has two locals, calls the native `again`, drops its answer, and returns.
const CLASS: [u8; 138] = [
    0xca, 0xfe, 0xba, 0xbe, 0x00, 0x00, 0x00, 0x34, 0x00, 0x0c, 0x07, 0x00, 0x02, 0x01, 0x00, 0x04,
    0x4d, 0x61, 0x69, 0x6e, 0x07, 0x00, 0x04, 0x01, 0x00, 0x10, 0x6a, 0x61, 0x76, 0x61, 0x2f, 0x6c,
    0x61, 0x6e, 0x67, 0x2f, 0x4f, 0x62, 0x6a, 0x65, 0x63, 0x74, 0x01, 0x00, 0x05, 0x61, 0x67, 0x61,
    0x69, 0x6e, 0x01, 0x00, 0x03, 0x28, 0x29, 0x49, 0x01, 0x00, 0x03, 0x72, 0x75, 0x6e, 0x01, 0x00,
    0x03, 0x28, 0x29, 0x56, 0x01, 0x00, 0x04, 0x43, 0x6f, 0x64, 0x65, 0x0a, 0x00, 0x01, 0x00, 0x0b,
    0x0c, 0x00, 0x05, 0x00, 0x06, 0x00, 0x21, 0x00, 0x01, 0x00, 0x03, 0x00, 0x00, 0x00, 0x00, 0x00,
    0x02, 0x01, 0x09, 0x00, 0x05, 0x00, 0x06, 0x00, 0x00, 0x00, 0x09, 0x00, 0x07, 0x00, 0x08, 0x00,
    0x01, 0x00, 0x09, 0x00, 0x00, 0x00, 0x11, 0x00, 0x01, 0x00, 0x02, 0x00, 0x00, 0x00, 0x05, 0xb8,
    0x00, 0x0a, 0x57, 0xb1, 0x00, 0x00, 0x00, 0x00, 0x00, 0x00,
];

const RUN: MethodId = MethodId {
    class: ClassId { n: 4 },
    n: 1,
};

fn world_of(alloc: Global, bytes: &[u8]) -> Result<World<'_>, Stop> {
    let mut classes = Vec::new(alloc);
    classes.push(read_class(alloc, bytes)?)?;
    if classes.len() > 2048 {
        return Err(Stop::NoMemory);
    }
    World::new(alloc, classes)
}

fn bound_to(alloc: Global, world: &World<'_>) -> Result<Bound, Stop> {
    bind(alloc, read_config(alloc, CONFIG)?, world)
}

/// What a test tells of a method's code.
#[derive(Clone, Copy, Debug, PartialEq, Eq)]
struct Told {
    id: MethodId,
    max_locals: u16,
    count: usize,
    /// The place of the last instruction.
    last: Option<u16>,
    /// The task that the first instruction activates.
    task: Option<u32>,
    /// The instructions at the places 3 and 1.
    places: (Option<usize>, Option<usize>),
}

fn activated(action: Option<&Action>) -> Option<u32> {
    match action {
        Some(
            Action::Service {
                service: Service::ActivateTask { task },
            },
        ) => Some(*task),
        _ => None,
    }
}

fn told_of(method: &MethodCode) -> Told {
    Told {
        id: method.id(),
        max_locals: method.max_locals(),
        count: method.len(),
        last: method.instruction(2).map(|ins| ins.pc),
        task: activated(method.action(0)),
        places: (method.place(3), method.place(1)),
    }
}

fn tell_typed(alloc: Global, s: &Setting<'_, '_>, typed: Typed) -> Result<Told, NoMemory> {
    let method = MethodCode::of(alloc, s, typed)?;
    Ok(told_of(&method))
}

fn tell(alloc: Global, s: &Setting<'_, '_>) -> Result<Told, Stop> {
    let typed = type_method(alloc, s.world, RUN)?;
    Ok(tell_typed(alloc, s, typed)?)
}

fn tell_in(alloc: Global, world: &World<'_>, bound: &Bound) -> Result<Told, Stop> {
    let setting = Setting::new(alloc, world, bound)?;
    tell(alloc, &setting)
}

fn tell_bound(alloc: Global, world: &World<'_>) -> Result<Told, Stop> {
    let bound = bound_to(alloc, world)?;
    tell_in(alloc, world, &bound)
}

fn tell_run(alloc: Global) -> Result<Told, Stop> {
    let world = world_of(alloc, &CLASS)?;
    tell_bound(alloc, &world)
}

#[test]
fn a_method_has_its_code(rt: HostRuntime) -> Result<(), Fail> {
    let wanted = Told {
        id: RUN,
        max_locals: 2,
        count: 3,
        last: Some(4),
        task: Some(0),
        places: (Some(1), None),
    };
    assert_eq!(rt; tell_run(rt.alloc())?, wanted);
    Ok(())
}

/// A nop, a call of three bytes, and a return.
fn short_code(alloc: Global) -> Result<Vec<Ins>, NoMemory> {
    let mut code = Vec::new(alloc);
    code.push(Ins { pc: 0, op: Op::Nop })?;
    code.push(Ins {
        pc: 1,
        op: Op::InvokeStatic { index: 10 },
    })?;
    code.push(Ins {
        pc: 4,
        op: Op::Return,
    })?;
    Ok(code)
}

fn places_of(alloc: Global) -> Result<Places, NoMemory> {
    let code = short_code(alloc)?;
    Places::of(alloc, &code)
}

#[test]
fn places_have_numbers(rt: HostRuntime) -> Result<(), Fail> {
    let places = places_of(rt.alloc())?;
    let wanted = [Some(0), Some(1), None, None, Some(2), None];
    for (pc, number) in (0..6).zip(wanted) {
        assert_eq!(rt; places.get(pc), number);
    }
    Ok(())
}
