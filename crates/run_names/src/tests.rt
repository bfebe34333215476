use crate::{Names, method_names, names};
use classfile::{Class, read_class};
use jworld::{ClassId, MethodId, World};
use kconfig::{Config, read_config};
use kes_text::{NoMemory, Stop};
use sqlite_items::Items;
use std::alloc::Global;
use std::process::Abort;
use std::test::Fail;

const CONFIG: &str = "keso 1 order little
devices base 0 size 16
domain d heap 0
counter c max 9 base 1 min 1
event go
event halt
resource led
task t domain d prio 1 acts 1 auto yes sched full entry A.run
alarm a counter c activate t
";

/// What javac 17 with `--release 8 -g:none` wrote of `class Port { int out; short low; static int seen; }`.
const PORT: [u8; 170] = [
    0xca, 0xfe, 0xba, 0xbe, 0x00, 0x00, 0x00, 0x34, 0x00, 0x0f, 0x0a, 0x00, 0x02, 0x00, 0x03, 0x07,
    0x00, 0x04, 0x0c, 0x00, 0x05, 0x00, 0x06, 0x01, 0x00, 0x10, 0x6a, 0x61, 0x76, 0x61, 0x2f, 0x6c,
    0x61, 0x6e, 0x67, 0x2f, 0x4f, 0x62, 0x6a, 0x65, 0x63, 0x74, 0x01, 0x00, 0x06, 0x3c, 0x69, 0x6e,
    0x69, 0x74, 0x3e, 0x01, 0x00, 0x03, 0x28, 0x29, 0x56, 0x07, 0x00, 0x08, 0x01, 0x00, 0x04, 0x50,
    0x6f, 0x72, 0x74, 0x01, 0x00, 0x03, 0x6f, 0x75, 0x74, 0x01, 0x00, 0x01, 0x49, 0x01, 0x00, 0x03,
    0x6c, 0x6f, 0x77, 0x01, 0x00, 0x01, 0x53, 0x01, 0x00, 0x04, 0x73, 0x65, 0x65, 0x6e, 0x01, 0x00,
    0x04, 0x43, 0x6f, 0x64, 0x65, 0x00, 0x20, 0x00, 0x07, 0x00, 0x02, 0x00, 0x00, 0x00, 0x03, 0x00,
    0x00, 0x00, 0x09, 0x00, 0x0a, 0x00, 0x00, 0x00, 0x00, 0x00, 0x0b, 0x00, 0x0c, 0x00, 0x00, 0x00,
    0x08, 0x00, 0x0d, 0x00, 0x0a, 0x00, 0x00, 0x00, 0x01, 0x00, 0x00, 0x00, 0x05, 0x00, 0x06, 0x00,
    0x01, 0x00, 0x0e, 0x00, 0x00, 0x00, 0x11, 0x00, 0x01, 0x00, 0x01, 0x00, 0x00, 0x00, 0x05, 0x2a,
    0xb7, 0x00, 0x01, 0xb1, 0x00, 0x00, 0x00, 0x00, 0x00, 0x00,
];

/// The names of a configuration; None where its device bytes are too many.
fn named(alloc: Global, config: &Config) -> Result<Option<Names>, NoMemory> {
    if config.devices.size > 65536 {
        return Ok(None);
    }
    Ok(Some(names(alloc, config)?))
}

fn config_names(alloc: Global) -> Result<Option<Names>, Stop> {
    let config = read_config(alloc, CONFIG.as_bytes())?;
    Ok(named(alloc, &config)?)
}

fn classes(alloc: Global) -> Result<Vec<Class<'static>>, Stop> {
    let mut classes = Vec::new(alloc);
    classes.push(read_class(alloc, &PORT)?)?;
    Ok(classes)
}

fn world_of<'a>(alloc: Global, classes: Vec<Class<'a>>) -> Result<World<'a>, Stop> {
    if classes.len() > 2048 {
        return Err(Stop::NoMemory);
    }
    World::new(alloc, classes)
}

/// The names of the only method of a world's first file, and of one that isn't there.
fn first_names(alloc: Global, world: &World<'_>) -> Result<Items<Items<u8>>, NoMemory> {
    let class = ClassId { n: 4 };
    let methods = [MethodId { class, n: 0 }, MethodId { class, n: 1 }];
    method_names(alloc, world, &methods)
}

fn port_names(alloc: Global) -> Result<Items<Items<u8>>, Stop> {
    let world = world_of(alloc, classes(alloc)?)?;
    Ok(first_names(alloc, &world)?)
}

/// The name of this number, and no bytes where there is none.
fn at(names: &Items<Items<u8>>, number: usize) -> &[u8] {
    match names.get(number) {
        Some(name) => name.as_slice(),
        None => &[],
    }
}

fn are_of_their_lines(rt: &impl Abort, names: &Names) {
    assert_eq!(rt; at(&names.tasks, 0), b"t".as_slice());
    assert_eq!(rt; at(&names.resources, 0), b"led".as_slice());
    assert_eq!(rt; at(&names.events, 1), b"halt".as_slice());
    assert_eq!(rt; at(&names.counters, 0), b"c".as_slice());
    assert_eq!(rt; at(&names.alarms, 0), b"a".as_slice());
    assert_eq!(rt; (names.methods.len(), names.devices), (0, 16));
}

#[test]
fn objects_have_the_names_of_their_lines(rt: HostRuntime) -> Result<(), Fail> {
    match config_names(rt.alloc())? {
        Some(names) => are_of_their_lines(&rt, &names),
        None => assert!(rt; false),
    }
    Ok(())
}

#[test]
fn method_has_its_class_and_descriptor(rt: HostRuntime) -> Result<(), Fail> {
    let names = port_names(rt.alloc())?;
    assert_eq!(rt; names.len(), 2);
    assert_eq!(rt; at(&names, 0), b"Port.<init>()V".as_slice());
    assert_eq!(rt; at(&names, 1), b"".as_slice());
    Ok(())
}
