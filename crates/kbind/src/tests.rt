use super::*;
use crate::blinker::{BASE, BLINK, DOOR, LOG, OTHER, PORT, WIDE};
use classfile::{Class, read_class};
use jworld::{ClassId, MethodId, World};
use kconfig::read_config;
use kes_text::{Kind, Refusal, Stop};
use std::alloc::Global;
use std::process::Abort;
use std::test::Fail;

/// A small application. The lines of the tables below stand behind it, from number 9 on.
const APPLICATION: &str = "keso 1 order little
devices base 0x40000000 size 16
domain app heap 64
domain log heap 64
task blink domain app prio 1 acts 1 auto no sched full entry Blink.run
native Blink.again()I ActivateTask blink
cell Other.x at 0 width 4
object led class Other base 0
";

/// Lawful lines.
const LAWFUL: &str = "cell Port.out at 0 width 4
cell Port.low at 4 width 2
object two class Port base 8
device Blink.port()LPort; two
portal Blink.log([I)I domain log target Log.put([I)I limit 1
";

/// The tasks of the first six name no static `()V` method with code of a class that is no interface.
const ENTRIES: &str = "task two domain app prio 1 acts 1 auto no sched full entry Blink.missing
task two domain app prio 1 acts 1 auto no sched full entry Door.run
task two domain app prio 1 acts 1 auto no sched full entry Nowhere.run
task two domain app prio 1 acts 1 auto no sched full entry Blink.own
task two domain app prio 1 acts 1 auto no sched full entry Blink.quiet
task two domain app prio 1 acts 1 auto no sched full entry Blink.count
";

/// One that isn't static, one that isn't native, one of another descriptor, and one that isn't there.
const NATIVES: &str = "native Blink.mine()I TerminateTask
native Blink.count()I TerminateTask
native Blink.wide(II)I TerminateTask
native Blink.missing()I TerminateTask
";

/// A cell that is too wide, one of a static field, one that leaves another field without a cell; cells of a class with a
/// subclass, of one below it, and of none; an object without a cell, one past the device bytes, and one at another's base;
/// and methods that answer another class, and none.
const MAPPED: &str = "cell Port.out at 0 width 8
cell Port.seen at 4 width 4
cell Port.out at 4 width 4
cell Base.word at 0 width 4
cell Wide.more at 0 width 4
cell Nowhere.x at 0 width 4
object two class Blink base 8
object two class Other base 16
device Blink.port()LPort; led
device Blink.quiet()V led
";

/// Of other descriptors, of a float, with a native target, and without a method.
const PORTALS: &str = "portal Blink.log([I)I domain log target Log.longs([J)I limit 1
portal Blink.rate([I)F domain log target Log.rate([I)F limit 1
portal Blink.log([I)I domain log target Blink.log([I)I limit 1
portal Blink.missing([I)I domain log target Log.put([I)I limit 1
";

/// Seven classes, which have the numbers from 4 on.
fn world(alloc: Global) -> Result<World<'static>, Stop> {
    let mut classes = Vec::new(alloc);
    classes.push(read_class(alloc, &PORT)?)?;
    classes.push(read_class(alloc, &OTHER)?)?;
    classes.push(read_class(alloc, &BASE)?)?;
    classes.push(read_class(alloc, &WIDE)?)?;
    classes.push(read_class(alloc, &DOOR)?)?;
    classes.push(read_class(alloc, &BLINK)?)?;
    classes.push(read_class(alloc, &LOG)?)?;
    small_world(alloc, classes)
}

fn small_world<'a>(alloc: Global, classes: Vec<Class<'a>>) -> Result<World<'a>, Stop> {
    if classes.len() > 2048 {
        return Err(Stop::NoMemory);
    }
    World::new(alloc, classes)
}

/// The application with lines behind it, bound to a world.
fn bound(alloc: Global, world: &World<'_>, before: &str, line: &str) -> Result<Bound, Stop> {
    let text = format!(in alloc; "{APPLICATION}{before}{line}")?;
    let config = read_config(alloc, text.as_bytes())?;
    bind(alloc, config, world)
}

/// Each line of a table, behind others, is refused.
fn refused(
    rt: &impl Abort,
    alloc: Global,
    world: &World<'_>,
    before: &str,
    table: &str,
    wanted: Refusal,
) {
    for line in table.lines() {
        match bound(alloc, world, before, line) {
            Ok(_) => assert!(rt; false, "bound: {line}"),
            Err(stop) => assert_eq!(rt; stop, Stop::Refused(wanted), "{line}"),
        }
    }
}

fn refusal(kind: Kind, at: u64) -> Refusal {
    Refusal { file: 0, kind, at }
}

fn method(class: u32, n: u16) -> MethodId {
    MethodId {
        class: ClassId { n: class },
        n,
    }
}

#[test]
fn each_line_names_its_member(rt: HostRuntime) -> Result<(), Fail> {
    let world = world(rt.alloc())?;
    let bound = bound(rt.alloc(), &world, LAWFUL, "")?;
    assert_eq!(rt; bound.entries.as_slice(), [method(9, 11)].as_slice());
    assert_eq!(rt; bound.natives.as_slice(), [method(9, 5)].as_slice());
    assert_eq!(rt;
        bound.objects.as_slice(),
        [ClassId { n: 5 }, ClassId { n: 4 }].as_slice()
    );
    assert_eq!(rt; bound.device_methods.as_slice(), [method(9, 1)].as_slice());
    let portals = [(method(9, 3), method(10, 1))];
    assert_eq!(rt; bound.portals.as_slice(), portals.as_slice());
    Ok(())
}

#[test]
fn the_first_line_whose_rule_fails_is_shown(rt: HostRuntime) -> Result<(), Fail> {
    let world = world(rt.alloc())?;
    let alloc = rt.alloc();
    refused(&rt, alloc, &world, "", ENTRIES, refusal(Kind::NoEntry, 9));
    refused(&rt, alloc, &world, "", NATIVES, refusal(Kind::BadNative, 9));
    refused(&rt, alloc, &world, "", MAPPED, refusal(Kind::BadMapped, 9));
    refused(&rt, alloc, &world, "", PORTALS, refusal(Kind::BadPortal, 9));
    let cells = "cell Port.out at 0 width 4\ncell Port.low at 4 width 2\n";
    let object = "object two class Port base 0";
    refused(
        &rt,
        alloc,
        &world,
        cells,
        object,
        refusal(Kind::BadMapped, 11),
    );
    let portal = "portal Blink.rate([I)F domain log target Log.rate([I)F limit 1\n";
    refused(
        &rt,
        alloc,
        &world,
        portal,
        ENTRIES,
        refusal(Kind::BadPortal, 9),
    );
    Ok(())
}
