use crate::reached::{Reached, reach};
use crate::samples::{CLASS, EARLY, HOLDER, MAIN};
use classfile::read_class;
use jworld::{ClassId, MethodId, World};
use kbind::{Bound, bind};
use kconfig::read_config;
use kes_text::{Kind, Stop};
use reaching::Pair;
use std::alloc::Global;
use std::test::Fail;

const CONFIG: &[u8] =
    b"keso 1 order little\ndomain app heap 64\ntask main domain app prio 1 acts 1 auto yes sched full entry Main.run\nnative Main.again()I ActivateTask main\n";

fn world_of<'b>(alloc: Global, files: &[&'b [u8]]) -> Result<World<'b>, Stop> {
    let mut classes = Vec::new(alloc);
    for bytes in files {
        classes.push(read_class(alloc, *bytes)?)?;
    }
    if classes.len() > 2048 {
        return Err(Stop::NoMemory);
    }
    World::new(alloc, classes)
}

fn bound_to(alloc: Global, world: &World<'_>) -> Result<Bound, Stop> {
    bind(alloc, read_config(alloc, CONFIG)?, world)
}

fn reached(alloc: Global, files: &[&[u8]]) -> Result<Reached, Stop> {
    let world = world_of(alloc, files)?;
    let bound = bound_to(alloc, &world)?;
    reach(alloc, &bound, &world)
}

/// The class with other bytes at some places.
fn with_bytes(changes: &[(usize, u8)]) -> [u8; 138] {
    let mut bytes = CLASS;
    for (at, byte) in changes {
        if *at < 138 {
            bytes[*at] = *byte;
        }
    }
    bytes
}

/// The holder of another name.
fn holder(name: u8) -> [u8; 134] {
    let mut bytes = HOLDER;
    bytes[13] = name;
    bytes
}

/// The method of this number of the class of this number in the first domain.
fn pair(class: u32, n: u16) -> Pair {
    let class = ClassId { n: class };
    Pair {
        domain: 0,
        method: MethodId { class, n },
    }
}

/// `Main`, `Z` and `C`.
fn three_classes(alloc: Global) -> Result<Reached, Stop> {
    let (first, second) = (holder(b'Z'), holder(b'C'));
    reached(
        alloc,
        &[MAIN.as_slice(), first.as_slice(), second.as_slice()],
    )
}

#[test]
fn pairs_come_in_the_order_of_their_mention(rt: HostRuntime) -> Result<(), Fail> {
    let pairs = three_classes(rt.alloc())?.pairs;
    let expected = [pair(4, 1), pair(5, 0), pair(6, 0), pair(4, 2)];
    for (place, one) in expected.iter().enumerate() {
        assert_eq!(rt; pairs.get(place), Some(*one));
    }
    assert_eq!(rt; pairs.len(), 4);
    Ok(())
}

#[test]
fn initialisers_run_by_the_names_of_their_classes(rt: HostRuntime) -> Result<(), Fail> {
    let starts = three_classes(rt.alloc())?.starts;
    assert_eq!(rt; starts.as_slice(), [2, 1].as_slice());
    Ok(())
}

#[test]
fn calls_have_their_places_and_targets(rt: HostRuntime) -> Result<(), Fail> {
    let calls = three_classes(rt.alloc())?.calls;
    assert_eq!(rt; calls.len(), 1);
    if let Some(call) = calls.get(0) {
        assert_eq!(rt; (call.pair, call.ins), (0, 4));
        assert_eq!(rt; call.targets.as_slice(), [3].as_slice());
    }
    Ok(())
}

#[test]
fn each_method_is_typed(rt: HostRuntime) -> Result<(), Fail> {
    let typed = three_classes(rt.alloc())?.typed;
    let expected = [
        (pair(4, 1), 6),
        (pair(5, 0), 3),
        (pair(6, 0), 3),
        (pair(4, 2), 1),
    ];
    assert_eq!(rt; typed.len(), 4);
    for (place, (one, count)) in expected.iter().enumerate() {
        if let Some(found) = typed.get(place) {
            assert_eq!(rt; (found.method, found.code.len()), (one.method, *count));
        }
    }
    Ok(())
}

/// The kind and the place of a refusal.
fn refusal(alloc: Global, bytes: &[u8]) -> Option<(Kind, u64)> {
    match reached(alloc, &[bytes]) {
        Err(Stop::Refused(fault)) => Some((fault.kind, fault.at)),
        _ => None,
    }
}

#[test]
fn the_first_fault_is_told(rt: HostRuntime) -> Result<(), Fail> {
    let alloc = rt.alloc();
    // The method is synchronized, its code has fadd, and a pop of two in place of one.
    let cases = [
        (106, 0x29, Kind::Synchronized, 105),
        (130, 0x62, Kind::Unsupported, 130),
        (130, 0x58, Kind::Typing, 130),
    ];
    for (at, byte, kind, place) in cases {
        let found = refusal(alloc, &with_bytes(&[(at, byte)]));
        assert_eq!(rt; found, Some((kind, place)));
    }
    Ok(())
}

#[test]
fn a_call_that_leads_back_is_told(rt: HostRuntime) -> Result<(), Fail> {
    // The method calls itself, and drops nothing.
    let bytes = with_bytes(&[(82, 0x07), (84, 0x08), (130, 0x00)]);
    let found = refusal(rt.alloc(), &bytes);
    assert_eq!(rt; found, Some((Kind::Recursive, 127)));
    Ok(())
}

#[test]
fn a_service_at_the_start_is_told(rt: HostRuntime) -> Result<(), Fail> {
    let found = refusal(rt.alloc(), &EARLY);
    assert_eq!(rt; found, Some((Kind::AtStart, 138)));
    Ok(())
}
