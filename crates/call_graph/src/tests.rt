use crate::call_place::CallPlace;
use crate::components::components;
use crate::cycles::Cycles;
use crate::search::reached_from;
use kes_text::NoMemory;
use sqlite_items::Items;
use std::alloc::Global;
use std::test::Fail;

/// 0 runs 1, 1 and 2 run each other, 2 runs 3, 3 runs nothing, and 4 runs itself; 5 and more are none.
const EDGES: [[u32; 2]; 5] = [[1, 5], [2, 6], [1, 3], [5, 5], [4, 4]];

fn edges(alloc: Global) -> Result<Vec<Items<u32>>, NoMemory> {
    let mut edges = Vec::new(alloc);
    for nexts in EDGES {
        edges.push(Items::from_slice(alloc, &nexts)?)?;
    }
    Ok(edges)
}

#[test]
fn what_leads_back_is_one_component(rt: HostRuntime) -> Result<(), Fail> {
    let alloc = rt.alloc();
    let edges = edges(alloc)?;
    let found = components(alloc, edges.as_slice())?;
    assert_eq!(rt; found.as_slice(), [3, 2, 2, 1, 4].as_slice());
    Ok(())
}

/// What of the first five numbers is reached from these.
fn reached(alloc: Global, roots: &[u32]) -> Result<[bool; 5], NoMemory> {
    let edges = edges(alloc)?;
    let numbers = reached_from(alloc, edges.as_slice(), roots)?;
    let mut are = [false; 5];
    for number in 0..5u32 {
        are[number as usize] = numbers.has(number);
    }
    Ok(are)
}

#[test]
fn ways_are_followed(rt: HostRuntime) -> Result<(), Fail> {
    let alloc = rt.alloc();
    assert_eq!(rt; reached(alloc, &[1])?, [false, true, true, true, false]);
    assert_eq!(rt;
        reached(alloc, &[3, 4, 9])?,
        [false, false, false, true, true]
    );
    Ok(())
}

/// Whether a call of one pair by another lies on a cycle.
fn is_on_cycle(alloc: Global, pair: u32, target: u32) -> Result<bool, NoMemory> {
    let edges = edges(alloc)?;
    let cycles = Cycles::of(alloc, edges.as_slice())?;
    let targets = Items::from_slice(alloc, &[target])?;
    let ins = 0;
    let call = CallPlace { pair, ins, targets };
    cycles.has(alloc, &call)
}

#[test]
fn calls_lie_on_cycles_or_beside_them(rt: HostRuntime) -> Result<(), Fail> {
    let cases = [
        (0, 1, false),
        (1, 2, true),
        (2, 1, true),
        (2, 3, false),
        (4, 4, true),
    ];
    for (pair, target, on) in cases {
        assert_eq!(rt; is_on_cycle(rt.alloc(), pair, target)?, on);
    }
    Ok(())
}
