use super::*;
use osek_core::{FailKind, Place};
use std::test::Fail;

/// The map of one task whose method activates it again.
const ONE_METHOD: &str = "keso map 1
order little
devices 0
domains 1
method 0 Main.run()V
region 0 heap 0
function 0 0 method 0
weights 1 1 1
";

/// A line of each form.
const EACH_FORM: &str = "keso map 1
order big
devices 64
domains 2
method 0 Main.run()V
method 1 Log.put([I)I
region 0 heap 0
region 1 statics 1
region 2 scratch
function 0 0 method 1
weights 0 255
function 1 1 alloc
weights
function 2 1 copy 7
weights 10
fail 1 HeldAtEnd 0 0
fail 2 HeapFull 1 65535
";

fn text(alloc: Global, text: &str) -> Result<Items<u8>, NoMemory> {
    Items::from_slice(alloc, text.as_bytes())
}

fn function(
    alloc: Global,
    domain: u32,
    kind: FunctionKind,
    weights: &[u8],
) -> Result<FunctionRow, NoMemory> {
    let weights = Items::from_slice(alloc, weights)?;
    Ok(FunctionRow {
        domain,
        kind,
        weights,
    })
}

fn one_method(alloc: Global) -> Result<Map, NoMemory> {
    let made_of = FunctionKind::Method { method: 0 };
    Ok(Map {
        big: false,
        devices: 0,
        domains: 1,
        methods: Items::from_vec(vec![in alloc; text(alloc, "Main.run()V")?]?),
        regions: Items::from_slice(alloc, &[RegionRow::Heap { domain: 0 }])?,
        functions: Items::from_vec(vec![in alloc; function(alloc, 0, made_of, &[1, 1, 1])?]?),
        fails: Items::new(alloc),
    })
}

#[test]
fn prints_one_method(rt: HostRuntime) -> Result<(), Fail> {
    let map = one_method(rt.alloc())?;
    let text = print_map(rt.alloc(), &map)?;
    assert_eq!(rt; text.as_slice(), ONE_METHOD.as_bytes());
    Ok(())
}

fn each_form(alloc: Global) -> Result<Map, NoMemory> {
    let method = function(alloc, 0, FunctionKind::Method { method: 1 }, &[0, 255])?;
    let allocates = function(alloc, 1, FunctionKind::Alloc, &[])?;
    let copies = function(alloc, 1, FunctionKind::Copy { portal: 7 }, &[10])?;
    let held = FailRow {
        kind: FailKind::HeldAtEnd,
        place: Place { method: 0, pc: 0 },
    };
    let full = FailRow {
        kind: FailKind::HeapFull,
        place: Place {
            method: 1,
            pc: 65535,
        },
    };
    Ok(Map {
        big: true,
        devices: 64,
        domains: 2,
        methods: Items::from_vec(vec![in alloc;
            text(alloc, "Main.run()V")?,
            text(alloc, "Log.put([I)I")?,
        ]?),
        regions: Items::from_slice(
            alloc,
            &[
                RegionRow::Heap { domain: 0 },
                RegionRow::Statics { domain: 1 },
                RegionRow::Scratch,
            ],
        )?,
        functions: Items::from_vec(vec![in alloc; method, allocates, copies]?),
        fails: Items::from_slice(alloc, &[held, full])?,
    })
}

#[test]
fn prints_each_form(rt: HostRuntime) -> Result<(), Fail> {
    let map = each_form(rt.alloc())?;
    let text = print_map(rt.alloc(), &map)?;
    assert_eq!(rt; text.as_slice(), EACH_FORM.as_bytes());
    Ok(())
}
