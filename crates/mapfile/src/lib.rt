//! Prints the map that ties the C to the bytecode.
#![tactic(auto)]

#[cfg(test)]
mod tests;

ghost use Rattle.std.specs.Prelude.{◌≡◌, ◌++◌, codes, decimal, flat_map, IfOk, OnOk};
ghost use Rattle.mapfile.specs.MapText.{fail_line, function_lines, function_text, map_text, method_line, number_word, order_text, region_line, region_text};
ghost use Rattle.kes_text.specs.Numbered.{numbered};

use csubset::{FailRow, FunctionKind, FunctionRow, Map, RegionRow};
use kes_text::{NoMemory, append_decimal};
use script::fail_kind_name;
use sqlite_items::Items;
use std::alloc::Global;

/// The text of the map: its lines in the order of their forms, each numbered as it stands in its list.
pub fn print_map(alloc: Global, map: &Map) -> Result<Vec<u8>, NoMemory>
    ensures { IfOk result (λ text. text.items ≡ map_text map.now) }
{
    let mut out = Vec::from_slice(alloc, b"keso map 1\norder ")?;
    out.extend_from_slice(order_text(map.big).as_bytes())?;
    out.extend_from_slice(b"\ndevices")?;
    append_number(&mut out, u64::from(map.devices))?;
    out.extend_from_slice(b"\ndomains")?;
    append_number(&mut out, u64::from(map.domains))?;
    out.extend_from_slice(b"\n")?;
    append_methods(&mut out, map.methods.as_slice())?;
    append_regions(&mut out, map.regions.as_slice())?;
    append_functions(&mut out, map.functions.as_slice())?;
    append_fails(&mut out, map.fails.as_slice())?;
    Ok(out)
}

fn order_text(big: bool) -> &'static str
    ensures { result.now ≡ order_text big }
{
    if big { "big" } else { "little" }
}

/// The number, behind a space.
fn append_number(out: &mut Vec<u8>, number: u64) -> Result<(), NoMemory>
    ensures { OnOk result (out.new.items ≡ out.old.items ++ number_word number) }
{
    out.extend_from_slice(b" ")?;
    append_decimal(out, number)
}

fn append_methods(out: &mut Vec<u8>, methods: &[Items<u8>]) -> Result<(), NoMemory>
    ensures { OnOk result (out.new.items ≡ out.old.items ++ numbered method_line 0 methods.now) }
{
    for (number, name) in methods.iter().enumerate() {
        append_method(out, number as u64, name)?;
    }
    Ok(())
}

#[tactic(auto, unfolding(crate::specs::MapText::method_line))]
fn append_method(out: &mut Vec<u8>, number: u64, name: &Items<u8>) -> Result<(), NoMemory>
    ensures { OnOk result (out.new.items ≡ out.old.items ++ method_line number name.now) }
{
    out.extend_from_slice(b"method")?;
    append_number(out, number)?;
    out.extend_from_slice(b" ")?;
    out.extend_from_slice(name.as_slice())?;
    out.extend_from_slice(b"\n")
}

fn append_regions(out: &mut Vec<u8>, regions: &[RegionRow]) -> Result<(), NoMemory>
    ensures { OnOk result (out.new.items ≡ out.old.items ++ numbered region_line 0 regions.now) }
{
    for (number, region) in regions.iter().enumerate() {
        append_region(out, number as u64, *region)?;
    }
    Ok(())
}

#[tactic(auto, unfolding(crate::specs::MapText::region_line))]
fn append_region(out: &mut Vec<u8>, number: u64, region: RegionRow) -> Result<(), NoMemory>
    ensures { OnOk result (out.new.items ≡ out.old.items ++ region_line number region) }
{
    out.extend_from_slice(b"region")?;
    append_number(out, number)?;
    out.extend_from_slice(b" ")?;
    append_region_use(out, region)?;
    out.extend_from_slice(b"\n")
}

/// What the region is for.
fn append_region_use(out: &mut Vec<u8>, region: RegionRow) -> Result<(), NoMemory>
    ensures { OnOk result (out.new.items ≡ out.old.items ++ region_text region) }
{
    match region {
        RegionRow::Heap { domain } => {
            out.extend_from_slice(b"heap")?;
            append_number(out, u64::from(domain))
        }
        RegionRow::Statics { domain } => {
            out.extend_from_slice(b"statics")?;
            append_number(out, u64::from(domain))
        }
        RegionRow::Scratch => out.extend_from_slice(b"scratch"),
    }
}

fn append_functions(out: &mut Vec<u8>, functions: &[FunctionRow]) -> Result<(), NoMemory>
    ensures { OnOk result (out.new.items ≡ out.old.items ++ numbered function_lines 0 functions.now) }
{
    for (number, function) in functions.iter().enumerate() {
        append_function(out, number as u64, function)?;
    }
    Ok(())
}

#[tactic(auto, unfolding(crate::specs::MapText::function_lines))]
fn append_function(out: &mut Vec<u8>, number: u64, function: &FunctionRow) -> Result<(), NoMemory>
    ensures { OnOk result (out.new.items ≡ out.old.items ++ function_lines number function.now) }
{
    out.extend_from_slice(b"function")?;
    append_number(out, number)?;
    append_number(out, u64::from(function.domain))?;
    out.extend_from_slice(b" ")?;
    append_function_kind(out, function.kind)?;
    out.extend_from_slice(b"\nweights")?;
    append_weights(out, function.weights.as_slice())?;
    out.extend_from_slice(b"\n")
}

/// What the function is made of.
fn append_function_kind(out: &mut Vec<u8>, kind: FunctionKind) -> Result<(), NoMemory>
    ensures { OnOk result (out.new.items ≡ out.old.items ++ function_text kind) }
{
    match kind {
        FunctionKind::Method { method } => {
            out.extend_from_slice(b"method")?;
            append_number(out, u64::from(method))
        }
        FunctionKind::Alloc => out.extend_from_slice(b"alloc"),
        FunctionKind::Copy { portal } => {
            out.extend_from_slice(b"copy")?;
            append_number(out, u64::from(portal))
        }
    }
}

fn append_weights(out: &mut Vec<u8>, weights: &[u8]) -> Result<(), NoMemory>
    ensures { OnOk result (out.new.items ≡ out.old.items ++ flat_map number_word weights.now) }
{
    for weight in weights {
        append_number(out, u64::from(*weight))?;
    }
    Ok(())
}

fn append_fails(out: &mut Vec<u8>, fails: &[FailRow]) -> Result<(), NoMemory>
    ensures { OnOk result (out.new.items ≡ out.old.items ++ numbered fail_line 1 fails.now) }
{
    for (place, fail) in fails.iter().enumerate() {
        append_fail(out, place as u64 + 1, fail)?;
    }
    Ok(())
}

#[tactic(auto, unfolding(crate::specs::MapText::fail_line))]
fn append_fail(out: &mut Vec<u8>, number: u64, fail: &FailRow) -> Result<(), NoMemory>
    ensures { OnOk result (out.new.items ≡ out.old.items ++ fail_line number fail.now) }
{
    out.extend_from_slice(b"fail")?;
    append_number(out, number)?;
    out.extend_from_slice(b" ")?;
    out.extend_from_slice(fail_kind_name(fail.kind).as_bytes())?;
    append_number(out, u64::from(fail.place.method))?;
    append_number(out, u64::from(fail.place.pc))?;
    out.extend_from_slice(b"\n")
}
