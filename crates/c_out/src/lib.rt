//! Prints a C program: the one text that is its own.
#![tactic(auto)]

mod expression;
mod function;
mod name;
mod prologue;
mod service;
mod statement;
#[cfg(test)]
mod tests;

ghost use Rattle.std.specs.Prelude.{◌≡◌, ◌++◌, codes, decimal, flat_map, IfOk, OnOk};
ghost use Rattle.std.specs.List.{enumerate_from};
ghost use Rattle.csubset.specs.Text.Line.{line};
ghost use Rattle.csubset.specs.Text.Program.{body_text, first_words, program_text, region_line, start_line, task_line};

use crate::function::{append_declarations, append_definitions};
use crate::name::{append_function, append_number, append_region};
use crate::prologue::prologue_text;
use csubset::{CProgram, CRegion, CTask};
use kes_text::{NoMemory, append_decimal};
use sqlite_items::Items;
use std::alloc::Global;

/// The text of the program.
pub fn print_c(alloc: Global, program: &CProgram) -> Result<Vec<u8>, NoMemory>
    ensures { IfOk result (λ text. text.items ≡ program_text program.now) }
{
    let mut out = Vec::new(alloc);
    out.extend_from_slice(prologue_text().as_bytes())?;
    append_body(&mut out, program)?;
    Ok(out)
}

/// The lines behind the prologue.
fn append_body(out: &mut Vec<u8>, program: &CProgram) -> Result<(), NoMemory>
    ensures { OnOk result (out.new.items ≡ out.old.items ++ body_text program.now) }
{
    append_device(out, program.device_base)?;
    append_objects(out, b"DeclareTask(t_", program.tasks.as_slice())?;
    append_objects(out, b"DeclareResource(r_", program.resources.as_slice())?;
    append_objects(out, b"DeclareEvent(e_", program.events.as_slice())?;
    append_objects(out, b"DeclareAlarm(a_", program.alarms.as_slice())?;
    append_regions(out, program.regions.as_slice())?;
    append_declarations(out, program.functions.as_slice())?;
    append_definitions(out, program.functions.as_slice())?;
    append_startup(out, program.starts.as_slice())?;
    append_task_lines(out, program.task_lines.as_slice())?;
    Ok(())
}

fn append_device(out: &mut Vec<u8>, base: u32) -> Result<(), NoMemory>
    ensures { OnOk result (
        out.new.items ≡ out.old.items
        ++ line (codes "#define KDEV " ++ decimal base ++ codes "ul")) }
{
    out.extend_from_slice(b"#define KDEV ")?;
    append_decimal(out, u64::from(base))?;
    out.extend_from_slice(b"ul\n")?;
    Ok(())
}

/// A Declare line for each name. `opening` is the line up to the name.
fn append_objects(out: &mut Vec<u8>, opening: &[u8], names: &[Items<u8>]) -> Result<(), NoMemory>
    ensures { OnOk result (
        out.new.items ≡ out.old.items
        ++ flat_map (λ name. line (opening.now ++ name ++ codes ");")) names.now) }
{
    for name in names {
        out.extend_from_slice(opening)?;
        out.extend_from_slice(name.as_slice())?;
        out.extend_from_slice(b");\n")?;
    }
    Ok(())
}

fn append_regions(out: &mut Vec<u8>, regions: &[CRegion]) -> Result<(), NoMemory>
    ensures { OnOk result (
        out.new.items ≡ out.old.items
        ++ flat_map (λ r. region_line r.0 r.1) (enumerate_from 0 regions.now)) }
{
    for (number, region) in regions.iter().enumerate() {
        append_region_line(out, number as u64, region)?;
    }
    Ok(())
}

fn append_region_line(out: &mut Vec<u8>, number: u64, region: &CRegion) -> Result<(), NoMemory>
    ensures { OnOk result (out.new.items ≡ out.old.items ++ region_line number region.now) }
{
    out.extend_from_slice(b"static W ")?;
    append_region(out, number)?;
    out.extend_from_slice(b"[")?;
    append_decimal(out, u64::from(region.words))?;
    out.extend_from_slice(b"]")?;
    append_first_words(out, region.first.as_slice())?;
    out.extend_from_slice(b";\n")
}

/// What a region begins with, where not all its words are zero.
fn append_first_words(out: &mut Vec<u8>, words: &[u64]) -> Result<(), NoMemory>
    ensures { OnOk result (out.new.items ≡ out.old.items ++ first_words words.now) }
{
    let Some((first, others)) = words.split_first() else {
        return Ok(());
    };
    out.extend_from_slice(b" = { ")?;
    append_number(out, *first)?;
    for word in others {
        out.extend_from_slice(b", ")?;
        append_number(out, *word)?;
    }
    out.extend_from_slice(b" }")
}

fn append_startup(out: &mut Vec<u8>, starts: &[u32]) -> Result<(), NoMemory>
    ensures { OnOk result (
        out.new.items ≡ out.old.items
        ++ (line (codes "void StartupHook(void) {") ++ flat_map start_line starts.now
        ++ line (codes "}"))) }
{
    out.extend_from_slice(b"void StartupHook(void) {\n")?;
    append_starts(out, starts)?;
    out.extend_from_slice(b"}\n")?;
    Ok(())
}

fn append_starts(out: &mut Vec<u8>, starts: &[u32]) -> Result<(), NoMemory>
    ensures { OnOk result (out.new.items ≡ out.old.items ++ flat_map start_line starts.now) }
{
    for function in starts {
        out.extend_from_slice(b"  (void)")?;
        append_function(out, u64::from(*function))?;
        out.extend_from_slice(b"();\n")?;
    }
    Ok(())
}

fn append_task_lines(out: &mut Vec<u8>, tasks: &[CTask]) -> Result<(), NoMemory>
    ensures { OnOk result (out.new.items ≡ out.old.items ++ flat_map task_line tasks.now) }
{
    for task in tasks {
        out.extend_from_slice(b"KTASK(t_")?;
        out.extend_from_slice(task.name.as_slice())?;
        out.extend_from_slice(b", ")?;
        append_function(out, u64::from(task.function))?;
        out.extend_from_slice(b")\n")?;
    }
    Ok(())
}
