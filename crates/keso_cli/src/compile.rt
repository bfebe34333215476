ghost use Rattle.std.specs.Prelude.{◌≤◌, length, map, string_bytes, IfOk, IfErr};
ghost use Rattle.first_form.specs.declared.config.FirstConfig.{FirstConfig};
ghost use Rattle.first_form.specs.declared.first_class.FirstClass.{FirstClass};
ghost use Rattle.first_form.specs.Config.{config_of};
ghost use Rattle.first_form.specs.Fits.{if_they_fit, only_class};
ghost use Rattle.keso_cli.specs.Due.{AreTextsOf, AreMadeOf};
ghost use Rattle.first_form.specs.Program.{built_of};
ghost use Rattle.keso_cli.specs.Refusals.{IsAccepted};
ghost use Rattle.keso_cli.specs.Request.{most_classes};
ghost use Rattle.keso_cli.specs.Stops.{CompileStops};

use crate::reading::{Input, read_input};
use crate::trouble::{LATER, Trouble};
use crate::words::Inputs;
use c_out::print_c;
use classfile::Class;
use first_form::{Built, emit, first_input};
use kconfig::Config;
use kes_text::NoMemory;
use mapfile::print_map;
use oil_out::print_oil;
use std::alloc::Global;

/// The three texts that a build writes.
#[derive(Drop)]
pub struct Texts {
    pub c: Vec<u8>,
    pub oil: Vec<u8>,
    pub map: Vec<u8>,
}

/// The texts of what was built.
fn texts_of(alloc: Global, built: &Built) -> Result<Texts, NoMemory>
    ensures { IfOk result (AreTextsOf built.now) }
{
    Ok(Texts {
        c: print_c(alloc, &built.program)?,
        oil: print_oil(alloc, &built.tables)?,
        map: print_map(alloc, &built.map)?,
    })
}

/// The texts of a configuration and classes, if these are of the first form.
fn texts_in(
    alloc: Global,
    config: &Config,
    classes: &[Class<'_>],
) -> Result<Option<Texts>, NoMemory>
    ensures { IfOk result (AreMadeOf (if_they_fit (config_of config.now) (only_class classes.now))) }
{
    let Some(first) = first_input(alloc, config, classes)? else {
        return Ok(None);
    };
    let built = emit(alloc, &first.config, &first.class)?;
    Ok(Some(texts_of(alloc, &built)?))
}

/// The texts of an input, which isn't kept.
fn texts_of_input(alloc: Global, input: Input<'_>) -> Result<Option<Texts>, NoMemory>
    ensures { IfOk result (AreMadeOf (if_they_fit (config_of input.entry.bound.config) (only_class input.entry.world))) }
{
    texts_in(alloc, &input.bound.config, input.world.files())
}

/// The texts of an input of the first form. A configuration or a class file that has a fault is refused
/// under its name, and any other input under the configuration's.
pub fn compile<'a>(
    alloc: Global,
    names: Inputs<'a>,
    config: &[u8],
    files: &[Vec<u8>],
) -> Result<Texts, Trouble<'a>>
    requires { length files.now ≤ most_classes }
    ensures texts { IfOk result (λ texts. (first : FirstConfig) × (second : FirstClass)
        × IsAccepted config.now (map (λ file. file.items) files.now) first second × AreTextsOf (built_of first second) texts) }
    ensures stop { IfErr result (λ trouble. CompileStops trouble names.entry.config.now (map string_bytes names.entry.classes.now) config.now (map (λ file. file.items) files.now)) }
{
    let input = read_input(alloc, names, config, files)?;
    match texts_of_input(alloc, input)? {
        Some(texts) => Ok(texts),
        None => Err(Trouble::Refused(LATER, names.config)),
    }
}
