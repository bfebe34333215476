//! The input of a command: a configuration that is bound to a world of classes, or the first of its faults.

ghost use Rattle.std.specs.Prelude.{◌≡◌, ◌+◌, ◌≤◌, [], length, map, slice_index_or, string_bytes, None, Ok, IfOk, IfErr};
ghost use Rattle.classfile.specs.Reading.{class_file};
ghost use Rattle.jworld.specs.Faults.{world_fault};
ghost use Rattle.kbind.specs.Bound.{bound_of};
ghost use Rattle.kconfig.specs.Sound.{IsSound};
ghost use Rattle.reach.specs.Reach.{reach_of};
ghost use Rattle.first_form.specs.Configuration.{configuration};
ghost use Rattle.keso_cli.specs.Refusals.{first_fault, world_refusal, name_of, reach_refusal};
ghost use Rattle.keso_cli.specs.Request.{most_classes};
ghost use Rattle.keso_cli.specs.Stops.{FileStops, ClassesStop, FaultStops, InputStops};
ghost use Rattle.keso_cli.specs.Taken.{IsTaken};

use crate::inputs::Classes;
use crate::trouble::Trouble;
use crate::words::Inputs;
use classfile::{Class, read_class};
use jworld::World;
use kbind::{Bound, bind};
use kconfig::{Config, read_config};
use kes_text::{Refusal, Stop};
use reach::{Reached, reach};
use std::alloc::Global;

/// A configuration that is bound to a world of classes.
#[derive(Drop)]
struct Bounded<'b> {
    world: World<'b>,
    bound: Bound,
}

/// The same, with what is reached.
#[derive(Drop)]
pub struct Input<'b> {
    pub world: World<'b>,
    pub bound: Bound,
    pub reached: Reached,
}

/// The configuration that the text of this name is.
#[tactic(auto, unfolding(first_form::specs::Configuration::configuration))]
fn config_in<'a>(alloc: Global, name: &'a str, text: &[u8]) -> Result<Config, Trouble<'a>>
    ensures ok { IfOk result (λ config. configuration text.now ≡ Ok config) }
    ensures sound { IfOk result IsSound }
    ensures stop { IfErr result (λ trouble. FileStops trouble 0 name.now (configuration text.now)) }
{
    match read_config(alloc, text) {
        Ok(config) => Ok(config),
        Err(Stop::Refused(fault)) => Err(Trouble::Refused(Refusal { file: 0, ..fault }, name)),
        Err(Stop::NoMemory) => Err(Trouble::NoMemory),
    }
}

/// The name of a class file, by its place among them.
fn class_name<'a>(names: Inputs<'a>, index: usize) -> &'a str
    ensures { result.now ≡ slice_index_or (map string_bytes names.entry.classes.now) index [] }
{
    match names.classes.get(index) {
        Some(name) => name.as_str(),
        None => "",
    }
}

/// A class file by its place among them.
fn class_in<'a, 'b>(
    alloc: Global,
    names: Inputs<'a>,
    index: u32,
    bytes: &'b [u8],
) -> Result<Class<'b>, Trouble<'a>>
    requires { index ≤ 2048 }
    ensures ok { IfOk result (λ class. class_file bytes.now ≡ Ok class) }
    ensures stop { IfErr result (λ trouble. FileStops trouble (index + 1) (slice_index_or (map string_bytes names.entry.classes.now) index []) (class_file bytes.now)) }
{
    match read_class(alloc, bytes) {
        Ok(class) => Ok(class),
        Err(Stop::Refused(fault)) => {
            let name = class_name(names, index as usize);
            let file = index + 1;
            Err(Trouble::Refused(Refusal { file, ..fault }, name))
        }
        Err(Stop::NoMemory) => Err(Trouble::NoMemory),
    }
}

/// The class files, in their order.
fn classes_in<'a, 'b>(
    alloc: Global,
    names: Inputs<'a>,
    files: &'b [Vec<u8>],
) -> Result<Classes<'b>, Trouble<'a>>
    requires { length files.now ≤ most_classes }
    ensures ok { IfOk result (λ classes. map class_file (map (λ file. file.items) files.now) ≡ map Ok classes) }
    ensures stop { IfErr result (λ trouble. ClassesStop trouble (map string_bytes names.entry.classes.now) (first_fault 1 (map (λ file. file.items) files.now))) }
{
    let mut classes = Classes::new(alloc);
    let mut index = 0;
    for file in files {
        classes.push(class_in(alloc, names, index, file.as_slice())?)?;
        index += 1;
    }
    Ok(classes)
}

/// The world that the classes are.
fn world_in<'a, 'b>(
    alloc: Global,
    names: Inputs<'a>,
    classes: Classes<'b>,
) -> Result<World<'b>, Trouble<'a>>
    requires { length classes ≤ most_classes }
    ensures same { IfOk result (λ world. world ≡ classes.entry) }
    ensures ok { IfOk result (λ _. world_fault classes.entry ≡ None) }
    ensures stop { IfErr result (λ trouble. ClassesStop trouble (map string_bytes names.entry.classes.now) (world_refusal classes.entry)) }
{
    match World::new(alloc, classes.into_vec()) {
        Ok(world) => Ok(world),
        Err(Stop::Refused(fault)) => {
            let name = class_name(names, fault.file as usize);
            let file = fault.file + 1;
            Err(Trouble::Refused(Refusal { file, ..fault }, name))
        }
        Err(Stop::NoMemory) => Err(Trouble::NoMemory),
    }
}

/// The configuration of this name with what its lines name.
fn bound_in<'a>(
    alloc: Global,
    name: &'a str,
    config: Config,
    world: &World<'_>,
) -> Result<Bound, Trouble<'a>>
    ensures ok { IfOk result (λ bound. bound_of world.now config ≡ Ok bound) }
    ensures stop { IfErr result (λ trouble. FileStops trouble 0 name.now (bound_of world.now config)) }
{
    match bind(alloc, config, world) {
        Ok(bound) => Ok(bound),
        Err(Stop::Refused(unbound)) => Err(Trouble::Refused(Refusal { file: 0, ..unbound }, name)),
        Err(Stop::NoMemory) => Err(Trouble::NoMemory),
    }
}

/// The configuration bound to the world.
fn bound_input<'a, 'b>(
    alloc: Global,
    name: &'a str,
    config: Config,
    world: World<'b>,
) -> Result<Bounded<'b>, Trouble<'a>>
    ensures same { IfOk result (λ input. input.world ≡ world.entry) }
    ensures ok { IfOk result (λ input. bound_of world.entry config ≡ Ok input.bound) }
    ensures stop { IfErr result (λ trouble. FileStops trouble 0 name.now (bound_of world.entry config)) }
{
    let bound = bound_in(alloc, name, config, &world)?;
    Ok(Bounded { world, bound })
}

/// The name of a file by its number: the configuration is 0, and the first class file 1.
fn file_name<'a>(names: Inputs<'a>, number: u32) -> &'a str
    ensures { result.now ≡ name_of names.entry.config.now (map string_bytes names.entry.classes.now) number }
{
    match number {
        0 => names.config,
        _ => class_name(names, number as usize - 1),
    }
}

/// What is reached from the tasks' entries.
fn reached_in<'a>(
    alloc: Global,
    names: Inputs<'a>,
    world: &World<'_>,
    bound: &Bound,
) -> Result<Reached, Trouble<'a>>
    ensures ok { IfOk result (λ reached. reach_of (record { files = world.now; bound = bound.now }) ≡ Ok reached) }
    ensures stop { IfErr result (λ trouble. FaultStops trouble names.entry.config.now (map string_bytes names.entry.classes.now) (reach_refusal world.now bound.now)) }
{
    match reach(alloc, bound, world) {
        Ok(reached) => Ok(reached),
        Err(Stop::Refused(fault)) => {
            let file = fault.file.saturating_add(1);
            let name = file_name(names, file);
            Err(Trouble::Refused(Refusal { file, ..fault }, name))
        }
        Err(Stop::NoMemory) => Err(Trouble::NoMemory),
    }
}

/// The input of a command. A configuration or a class file that has a fault is refused under its name.
pub fn read_input<'a, 'b>(
    alloc: Global,
    names: Inputs<'a>,
    config: &[u8],
    files: &'b [Vec<u8>],
) -> Result<Input<'b>, Trouble<'a>>
    requires { length files.now ≤ most_classes }
    ensures ok { IfOk result (λ input. IsTaken config.now (map (λ file. file.items) files.now) input.bound input.world) }
    ensures reached { IfOk result (λ input. reach_of (record { files = input.world; bound = input.bound }) ≡ Ok input.reached) }
    ensures sound { IfOk result (λ input. IsSound input.bound.config) }
    ensures stop { IfErr result (λ trouble. InputStops trouble names.entry.config.now (map string_bytes names.entry.classes.now) config.now (map (λ file. file.items) files.now)) }
{
    let config = config_in(alloc, names.config, config)?;
    let classes = classes_in(alloc, names, files)?;
    let world = world_in(alloc, names, classes)?;
    let input = bound_input(alloc, names.config, config, world)?;
    let reached = reached_in(alloc, names, &input.world, &input.bound)?;
    Ok(Input {
        world: input.world,
        bound: input.bound,
        reached,
    })
}
