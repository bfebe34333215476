//! From the bytes of class files, a configuration and a script to the lines of the run.

ghost use Rattle.std.specs.Prelude.{◌≡◌, All, IfOk};
ghost use Rattle.kconfig.specs.Sound.{IsSound};
ghost use Rattle.run_names.specs.Objects.{names_of};
ghost use Rattle.script.specs.InForm.{IsLine};
ghost use Rattle.script.specs.Names.{AreFew};

use b_machine::Program;
use classfile::{Class, read_class};
use jworld::World;
use kbind::{Bound, bind};
use kconfig::{Config, read_config};
use kes_outside::MemSink;
use kes_text::{NoMemory, Stop};
use reach::{Reached, reach};
use replay::trace;
use run_input::{names_of_run, program_of};
use run_names::names;
use script::{Line, Names, read_script};
use std::alloc::{AllocError, Global};

/// The most moves of a script.
const MOST_MOVES: u64 = 1_000_000_000_000_000_000;

fn world<'a>(alloc: Global, files: &[&'a [u8]]) -> Result<World<'a>, Stop> {
    let mut classes: Vec<Class<'a>> = Vec::new(alloc);
    for file in files {
        classes.push(read_class(alloc, file)?)?;
    }
    if classes.len() > 2048 {
        return Err(Stop::NoMemory);
    }
    World::new(alloc, classes)
}

/// The configuration, bound to the world.
fn bound(alloc: Global, config: &str, world: &World<'_>) -> Result<Bound, Stop>
    ensures { IfOk result (λ bound. IsSound bound.config) }
{
    let config = read_config(alloc, config.as_bytes())?;
    let bound = bind(alloc, config, world)?;
    Ok(bound)
}

/// The names, whose counters and events are few.
fn few(names: Names) -> Result<Names, NoMemory>
    ensures few { IfOk result AreFew }
    ensures same { IfOk result (λ few. few ≡ names) }
{
    if names.counters.len() > 8 || names.events.len() > 32 {
        return Err(AllocError);
    }
    Ok(names)
}

/// The names of the configuration's objects.
fn named(alloc: Global, config: &Config) -> Result<Names, NoMemory>
    ensures few { IfOk result AreFew }
    ensures names { IfOk result (λ names. names ≡ names_of config.now) }
{
    if config.devices.size > 65536 {
        return Err(AllocError);
    }
    few(names(alloc, config)?)
}

/// The names of the run.
fn named_in_run(
    alloc: Global,
    world: &World<'_>,
    config: &Config,
    reached: &Reached,
) -> Result<Names, NoMemory>
    ensures few { IfOk result AreFew }
{
    if config.devices.size > 65536 {
        return Err(AllocError);
    }
    few(names_of_run(alloc, world, config, reached.typed.as_slice())?)
}

/// The lines of the script.
fn said(alloc: Global, config: &Config, text: &str) -> Result<Vec<Line>, Stop>
    ensures { IfOk result (λ lines. All (IsLine (names_of config.now)) lines.items) }
{
    let names = named(alloc, config)?;
    let lines = read_script(alloc, text.as_bytes(), &names, MOST_MOVES)?;
    Ok(lines)
}

/// A configuration that is bound to a world, and what is reached in it.
#[derive(Drop)]
struct Input<'a> {
    world: World<'a>,
    bound: Bound,
    reached: Reached,
}

/// The input of a world that is bound.
fn reached_input<'a>(alloc: Global, world: World<'a>, bound: Bound) -> Result<Input<'a>, Stop>
    ensures { IfOk result (λ input. input.bound ≡ bound) }
{
    let reached = reach(alloc, &bound, &world)?;
    Ok(Input {
        world,
        bound,
        reached,
    })
}

/// The input of a world under a configuration.
fn input_of<'a>(alloc: Global, config: &str, world: World<'a>) -> Result<Input<'a>, Stop>
    ensures { IfOk result (λ input. IsSound input.bound.config) }
{
    let bound = bound(alloc, config, &world)?;
    reached_input(alloc, world, bound)
}

/// The lines of a script, and the names of the events that the run shows.
#[derive(Drop)]
struct Telling {
    lines: Vec<Line>,
    names: Names,
}

/// What the script says of this input.
fn said_of(alloc: Global, input: &Input<'_>, script: &str) -> Result<Telling, Stop>
    ensures lines { IfOk result (λ said. All (IsLine (names_of input.now.bound.config)) said.lines.items) }
    ensures few { IfOk result (λ said. AreFew said.names) }
{
    let lines = said(alloc, &input.bound.config, script)?;
    let names = named_in_run(alloc, &input.world, &input.bound.config, &input.reached)?;
    Ok(Telling { lines, names })
}

/// The application, where it has few methods.
fn program<'a>(alloc: Global, input: Input<'a>) -> Result<Program<'a>, NoMemory>
    ensures { IfOk result (λ program. program.bound ≡ input.entry.bound) }
{
    if input.reached.typed.len() > 1_048_577 {
        return Err(AllocError);
    }
    program_of(alloc, input.world, input.bound, input.reached)
}

/// What the output has taken.
fn put(alloc: Global, program: Program<'_>, said: &Telling) -> Result<Vec<u8>, NoMemory>
    requires sound { IsSound program.bound.config }
    requires lines { All (IsLine (names_of program.bound.config)) said.now.lines.items }
    requires few { AreFew said.now.names }
{
    let mut out = MemSink::new(alloc, Vec::new(alloc));
    match trace(alloc, program, &said.names, said.lines.as_slice(), &mut out) {
        Ok(()) => Vec::from_slice(alloc, out.bytes()),
        Err(_) => Err(AllocError),
    }
}

/// The lines of an input's run.
fn run(alloc: Global, input: Input<'_>, script: &str) -> Result<Vec<u8>, Stop>
    requires { IsSound input.bound.config }
{
    let said = said_of(alloc, &input, script)?;
    let program = program(alloc, input)?;
    Ok(put(alloc, program, &said)?)
}

/// The lines of the run of these class files under a configuration, or the first refusal of the input. A refusal is
/// answered as the layer that refuses gives it.
pub fn lines(alloc: Global, config: &str, script: &str, files: &[&[u8]]) -> Result<Vec<u8>, Stop> {
    let input = input_of(alloc, config, world(alloc, files)?)?;
    run(alloc, input, script)
}

/// The lines of 1000 steps where the configuration's text ends in the name of an entry.
pub fn entry_lines(
    alloc: Global,
    config: &str,
    entry: &str,
    files: &[&[u8]],
) -> Result<Vec<u8>, Stop> {
    let config = format!(in alloc; "{config}{entry}")?;
    lines(alloc, config.as_str(), "run 1000\n", files)
}
