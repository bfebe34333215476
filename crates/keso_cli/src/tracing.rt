//! What a trace runs: an application, the lines of a script, and the names of which event lines speak.

ghost use Rattle.std.specs.Prelude.{◌≡◌, ◌≤◌, ◌<◌, All, length, map, string_bytes, Ok, IfOk, IfErr};
ghost use Rattle.b_machine.specs.Trace.{IsMove};
ghost use Rattle.kconfig.specs.Sound.{IsSound};
ghost use Rattle.reach.specs.Reach.{reach_of};
ghost use Rattle.script.specs.Names.{AreFew};
ghost use Rattle.keso_cli.specs.Request.{most_classes};
ghost use Rattle.keso_cli.specs.Run.{IsRun, IsRunOf, RunStops};
ghost use Rattle.keso_cli.specs.Stops.{FileStops};
ghost use Rattle.keso_cli.specs.TraceEnds.{trace_names};
ghost use Rattle.keso_cli.specs.Traced.{script_in, is_traced};

use crate::reading::{Input, read_input};
use crate::trouble::{LATER, Trouble};
use crate::words::Trace;
use b_machine::Program;
use kconfig::Config;
use kes_text::{NoMemory, Refusal, Stop};
use run_input::{names_of_run, program_of};
use run_names::names;
use script::{Line, Names, read_script};
use std::alloc::Global;

/// The most moves of a script.
const MOST_MOVES: u64 = 1_000_000_000_000_000_000;

/// What a trace runs.
#[derive(Drop)]
pub struct Run<'b> {
    pub program: Program<'b>,
    pub names: Names,
    pub lines: Vec<Line>,
}

/// The lines of the script of this name.
#[tactic(auto, unfolding(crate::specs::Traced::script_in))]
fn script_in<'a>(
    alloc: Global,
    name: &'a str,
    config: &Config,
    text: &[u8],
) -> Result<Vec<Line>, Trouble<'a>>
    requires small { config.now.devices.size ≤ 65536 }
    requires sound { IsSound config.now }
    ensures ok { IfOk result (λ lines. script_in config.now text.now ≡ Ok lines.items) }
    ensures stop { IfErr result (λ trouble. FileStops trouble 0 name.now (script_in config.now text.now)) }
{
    let names = names(alloc, config)?;
    match read_script(alloc, text, &names, MOST_MOVES) {
        Ok(lines) => Ok(lines),
        Err(Stop::Refused(fault)) => Err(Trouble::Refused(Refusal { file: 0, ..fault }, name)),
        Err(Stop::NoMemory) => Err(Trouble::NoMemory),
    }
}

/// Whether runs under this configuration are traced: it has neither device bytes nor portals.
fn is_traced(config: &Config) -> bool
    ensures { result ≡ is_traced config.now }
{
    config.devices.line == 0
        && config.cells.len() == 0
        && config.objects.len() == 0
        && config.device_methods.len() == 0
        && config.portals.len() == 0
}

/// The run of an input with the lines of a script.
fn run_of(alloc: Global, input: Input<'_>, lines: Vec<Line>) -> Result<Run<'_>, NoMemory>
    requires small { input.bound.config.devices.size ≤ 65536 }
    requires reached { reach_of (record { files = input.world; bound = input.bound }) ≡ Ok input.reached }
    ensures run { IfOk result (IsRunOf input.entry.world input.entry.bound input.entry.reached) }
    ensures lines { IfOk result (λ run. run.lines.items ≡ lines.items) }
{
    let typed = input.reached.typed.as_slice();
    let names = names_of_run(alloc, &input.world, &input.bound.config, typed)?;
    let program = program_of(alloc, input.world, input.bound, input.reached)?;
    Ok(Run {
        program,
        names,
        lines,
    })
}

/// The run of an input and a script. A file that has a fault is refused under its name.
pub fn read_run<'a, 'b>(
    alloc: Global,
    asked: Trace<'a>,
    config: &[u8],
    script: &[u8],
    files: &'b [Vec<u8>],
) -> Result<Run<'b>, Trouble<'a>>
    requires { length files.now ≤ most_classes }
    ensures ok { IfOk result (IsRun config.now script.now (map (λ file. file.items) files.now)) }
    ensures sound { IfOk result (λ run. IsSound run.program.bound.config) }
    ensures moves { IfOk result (λ run. All (λ line. IsMove run.program line.step) run.lines.items) }
    ensures few { IfOk result (λ run. AreFew run.names) }
    ensures stop { IfErr result (λ trouble. RunStops trouble (trace_names asked.entry.inputs.config.now asked.entry.script.now (map string_bytes asked.entry.inputs.classes.now))
        config.now script.now (map (λ file. file.items) files.now)) }
{
    let input = read_input(alloc, asked.inputs, config, files)?;
    let lines = script_in(alloc, asked.script, &input.bound.config, script)?;
    if !is_traced(&input.bound.config) {
        return Err(Trouble::Refused(LATER, asked.inputs.config));
    }
    Ok(run_of(alloc, input, lines)?)
}
