//! The command `trace`.

ghost use Rattle.std.specs.Prelude.{◌≤◌, All, length, map, string_bytes, IfErr, OnOk};
ghost use Rattle.b_machine.specs.Trace.{trace, IsMove};
ghost use Rattle.kconfig.specs.Sound.{IsSound};
ghost use Rattle.script.specs.Names.{AreFew, event_names};
ghost use Rattle.script.specs.Writing.{moves_of};
ghost use Rattle.replay.specs.Text.{trace_text};
ghost use Rattle.keso_cli.specs.Request.{most_classes};
ghost use Rattle.keso_cli.specs.Run.{ShowStops};
ghost use Rattle.replay.specs.Seen.{sink_seen, Takes};
ghost use Rattle.keso_cli.specs.Seen.{files_seen};
ghost use Rattle.keso_cli.specs.TraceEnds.{trace_names, TraceIsDone, TraceStops};

use crate::loading::{read, read_all};
use crate::tracing::{Run, read_run};
use crate::trouble::Trouble;
use crate::words::Trace;
use kes_outside::{Files, Sink};
use replay::Ending;
use std::alloc::Global;

/// Puts the lines of what a run shows on the output.
fn show<O: Sink>(alloc: Global, run: Run<'_>, out: &mut O) -> Result<(), Trouble<'static>>
    requires sound { IsSound run.program.bound.config }
    requires moves { All (λ line. IsMove run.program line.step) run.lines.items }
    requires few { AreFew run.names }
    ensures ok { OnOk result (Takes (trace_text (event_names run.entry.names) (trace run.entry.program (moves_of run.entry.lines.items)))
        (sink_seen O.taken O.faults out.old) (sink_seen O.taken O.faults out.new)) }
    ensures stop { IfErr result (λ trouble. ShowStops trouble (trace_text (event_names run.entry.names) (trace run.entry.program (moves_of run.entry.lines.items)))
        (sink_seen O.taken O.faults out.old) (sink_seen O.taken O.faults out.new)) }
{
    match replay::trace(alloc, run.program, &run.names, run.lines.as_slice(), out) {
        Ok(()) => Ok(()),
        Err(Ending::OutputFailed) => Err(Trouble::CannotWriteOutput),
        Err(Ending::NoMemory) => Err(Trouble::NoMemory),
    }
}

/// The command `trace`: reads, runs the bytecode, and puts the lines of what it shows.
pub fn trace<'a, F: Files, O: Sink>(
    alloc: Global,
    names: Trace<'a>,
    files: &mut F,
    out: &mut O,
) -> Result<(), Trouble<'a>>
    requires { length names.inputs.classes.now ≤ most_classes }
    ensures ok { OnOk result (TraceIsDone (trace_names names.entry.inputs.config.now names.entry.script.now (map string_bytes names.entry.inputs.classes.now))
        (files_seen F.contents F.faults files.old) (files_seen F.contents F.faults files.new)
        (sink_seen O.taken O.faults out.old) (sink_seen O.taken O.faults out.new)) }
    ensures stop { IfErr result (λ trouble. TraceStops trouble (trace_names names.entry.inputs.config.now names.entry.script.now (map string_bytes names.entry.inputs.classes.now))
        (files_seen F.contents F.faults files.old) (files_seen F.contents F.faults files.new)
        (sink_seen O.taken O.faults out.old) (sink_seen O.taken O.faults out.new)) }
{
    let config = read(alloc, files, names.inputs.config)?;
    let script = read(alloc, files, names.script)?;
    let classes = read_all(alloc, files, names.inputs.classes)?;
    let (config, script) = (config.as_slice(), script.as_slice());
    let run = read_run(alloc, names, config, script, classes.as_slice())?;
    show(alloc, run, out)
}
