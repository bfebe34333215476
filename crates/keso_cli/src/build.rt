ghost use Rattle.std.specs.Prelude.{◌≡◌, ◌≤◌, ◌++◌, length, map, IfOk, IfErr, OnOk, string_bytes};
ghost use Rattle.keso_cli.specs.Due.{due};
ghost use Rattle.keso_cli.specs.BuildEnds.{BuildIsDone, BuildStops};
ghost use Rattle.first_form.specs.Counts.{first_summary};
ghost use Rattle.keso_cli.specs.Left.{Writes, Written};
ghost use Rattle.keso_cli.specs.Request.{most_classes};
ghost use Rattle.replay.specs.Seen.{sink_seen, Takes};
ghost use Rattle.keso_cli.specs.Seen.{files_seen};
ghost use Rattle.keso_cli.specs.Stops.{WriteStops, WritesStop, PutStops};
ghost use Rattle.keso_cli.specs.Summary.{summary_text};

use crate::compile::{Texts, compile};
use crate::loading::{read, read_all};
use crate::summary::summary_lines;
use crate::trouble::Trouble;
use crate::words::Build;
use first_form::FIRST_SUMMARY;
use kes_outside::{FileFault, Files, Sink, SinkFault};
use kes_text::NoMemory;
use std::alloc::Global;

/// The name of one of a build's files.
fn file_name(alloc: Global, base: &str, ending: &str) -> Result<String, NoMemory>
    ensures { IfOk result (λ name. string_bytes name ≡ base.now ++ ending.now) }
{
    let mut name = String::from_str(alloc, base)?;
    name.push_str(ending)?;
    Ok(name)
}

/// Writes one text to the file whose name is the base and this ending.
fn write_text<F: Files>(
    alloc: Global,
    files: &mut F,
    base: &str,
    ending: &str,
    bytes: &[u8],
) -> Result<(), Trouble<'static>>
    ensures ok { OnOk result (Writes (record { name = base.now ++ ending.now; bytes = bytes.now })
        (files_seen F.contents F.faults files.old) (files_seen F.contents F.faults files.new)) }
    ensures count { F.faults files.old ≤ F.faults files.new }
    ensures stop { IfErr result (λ stop. WriteStops stop (record { name = base.now ++ ending.now; bytes = bytes.now })
        (files_seen F.contents F.faults files.old) (files_seen F.contents F.faults files.new)) }
{
    let name = file_name(alloc, base, ending)?;
    match files.write(alloc, name.as_str(), bytes) {
        Ok(()) => Ok(()),
        Err(FileFault::Failed) => Err(Trouble::CannotWrite(name)),
        Err(FileFault::NoMemory) => Err(Trouble::NoMemory),
    }
}

/// Writes the three texts, in the order C, OIL, map.
fn write_texts<F: Files>(
    alloc: Global,
    files: &mut F,
    base: &str,
    texts: &Texts,
) -> Result<(), Trouble<'static>>
    ensures ok { OnOk result (Written (due base.now texts.now)
        (files_seen F.contents F.faults files.old) (files_seen F.contents F.faults files.new)) }
    ensures count { F.faults files.old ≤ F.faults files.new }
    ensures stop { IfErr result (λ ending. WritesStop ending (due base.now texts.now)
        (files_seen F.contents F.faults files.old) (files_seen F.contents F.faults files.new)) }
{
    write_text(alloc, files, base, ".c", texts.c.as_slice())?;
    write_text(alloc, files, base, ".oil", texts.oil.as_slice())?;
    write_text(alloc, files, base, ".map", texts.map.as_slice())
}

/// Puts the four lines on the output.
fn put_summary<O: Sink>(alloc: Global, out: &mut O) -> Result<(), Trouble<'static>>
    ensures ok { OnOk result (Takes (summary_text first_summary)
        (sink_seen O.taken O.faults out.old) (sink_seen O.taken O.faults out.new)) }
    ensures stop { IfErr result (λ ending. PutStops ending (summary_text first_summary)
        (sink_seen O.taken O.faults out.old) (sink_seen O.taken O.faults out.new)) }
{
    let text = summary_lines(alloc, FIRST_SUMMARY)?;
    match out.put(alloc, text.as_slice()) {
        Ok(()) => Ok(()),
        Err(SinkFault::Failed) => Err(Trouble::CannotWriteOutput),
        Err(SinkFault::NoMemory) => Err(Trouble::NoMemory),
    }
}

/// The command `build`: reads, compiles and writes, and stops at the first step that fails.
pub fn build<'a, F: Files, O: Sink>(
    alloc: Global,
    names: Build<'a>,
    files: &mut F,
    out: &mut O,
) -> Result<(), Trouble<'a>>
    requires { length names.inputs.classes.now ≤ most_classes }
    ensures ok { OnOk result (BuildIsDone names.entry.inputs.config.now (map string_bytes names.entry.inputs.classes.now) names.entry.base.now
        (files_seen F.contents F.faults files.old) (files_seen F.contents F.faults files.new)
        (sink_seen O.taken O.faults out.old) (sink_seen O.taken O.faults out.new)) }
    ensures stop { IfErr result (λ trouble. BuildStops trouble names.entry.inputs.config.now (map string_bytes names.entry.inputs.classes.now) names.entry.base.now
        (files_seen F.contents F.faults files.old) (files_seen F.contents F.faults files.new)
        (sink_seen O.taken O.faults out.old) (sink_seen O.taken O.faults out.new)) }
{
    let config = read(alloc, files, names.inputs.config)?;
    let classes = read_all(alloc, files, names.inputs.classes)?;
    let texts = compile(alloc, names.inputs, config.as_slice(), classes.as_slice())?;
    write_texts(alloc, files, names.base, &texts)?;
    put_summary(alloc, out)
}
