ghost use Rattle.std.specs.Prelude.{IfErr, OnOk, map, string_bytes};
ghost use Rattle.keso_cli.specs.CommandEnds.{CommandIsDone, CommandStops};
ghost use Rattle.keso_cli.specs.Complete.{IsComplete};
ghost use Rattle.keso_cli.specs.Request.{request_of};
ghost use Rattle.replay.specs.Seen.{sink_seen};
ghost use Rattle.keso_cli.specs.Seen.{files_seen};
ghost use Rattle.keso_cli.specs.Stands.{Stands};

use crate::build::build;
use crate::report::report;
use crate::status::Status;
use crate::trace::trace;
use crate::trouble::Trouble;
use crate::words::{Command, command_of};
use kes_outside::{Files, Sink};
use std::alloc::Global;

/// Does what the words ask for.
fn perform<'a, F: Files, O: Sink>(
    alloc: Global,
    words: &'a [String],
    files: &mut F,
    out: &mut O,
) -> Result<(), Trouble<'a>>
    ensures ok { OnOk result (CommandIsDone (request_of (map string_bytes words.now))
        (files_seen F.contents F.faults files.old) (files_seen F.contents F.faults files.new)
        (sink_seen O.taken O.faults out.old) (sink_seen O.taken O.faults out.new)) }
    ensures stop { IfErr result (λ trouble. CommandStops trouble (request_of (map string_bytes words.now))
        (files_seen F.contents F.faults files.old) (files_seen F.contents F.faults files.new)
        (sink_seen O.taken O.faults out.old) (sink_seen O.taken O.faults out.new)) }
{
    match command_of(words) {
        None => Err(Trouble::Usage),
        Some(Command::Build(names)) => build(alloc, names, files, out),
        Some(Command::Trace(names)) => trace(alloc, names, files, out),
    }
}

/// The whole program: does what the words ask for, over these files, and tells on `err` why it didn't.
///
/// The words of a command are `build CONFIG CLASS.. -o BASE` or `trace CONFIG SCRIPT CLASS..`.
pub fn keso<F: Files, O: Sink, E: Sink>(
    alloc: Global,
    words: &[String],
    files: &mut F,
    out: &mut O,
    err: &mut E,
) -> Status
    ensures stands { Stands result (request_of (map string_bytes words.now))
        (record {
          files = files_seen F.contents F.faults files.old;
          out = sink_seen O.taken O.faults out.old;
          err = sink_seen E.taken E.faults err.old;
        })
        (record {
          files = files_seen F.contents F.faults files.new;
          out = sink_seen O.taken O.faults out.new;
          err = sink_seen E.taken E.faults err.new;
        }) }
    ensures complete { IsComplete result (request_of (map string_bytes words.now))
        (record {
          files = files_seen F.contents F.faults files.old;
          out = sink_seen O.taken O.faults out.old;
          err = sink_seen E.taken E.faults err.old;
        })
        (record {
          files = files_seen F.contents F.faults files.new;
          out = sink_seen O.taken O.faults out.new;
          err = sink_seen E.taken E.faults err.new;
        }) }
{
    match perform(alloc, words, files, out) {
        Ok(()) => Status::Ok,
        Err(trouble) => report(alloc, &trouble, err),
    }
}
