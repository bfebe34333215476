//! The files that a command reads.

ghost use Rattle.std.specs.Prelude.{◌≡◌, ◌≤◌, length, map, Some, IfOk, IfErr, IfSome, string_bytes};
ghost use Rattle.std.specs.FinMap.{get};
ghost use Rattle.keso_cli.specs.Seen.{files_seen};
ghost use Rattle.keso_cli.specs.Stops.{ReadStops, ReadsStop};

use crate::inputs::FileBytes;
use crate::trouble::Trouble;
use kes_outside::{Files, ReadStop};
use std::alloc::Global;

/// The bytes of the named file.
pub fn read<'a, F: Files>(
    alloc: Global,
    files: &mut F,
    name: &'a str,
) -> Result<Vec<u8>, Trouble<'a>>
    ensures ok { IfOk result (λ bytes. IfSome (F.contents files.old) (λ held. get held name.now ≡ Some bytes.items)) }
    ensures stays { F.contents files.new ≡ F.contents files.old }
    ensures count { F.faults files.old ≤ F.faults files.new }
    ensures stop { IfErr result (λ ending. ReadStops ending name.now
        (files_seen F.contents F.faults files.old) (files_seen F.contents F.faults files.new)) }
{
    match files.read(alloc, name) {
        Ok(bytes) => Ok(bytes),
        Err(ReadStop::Missing | ReadStop::Failed) => Err(Trouble::CannotRead(name)),
        Err(ReadStop::NoMemory) => Err(Trouble::NoMemory),
    }
}

/// The bytes of the named files, in their order.
pub fn read_all<'a, F: Files>(
    alloc: Global,
    files: &mut F,
    names: &'a [String],
) -> Result<FileBytes, Trouble<'a>>
    ensures ok { IfOk result (λ all. IfSome (F.contents files.old) (λ held. map (get held) (map string_bytes names.now) ≡ map Some all)) }
    ensures many { IfOk result (λ all. length all ≡ length names.now) }
    ensures stays { F.contents files.new ≡ F.contents files.old }
    ensures count { F.faults files.old ≤ F.faults files.new }
    ensures stop { IfErr result (λ ending. ReadsStop ending (map string_bytes names.now)
        (files_seen F.contents F.faults files.old) (files_seen F.contents F.faults files.new)) }
{
    let mut all = FileBytes::new(alloc);
    for name in names {
        all.push(read(alloc, files, name.as_str())?)?;
    }
    Ok(all)
}
