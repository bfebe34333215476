//! Counts the fields, methods and instructions of the class files that lie beside their sources in data/,
//! and of one more that is named by the first word.
//!
//! The classes are those that `javac --release 8` of OpenJDK 17 made of the sources, with `-g:none`, but for
//! those of Chain, which were made with `-g`. What is printed was compared with javap's view of the same
//! files: `javap -c -p` prints a line for each instruction, which begins with blanks, its place, a colon, a
//! blank and a small letter (`^ +[0-9]+: [a-z]`), and `javap -v -p` has the numbers of fields and methods.
//! Four are refused, each at an instruction that is outside: Floats, Matrix, StaticCall and Texts.
#![tactic(auto)]

mod census;

ghost use Rattle.std.specs.Prelude.{◌≡◌, ◌++◌, ℕ, List, IfOk, OnOk, IfSome};
ghost use Rattle.std.specs.FinMap.{get};
ghost use Rattle.class_census.specs.Counted.{IsTold};

use crate::census::line_of;
use kes_outside::{Files, HostFiles, HostSink, ReadStop, Sink, SinkFault};
use kes_text::{Complaint, NoMemory, complaint_line};
use std::alloc::{AllocError, Global};
use std::env;
use std::process::ExitCode;

const NAMES: [&str; 25] = [
    "Branches.class",
    "Chain$1.class",
    "Chain$Link.class",
    "Chain.class",
    "Constants.class",
    "Fields.class",
    "Floats.class",
    "FuelPump.class",
    "Handlers.class",
    "LongMath.class",
    "Loops.class",
    "ManyLocals.class",
    "Matrix.class",
    "Natives.class",
    "Outer$1.class",
    "Outer$Pair.class",
    "Outer$Step.class",
    "Outer$Visitor.class",
    "Outer.class",
    "Pump.class",
    "Rows.class",
    "Sensor.class",
    "StaticCall.class",
    "Switches.class",
    "Texts.class",
];

/// The line of a file, also where it can't be read.
fn told<F: Files>(alloc: Global, name: &str, files: &mut F) -> Result<Vec<u8>, NoMemory>
    ensures { IfOk result (λ line. IfSome (F.contents files.old) (λ held. IfSome (get held name.now)
        (λ bytes. IsTold name.now bytes line.items))) }
{
    match files.read(alloc, name) {
        Ok(bytes) => line_of(alloc, name, bytes.as_slice()),
        Err(ReadStop::NoMemory) => Err(AllocError),
        Err(_) => complaint_line(alloc, &Complaint::CannotRead(name)),
    }
}

/// Puts the line of a file on the output.
fn tell<F: Files, O: Sink>(
    alloc: Global,
    name: &str,
    files: &mut F,
    out: &mut O,
) -> Result<(), SinkFault>
    ensures { OnOk result (IfSome (O.taken out.old) (λ before. IfSome (F.contents files.old) (λ held. IfSome (get held name.now)
        (λ bytes. (line : List ℕ) × IsTold name.now bytes line × (O.taken out.new ≡ Some (before ++ line)))))) }
{
    match told(alloc, name, files) {
        Ok(line) => out.put(alloc, line.as_slice()),
        Err(AllocError) => Err(SinkFault::NoMemory),
    }
}

/// Tells of each file in turn.
fn tell_all<F: Files, O: Sink>(
    alloc: Global,
    names: &[&str],
    files: &mut F,
    out: &mut O,
) -> Result<(), SinkFault> {
    for name in names {
        tell(alloc, name, files, out)?;
    }
    Ok(())
}

/// The first word behind the program's own name.
fn first_word(rt: &(impl env::Env + AllocGlobal)) -> Option<String> {
    match env::args(rt) {
        Ok(words) => words.skip(1).next(),
        Err(_) => None,
    }
}

fn main(rt: HostRuntime) -> ExitCode {
    let alloc = rt.alloc();
    let mut files = HostFiles::new(&rt);
    let mut out = HostSink::new(rt.stdout());
    let mut told = tell_all(alloc, &NAMES, &mut files, &mut out);
    if let (Ok(()), Some(word)) = (told, first_word(&rt)) {
        told = tell(alloc, word.as_str(), &mut files, &mut out);
    }
    match told {
        Ok(()) => ExitCode::SUCCESS,
        Err(_) => ExitCode::FAILURE,
    }
}
