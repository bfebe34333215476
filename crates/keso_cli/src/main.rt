//! KESO compiles Java class files for control units under OSEK.
#![tactic(auto)]

mod build;
mod compile;
mod inputs;
mod loading;
mod reading;
mod report;
mod status;
mod summary;
#[cfg(test)]
mod tests;
mod top;
mod trace;
mod tracing;
mod trouble;
mod words;

ghost use Rattle.std.specs.Prelude.{◌≡◌, IfErr};
ghost use Rattle.keso_cli.specs.declared.status.Status.TheVariants.{NoMemory};

use crate::status::Status;
use crate::top::keso;
use kes_outside::{HostFiles, HostSink};
use std::io::ErrorKind;
use std::process::ExitCode;
use std::{env, io};

/// The words behind the program's own name. Words that aren't all UTF-8 are no command, as no words are.
fn given_words(rt: &(impl env::Env + AllocGlobal)) -> Result<Vec<String>, Status>
    ensures { IfErr result (λ status. status ≡ NoMemory) }
{
    match env::args(rt) {
        Ok(words) => Ok(
            words
                .skip(1)
                .collect(rt.alloc())
                .map_err(|_| Status::NoMemory)?,
        ),
        Err(error) if error.kind() == ErrorKind::OutOfMemory => Err(Status::NoMemory),
        Err(_) => Ok(Vec::new(rt.alloc())),
    }
}

fn main(rt: HostRuntime) -> ExitCode {
    let status = match given_words(&rt) {
        Ok(words) => keso(
            rt.alloc(),
            words.as_slice(),
            &mut HostFiles::new(&rt),
            &mut HostSink::new(rt.stdout()),
            &mut HostSink::new(rt.stderr()),
        ),
        Err(status) => status,
    };
    ExitCode::from(status.code())
}
