ghost use Rattle.std.specs.Prelude.{◌≡◌, ◌≤◌, IfErr, OnOk};
ghost use Rattle.kes_text.specs.Complaints.{complaint_text};
ghost use Rattle.replay.specs.Seen.{sink_seen};
ghost use Rattle.keso_cli.specs.Seen.{TakesUnlessFailed};
ghost use Rattle.keso_cli.specs.Tells.{status_of, line_of, Tells};

use crate::status::Status;
use crate::trouble::Trouble;
use kes_outside::{Sink, SinkFault};
use kes_text::{Complaint, NoMemory, complaint_line, no_memory_line};
use std::alloc::{AllocError, Global};

/// Puts a line on standard error. A put that fails is passed over, since there is no one to tell.
fn tell<E: Sink>(alloc: Global, line: &[u8], err: &mut E) -> Result<(), NoMemory>
    ensures ok { OnOk result (TakesUnlessFailed line.now (sink_seen E.taken E.faults err.old) (sink_seen E.taken E.faults err.new)) }
    ensures no_memory { IfErr result (λ _. E.taken err.new ≡ E.taken err.old) }
    ensures count { E.faults err.old ≤ E.faults err.new }
{
    match err.put(alloc, line) {
        Ok(()) | Err(SinkFault::Failed) => Ok(()),
        Err(SinkFault::NoMemory) => Err(AllocError),
    }
}

/// The complaint about a trouble.
fn complaint_of<'a>(trouble: &'a Trouble<'a>) -> Complaint<'a>
    ensures { complaint_text result ≡ line_of trouble.now }
{
    match trouble {
        Trouble::Usage => Complaint::Usage,
        Trouble::CannotRead(name) => Complaint::CannotRead(name),
        Trouble::Refused(refusal, name) => Complaint::Refused(*refusal, name),
        Trouble::CannotWrite(name) => Complaint::CannotWrite(name.as_str()),
        Trouble::CannotWriteOutput => Complaint::CannotWriteOutput,
        Trouble::NoMemory => Complaint::NoMemory,
    }
}

/// The status of a trouble.
fn status_of(trouble: &Trouble<'_>) -> Status
    ensures { result ≡ status_of trouble.now }
{
    match trouble {
        Trouble::Usage => Status::Usage,
        Trouble::CannotRead(_) => Status::ReadFault,
        Trouble::Refused(..) => Status::Refused,
        Trouble::CannotWrite(_) | Trouble::CannotWriteOutput => Status::WriteFault,
        Trouble::NoMemory => Status::NoMemory,
    }
}

/// Tells of a trouble on standard error, with its own line.
fn try_report<E: Sink>(alloc: Global, trouble: &Trouble<'_>, err: &mut E) -> Result<(), NoMemory>
    ensures ok { OnOk result (TakesUnlessFailed (line_of trouble.now) (sink_seen E.taken E.faults err.old) (sink_seen E.taken E.faults err.new)) }
    ensures no_memory { IfErr result (λ _. E.taken err.new ≡ E.taken err.old) }
    ensures count { E.faults err.old ≤ E.faults err.new }
{
    let line = complaint_line(alloc, &complaint_of(trouble))?;
    tell(alloc, line.as_slice(), err)
}

/// Tells of a trouble on standard error, and answers the status. Where there is no memory for its line,
/// that is the trouble.
pub fn report<E: Sink>(alloc: Global, trouble: &Trouble<'_>, err: &mut E) -> Status
    ensures { Tells trouble.now result (sink_seen E.taken E.faults err.old) (sink_seen E.taken E.faults err.new) }
{
    match try_report(alloc, trouble, err) {
        Ok(()) => status_of(trouble),
        Err(AllocError) => {
            let _ = tell(alloc, no_memory_line(), err);
            Status::NoMemory
        }
    }
}
