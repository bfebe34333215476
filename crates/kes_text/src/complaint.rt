ghost use Rattle.std.specs.Prelude.{◌≡◌, ◌++◌, codes, IfOk};
ghost use Rattle.kes_text.specs.Complaints.{refusal_text, complaint_text, no_memory_text};

use crate::decimal::append_decimal;
use crate::refusal::{NoMemory, Refusal};
use std::alloc::Global;

/// Why the program did not do what it was asked for.
#[derive(Clone, Copy, Debug, PartialEq, Eq)]
pub enum Complaint<'a> {
    /// The file of this name is refused.
    Refused(Refusal, &'a str),
    /// The program's words are not a command.
    Usage,
    CannotRead(&'a str),
    CannotWrite(&'a str),
    CannotWriteOutput,
    NoMemory,
}

/// The line of a complaint, with its line feed.
pub fn complaint_line(alloc: Global, complaint: &Complaint<'_>) -> Result<Vec<u8>, NoMemory>
    ensures { IfOk result (λ line. line.items ≡ complaint_text complaint.now) }
{
    match complaint {
        Complaint::Refused(refusal, name) => refusal_line(alloc, refusal, name),
        Complaint::Usage => Vec::from_slice(alloc, b"keso: the words are not a command\n"),
        Complaint::CannotRead(name) => line_with(alloc, "keso: cannot read ", name),
        Complaint::CannotWrite(name) => line_with(alloc, "keso: cannot write ", name),
        Complaint::CannotWriteOutput => Vec::from_slice(alloc, b"keso: cannot write the output\n"),
        Complaint::NoMemory => Vec::from_slice(alloc, no_memory_line()),
    }
}

/// The line of a refusal, with its line feed. The name is that of the file that `refusal.file` numbers.
pub fn refusal_line(alloc: Global, refusal: &Refusal, name: &str) -> Result<Vec<u8>, NoMemory>
    ensures { IfOk result (λ line. line.items ≡ refusal_text refusal.now name.now) }
{
    let mut line = Vec::from_slice(alloc, b"keso: ")?;
    line.extend_from_slice(name.as_bytes())?;
    line.extend_from_slice(b": ")?;
    line.extend_from_slice(refusal.kind.name().as_bytes())?;
    line.extend_from_slice(b" at ")?;
    append_decimal(&mut line, refusal.at)?;
    line.push(b'\n')?;
    Ok(line)
}

/// The line of `Complaint::NoMemory`, which takes no memory.
pub fn no_memory_line() -> &'static [u8]
    ensures { result.now ≡ no_memory_text }
{
    b"keso: out of memory\n"
}

/// The text and the name, and a line feed.
fn line_with(alloc: Global, text: &str, name: &str) -> Result<Vec<u8>, NoMemory>
    ensures { IfOk result (λ line. line.items ≡ text.now ++ name.now ++ codes "\n") }
{
    let mut line = Vec::from_slice(alloc, text.as_bytes())?;
    line.extend_from_slice(name.as_bytes())?;
    line.push(b'\n')?;
    Ok(line)
}
