//! What is counted of a class file.

ghost use Rattle.std.specs.Prelude.{◌≡◌, IfOk};
ghost use Rattle.classfile.specs.Scan.{OrNoMemory};
ghost use Rattle.class_census.specs.Counted.{instructions_of, all_instructions, counted, line_text, standing_still};

use classfile::{Class, Code, read_class};
use jcode::decode;
use kes_text::{NoMemory, Stop, append_decimal, refusal_line};
use std::alloc::{AllocError, Global};

/// How many fields and methods a class has, and how many instructions the codes of its methods have.
#[derive(Clone, Copy, Debug, PartialEq, Eq)]
pub struct Census {
    pub fields: u64,
    pub methods: u64,
    pub instructions: u64,
}

fn instructions_of(alloc: Global, class: &Class<'_>, code: &Option<Code<'_>>) -> Result<u64, Stop>
    ensures { OrNoMemory result (instructions_of class.now code.now) }
{
    match code {
        Some(code) => Ok(decode(alloc, code.bytes, code.at, class)?.len() as u64),
        None => Ok(0),
    }
}

fn all_instructions(alloc: Global, class: &Class<'_>) -> Result<u64, Stop>
    ensures { OrNoMemory result (standing_still (all_instructions class.now class.now.methods)) }
{
    let mut total: u64 = 0;
    for method in class.methods() {
        total = total.saturating_add(instructions_of(alloc, class, &method.code)?);
    }
    Ok(total)
}

/// The counts of the class file that all of the bytes are, or the first refusal: the class file's, or
/// that of the first method whose code is refused. A count that passes `u64::MAX` stands still there.
pub fn census_of(alloc: Global, bytes: &[u8]) -> Result<Census, Stop>
    ensures { OrNoMemory result (counted bytes.now) }
{
    let class = read_class(alloc, bytes)?;
    let instructions = all_instructions(alloc, &class)?;
    Ok(Census {
        fields: class.fields().len() as u64,
        methods: class.methods().len() as u64,
        instructions,
    })
}

fn census_line(alloc: Global, name: &str, census: &Census) -> Result<Vec<u8>, NoMemory>
    ensures { IfOk result (λ line. line.items ≡ line_text name.now (Ok census.now)) }
{
    let mut line = Vec::from_slice(alloc, name.as_bytes())?;
    line.extend_from_slice(b": ")?;
    append_decimal(&mut line, census.fields)?;
    line.extend_from_slice(b" fields, ")?;
    append_decimal(&mut line, census.methods)?;
    line.extend_from_slice(b" methods, ")?;
    append_decimal(&mut line, census.instructions)?;
    line.extend_from_slice(b" instructions\n")?;
    Ok(line)
}

/// The line of the file of this name, with its line feed: its counts, or why it is refused.
pub fn line_of(alloc: Global, name: &str, bytes: &[u8]) -> Result<Vec<u8>, NoMemory>
    ensures { IfOk result (λ line. line.items ≡ line_text name.now (counted bytes.now)) }
{
    match census_of(alloc, bytes) {
        Ok(census) => census_line(alloc, name, &census),
        Err(Stop::Refused(refusal)) => refusal_line(alloc, &refusal, name),
        Err(Stop::NoMemory) => Err(AllocError),
    }
}
