//! What is said of each code.

use crate::codes::{Case, base_of, case_of, frames_of};
use jworld::World;
use kes_text::{NoMemory, Stop};
use stackmap::{Frame, VType};
use std::alloc::{AllocError, Global};

/// A type as one letter.
fn letter(found: &VType) -> char {
    match found {
        VType::Top => 'T',
        VType::Integer => 'I',
        VType::Float => 'F',
        VType::Double => 'D',
        VType::Long => 'J',
        VType::Null => 'N',
        VType::UninitThis => 'U',
        VType::Object(_) => 'L',
        VType::Uninit(_) => 'W',
    }
}

fn append_letters(text: &mut String, types: &[VType]) -> Result<(), NoMemory> {
    for found in types {
        text.push(letter(found))?;
    }
    Ok(())
}

/// Frames as letters: locals, a colon, and the stack.
fn letters(alloc: Global, frames: &[Frame]) -> Result<String, NoMemory> {
    let mut text = String::new(alloc);
    for frame in frames {
        text.push(' ')?;
        append_letters(&mut text, frame.locals.as_slice())?;
        text.push(':')?;
        append_letters(&mut text, frame.stack.as_slice())?;
    }
    Ok(text)
}

/// What is said of a code.
fn answer(alloc: Global, world: &World<'_>, case: &Case<'_>) -> Result<String, NoMemory> {
    match frames_of(alloc, world, case) {
        Ok(frames) => letters(alloc, frames.as_slice()),
        Err(Stop::Refused(refusal)) => {
            let base = base_of(world, case).unwrap_or(0);
            let place = refusal.at.saturating_sub(base);
            let kind = refusal.kind;
            format!(in alloc; " {kind:?} {place}")
        }
        Err(Stop::NoMemory) => Err(AllocError),
    }
}

/// A line for each code of a text.
pub fn answers(
    alloc: Global,
    text: &mut String,
    world: &World<'_>,
    codes: &[u8],
) -> Result<(), NoMemory> {
    let Ok(codes) = str::from_utf8(codes) else {
        return Ok(());
    };
    for line in codes.lines() {
        if let Some(case) = case_of(line) {
            let found = answer(alloc, world, &case)?;
            text.push_str(case.what)?;
            text.push(':')?;
            text.push_str(found.as_str())?;
            text.push('\n')?;
        }
    }
    Ok(())
}
