//! Types the methods of the class files that lie beside their sources in data/, and codes in place of those of
//! methods of one of them.
//!
//! The classes are those that `javac --release 8 -g:none` of OpenJDK 17 made of the sources. A line is printed for
//! each of them: how many methods have code, how many instructions these have, and with them how many frames.
//!
//! `codes.txt` has a code a line: what it shows; the method of Codes in whose place it stands, the code, and the
//! table of its frames. A line is printed for each: what is refused and where, counted from the first byte of the
//! code or of the table, or the frame before each instruction, as letters: the locals, a colon, and the operands.
//! HotSpot's verifier, of OpenJDK 17, accepts and refuses the same codes, but for the `new` whose own object is on
//! the stack, which it accepts. It names the same instruction, except where what an instruction leaves doesn't fit
//! what is declared behind it, or nothing is there: then the place behind; a later one for the `new` whose own object
//! is in a local; and the first one or none for a fault in a table of frames, as one of more operands than max_stack.
//!
//! Of the constant pool of Codes, 1 is the constructor of Object, 2 Object, 0x0b `static void filled(int, long, long,
//! int)`, 0x0c Codes, 0x11 its constructor, 0x12 `static int taken(Codes)`, 0x21 the field `int number`, 0x24 `long
//! wide`, 0x28 `int[]`, 0x2c a constructor of Circle, and 0x2f `int area()` of the interface Shape.
#![tactic(auto)]

mod answers;
mod classes;
mod codes;

use crate::answers::answers;
use crate::classes::{CLASSES, all_read, class_lines, world_of};
use kes_outside::{Files, HostFiles, HostSink, Sink};
use kes_text::Stop;
use std::alloc::Global;
use std::process::ExitCode;

/// What is printed.
fn told(alloc: Global, files: &[Vec<u8>], codes: &[u8]) -> Result<String, Stop> {
    let world = world_of(alloc, files)?;
    let mut text = String::new(alloc);
    class_lines(alloc, &mut text, &world)?;
    answers(alloc, &mut text, &world, codes)?;
    Ok(text)
}

fn put<F: Files, O: Sink>(alloc: Global, files: &mut F, out: &mut O) -> Option<()> {
    let classes = all_read(alloc, files, &CLASSES)?;
    let codes = match files.read(alloc, "codes.txt") {
        Ok(codes) => codes,
        Err(_) => return None,
    };
    match told(alloc, classes.as_slice(), codes.as_slice()) {
        Ok(text) => out.put(alloc, text.as_bytes()).ok(),
        Err(_) => None,
    }
}

fn main(rt: HostRuntime) -> ExitCode {
    let mut files = HostFiles::new(&rt);
    let mut out = HostSink::new(rt.stdout());
    match put(rt.alloc(), &mut files, &mut out) {
        Some(()) => ExitCode::SUCCESS,
        None => ExitCode::FAILURE,
    }
}
