//! The class files, and the frames of their methods.

use classfile::{Class, Code, Method, read_class};
use jcode::decode;
use jworld::{ClassId, MethodId, World};
use kes_outside::Files;
use kes_text::{NoMemory, Stop};
use sqlite_items::Items;
use stackmap::{Declared, read_frames, start_frame};
use std::alloc::Global;
use verify::verify;

pub const CLASSES: [&str; 16] = [
    "Base.class",
    "Choices.class",
    "Circle.class",
    "Codes.class",
    "Failure.class",
    "Grid.class",
    "LongMath.class",
    "Loops.class",
    "Outer.class",
    "Outer$1.class",
    "Outer$Inner.class",
    "Outer$Pair.class",
    "Places.class",
    "Shape.class",
    "Square.class",
    "Switches.class",
];

/// The bytes of each file, if all are there.
pub fn all_read<F: Files>(alloc: Global, files: &mut F, names: &[&str]) -> Option<Vec<Vec<u8>>> {
    let mut all = Vec::new(alloc);
    for name in names {
        match files.read(alloc, name) {
            Ok(bytes) => all.push(bytes).ok()?,
            Err(_) => return None,
        }
    }
    Some(all)
}

/// A world of these classes, which have the numbers from 4 on.
pub fn world_of<'a>(alloc: Global, files: &'a [Vec<u8>]) -> Result<World<'a>, Stop> {
    let mut classes: Vec<Class<'a>> = Vec::new(alloc);
    for bytes in files {
        classes.push(read_class(alloc, bytes.as_slice())?)?;
    }
    if classes.len() > 2048 {
        return Err(Stop::NoMemory);
    }
    World::new(alloc, classes)
}

/// The frames of a table whose first byte is at `base`, if there is a table.
pub fn declared(
    alloc: Global,
    class: &Class<'_>,
    method: &Method<'_>,
    base: u64,
    table: &[u8],
) -> Result<Items<Declared>, Stop> {
    if table.is_empty() {
        return Ok(Items::new(alloc));
    }
    let start = start_frame(alloc, class, method)?;
    read_frames(alloc, table, base, class, &start)
}

/// The instructions and the frames of methods.
#[derive(Clone, Copy)]
struct Counts {
    methods: u64,
    instructions: u64,
    frames: u64,
}

/// The counts with those of one more method.
fn with_method(
    alloc: Global,
    world: &World<'_>,
    id: MethodId,
    method: &Method<'_>,
    code: &Code<'_>,
    counts: Counts,
) -> Result<Counts, Stop> {
    let Some(class) = world.get(id.class) else {
        return Ok(counts);
    };
    let instructions = decode(alloc, code.bytes, code.at, class)?;
    let maps = match code.maps {
        Some((base, table)) => declared(alloc, class, method, base, table)?,
        None => Items::new(alloc),
    };
    let frames = verify(alloc, world, id, instructions.as_slice(), maps.as_slice())?;
    Ok(Counts {
        methods: counts.methods.saturating_add(1),
        instructions: counts
            .instructions
            .saturating_add(instructions.len() as u64),
        frames: counts.frames.saturating_add(frames.len() as u64),
    })
}

/// The counts of a class.
fn counts_of(
    alloc: Global,
    world: &World<'_>,
    own: ClassId,
    class: &Class<'_>,
) -> Result<Counts, Stop> {
    let mut counts = Counts {
        methods: 0,
        instructions: 0,
        frames: 0,
    };
    for (n, method) in class.methods().iter().enumerate() {
        if let (Some(code), Ok(n)) = (&method.code, u16::try_from(n)) {
            let id = MethodId { class: own, n };
            counts = with_method(alloc, world, id, method, code, counts)?;
        }
    }
    Ok(counts)
}

/// What is said of a class.
fn class_line(alloc: Global, name: &str, found: Result<Counts, Stop>) -> Result<String, NoMemory> {
    match found {
        Ok(
            Counts {
                methods,
                instructions,
                frames,
            },
        ) => format!(in alloc;
            "{name}: {methods} methods, {instructions} instructions, {frames} frames\n"
        ),
        Err(stop) => format!(in alloc; "{name}: {stop:?}\n"),
    }
}

/// A line for each class file.
pub fn class_lines(alloc: Global, text: &mut String, world: &World<'_>) -> Result<(), NoMemory> {
    let mut own: u32 = 4;
    for (class, name) in world.files().iter().zip(CLASSES.iter()) {
        let counts = counts_of(alloc, world, ClassId { n: own }, class);
        let line = class_line(alloc, name, counts)?;
        text.push_str(line.as_str())?;
        own = own.saturating_add(1);
    }
    Ok(())
}
