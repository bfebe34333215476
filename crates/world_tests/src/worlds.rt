use crate::stored::{FILES, PLACES};
use classfile::{Class, read_class};
use jworld::*;
use kes_text::Stop;
use std::alloc::Global;
use std::test::Fail;

pub const OBJECT: ClassId = ClassId { n: 0 };

pub const I: ClassId = ClassId { n: 4 };

pub const J: ClassId = ClassId { n: 5 };

pub const A: ClassId = ClassId { n: 6 };

pub const B: ClassId = ClassId { n: 7 };

/// A number that no class of the stored world has.
pub const NONE: ClassId = ClassId { n: 8 };

fn read_all<'a>(alloc: Global, bytes: &'a [u8]) -> Result<Vec<Class<'a>>, Stop> {
    let mut classes = Vec::new(alloc);
    for (start, end) in PLACES {
        let file = bytes.get(start..end).unwrap_or(b"");
        classes.push(read_class(alloc, file)?)?;
    }
    Ok(classes)
}

/// The world of the stored files, or of their bytes with others written over them.
pub fn world_of<'a>(alloc: Global, bytes: &'a [u8]) -> Result<World<'a>, Stop> {
    let classes = read_all(alloc, bytes)?;
    if classes.len() > 2048 {
        return Err(Stop::NoMemory);
    }
    World::new(alloc, classes)
}

#[test]
fn classes_are_found_by_name(rt: HostRuntime) -> Result<(), Fail> {
    let world = world_of(rt.alloc(), &FILES)?;
    let rows: [(&[u8], Option<ClassId>); 5] = [
        (b"java/lang/Object", Some(OBJECT)),
        (b"java/lang/RuntimeException", Some(ClassId { n: 3 })),
        (b"p/I", Some(I)),
        (b"q/B", Some(B)),
        (b"B", None),
    ];
    for (name, class) in rows {
        assert_eq!(rt; world.class(name), class);
    }
    Ok(())
}

#[test]
fn classes_have_their_files_and_names(rt: HostRuntime) -> Result<(), Fail> {
    let world = world_of(rt.alloc(), &FILES)?;
    assert_eq!(rt; (world.count(), world.files().len()), (8, 4));
    let rows: [(ClassId, bool, &[u8]); 4] = [
        (OBJECT, false, b"java/lang/Object"),
        (J, true, b"p/J"),
        (B, true, b"q/B"),
        (NONE, false, b""),
    ];
    for (class, is_there, name) in rows {
        assert_eq!(rt; world.get(class).is_some(), is_there);
        assert_eq!(rt; world.name(class), name);
    }
    Ok(())
}

/// The superclass of each, and whether it is an interface.
#[test]
fn classes_have_superclasses(rt: HostRuntime) -> Result<(), Fail> {
    let world = world_of(rt.alloc(), &FILES)?;
    let rows: [(ClassId, Option<ClassId>, bool); 6] = [
        (OBJECT, None, false),
        (ClassId { n: 3 }, Some(ClassId { n: 2 }), false),
        (J, Some(OBJECT), true),
        (A, Some(OBJECT), false),
        (B, Some(A), false),
        (NONE, None, false),
    ];
    for (class, above, is_interface) in rows {
        assert_eq!(rt; world.super_of(class), above);
        assert_eq!(rt; world.is_interface(class), is_interface);
    }
    Ok(())
}

/// Whether one class is a subclass of another, and whether it is below it.
#[test]
fn classes_are_below_others(rt: HostRuntime) -> Result<(), Fail> {
    let world = world_of(rt.alloc(), &FILES)?;
    let rows: [(ClassId, ClassId, (bool, bool)); 7] = [
        (B, B, (true, false)),
        (B, A, (true, true)),
        (B, OBJECT, (true, true)),
        (B, I, (false, true)),
        (A, B, (false, false)),
        (I, J, (false, false)),
        (J, I, (false, true)),
    ];
    for (class, above, is_below) in rows {
        let found = (
            world.is_subclass(class, above),
            world.is_above(class, above),
        );
        assert_eq!(rt; found, is_below);
    }
    Ok(())
}
