use crate::stored::FILES;
use crate::worlds::world_of;
use kes_text::{Kind, Refusal, Stop};
use std::alloc::{AllocError, Global};
use std::process::Abort;
use std::test::Fail;

/// The stored files with numbers of two bytes written over them.
fn patched(alloc: Global, patches: &[(usize, u16)]) -> Result<Vec<u8>, AllocError> {
    let mut bytes = Vec::from_slice(alloc, &FILES)?;
    for (at, number) in patches {
        for (k, byte) in number.to_be_bytes().iter().enumerate() {
            if let Some(place) = bytes.get_mut(at.saturating_add(k)) {
                *place = *byte;
            }
        }
    }
    Ok(bytes)
}

fn shows(rt: &impl Abort, alloc: Global, bytes: &[u8], expected: Refusal) {
    match world_of(alloc, bytes) {
        Ok(_) => assert!(rt; false, "accepted, not {expected:?}"),
        Err(stop) => assert_eq!(rt; stop, Stop::Refused(expected)),
    }
}

/// Of these, the bytes at 431 and 432 are B's name, those at 408 its superclass's and at 441 its interface's; those at 166
/// name J's interface; those at 80, 318 and 511 are the flags of I, of A and of B's method n; those at 322 are the index
/// of A's superclass.
#[test]
fn each_kind_stands_at_its_place(rt: HostRuntime) -> Result<(), Fail> {
    let alloc = rt.alloc();
    let rows: [(&[(usize, u16)], u32, Kind, u64); 13] = [
        (&[(431, 0x702F), (432, 0x2F41)], 3, Kind::Duplicate, 0),
        (
            &[(431, 0x702F), (432, 0x2F41), (166, 0x2F43)],
            3,
            Kind::Duplicate,
            0,
        ),
        (&[(408, 0x2F43)], 3, Kind::MissingClass, 81),
        (&[(441, 0x2F43)], 3, Kind::MissingClass, 85),
        (&[(318, 0x0601)], 3, Kind::SuperKind, 81),
        (&[(80, 0x0421)], 1, Kind::SuperKind, 75),
        (&[(408, 0x2F43), (80, 0x0421)], 1, Kind::SuperKind, 75),
        (&[(166, 0x2F43), (318, 0x0601)], 1, Kind::MissingClass, 75),
        (&[(408, 0x2F43), (441, 0x2F41)], 3, Kind::MissingClass, 81),
        (&[(166, 0x2F4A)], 1, Kind::SuperCycle, 0),
        (&[(322, 7)], 2, Kind::SuperCycle, 0),
        (&[(511, 0x0101)], 3, Kind::SplitPackage, 130),
        (&[(511, 0x0101), (322, 7)], 2, Kind::SuperCycle, 0),
    ];
    for (patches, file, kind, at) in rows {
        let bytes = patched(alloc, patches)?;
        shows(&rt, alloc, bytes.as_slice(), Refusal { file, kind, at });
    }
    Ok(())
}
