//! Verification types.

ghost use Rattle.std.specs.Prelude.{◌≡◌, IfOk};

use kes_text::NoMemory;
use sqlite_items::Items;
use std::alloc::Global;

/// The type of a value in a frame (JVMS SE 8, 4.10.1.2).
#[derive(Drop)]
pub enum VType {
    Top,
    /// An int, and a boolean, byte, char or short, which count as one.
    Integer,
    Float,
    Double,
    Long,
    Null,
    /// `this` in a constructor, before another constructor has been called on it.
    UninitThis,
    /// An object of the class or interface of this name, or an array of this descriptor.
    Object(Items<u8>),
    /// What the `new` at this place of the code has made, before a constructor has been called on it.
    Uninit(u16),
}

/// The same type again.
pub fn copied(alloc: Global, given: &VType) -> Result<VType, NoMemory>
    ensures { IfOk result (λ made. made ≡ given.now) }
{
    match given {
        VType::Top => Ok(VType::Top),
        VType::Integer => Ok(VType::Integer),
        VType::Float => Ok(VType::Float),
        VType::Double => Ok(VType::Double),
        VType::Long => Ok(VType::Long),
        VType::Null => Ok(VType::Null),
        VType::UninitThis => Ok(VType::UninitThis),
        VType::Object(name) => Ok(VType::Object(Items::from_slice(alloc, name.as_slice())?)),
        VType::Uninit(pc) => Ok(VType::Uninit(*pc)),
    }
}

/// The same types again.
pub fn all_copied(alloc: Global, given: &[VType]) -> Result<Items<VType>, NoMemory>
    ensures { IfOk result (λ made. made ≡ given.now) }
{
    let mut made = Items::new(alloc);
    for one in given {
        made.push(copied(alloc, one)?)?;
    }
    Ok(made)
}
