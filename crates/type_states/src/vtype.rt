//! Verification types.

ghost use Rattle.std.specs.Prelude.{◌≡◌, IfOk};
ghost use Rattle.type_states.specs.TypeStates.{is_wide};

use kes_text::NoMemory;
use sqlite_items::Items;
use stackmap::VType;
use std::alloc::Global;

/// The same type again.
pub fn copied(alloc: Global, given: &VType) -> Result<VType, NoMemory>
    ensures { IfOk result (λ made. made ≡ given.now) }
{
    match given {
        VType::Top => Ok(VType::Top),
        VType::Integer => Ok(VType::Integer),
        VType::Float => Ok(VType::Float),
        VType::Double => Ok(VType::Double),
        VType::Long => Ok(VType::Long),
        VType::Null => Ok(VType::Null),
        VType::UninitThis => Ok(VType::UninitThis),
        VType::Object(name) => Ok(VType::Object(Items::from_slice(alloc, name.as_slice())?)),
        VType::Uninit(pc) => Ok(VType::Uninit(*pc)),
    }
}

/// The same types again.
pub fn all_copied(alloc: Global, given: &[VType]) -> Result<Items<VType>, NoMemory>
    ensures { IfOk result (λ made. made ≡ given.now) }
{
    let mut made = Items::new(alloc);
    for one in given {
        made.push(copied(alloc, one)?)?;
    }
    Ok(made)
}

/// Whether a type takes two slots.
pub fn is_wide(given: &VType) -> bool
    ensures { result ≡ is_wide given.now }
{
    match given {
        VType::Double | VType::Long => true,
        _ => false,
    }
}
