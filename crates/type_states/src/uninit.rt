//! Objects that aren't initialised yet.

ghost use Rattle.std.specs.Prelude.{◌≡◌, IfOk};
ghost use Rattle.std.specs.List.{list_any};
ghost use Rattle.type_states.specs.Uninit.{is_same_uninit, instead, instead_in, object_made};

use crate::operands::Operands;
use crate::state::TypeState;
use crate::vtype::copied;
use kes_text::NoMemory;
use sqlite_items::Items;
use stackmap::VType;
use std::alloc::Global;

/// Whether two types are that of one object that isn't initialised yet.
fn is_same_uninit(a: &VType, b: &VType) -> bool
    ensures { result ≡ is_same_uninit a.now b.now }
{
    match (a, b) {
        (VType::UninitThis, VType::UninitThis) => true,
        (VType::Uninit(a), VType::Uninit(b)) => *a == *b,
        _ => false,
    }
}

/// The types with one instead of an object that isn't initialised yet.
fn instead(
    alloc: Global,
    old: &VType,
    new: &VType,
    types: &[VType],
) -> Result<Items<VType>, NoMemory>
    ensures { IfOk result (λ made. made ≡ instead old.now new.now types.now) }
{
    let mut made = Items::new(alloc);
    for one in types {
        let now = if is_same_uninit(old, one) { new } else { one };
        made.push(copied(alloc, now)?)?;
    }
    Ok(made)
}

fn instead_operands(
    alloc: Global,
    old: &VType,
    new: &VType,
    operands: &Operands,
) -> Result<Operands, NoMemory>
    ensures { IfOk result (λ made. made ≡ instead old.now new.now operands.now) }
{
    let stack = instead(alloc, old, new, operands.stack())?;
    Ok(Operands::of(stack))
}

pub fn instead_in(
    alloc: Global,
    old: &VType,
    new: &VType,
    state: &TypeState,
) -> Result<TypeState, NoMemory>
    ensures { IfOk result (λ after. after ≡ instead_in old.now new.now state.now) }
{
    let slots = instead(alloc, old, new, state.slots.as_slice())?;
    let operands = instead_operands(alloc, old, new, &state.operands)?;
    Ok(TypeState { slots, operands })
}

/// Whether one of the types is that of this object that isn't initialised yet.
pub fn is_among(given: &VType, types: &[VType]) -> bool
    ensures { result ≡ list_any (is_same_uninit given.now) types.now }
{
    for one in types {
        if is_same_uninit(given, one) {
            return true;
        }
    }
    false
}

fn has_uninit(given: &VType, operands: &Operands) -> bool
    ensures { result ≡ list_any (is_same_uninit given.now) operands.now }
{
    is_among(given, operands.stack())
}

/// The new at a place makes an object.
pub fn object_made(alloc: Global, pc: u16, state: TypeState) -> Result<Option<TypeState>, NoMemory>
    ensures { IfOk result (λ after. after ≡ object_made pc state) }
{
    let made = VType::Uninit(pc);
    if has_uninit(&made, &state.operands) {
        return Ok(None);
    }
    let TypeState { slots, operands } = state;
    let slots = instead(alloc, &made, &VType::Top, slots.as_slice())?;
    let mut operands = operands;
    operands.push(made)?;
    Ok(Some(TypeState { slots, operands }))
}
