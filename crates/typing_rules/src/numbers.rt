//! Operands of these types that give way to a result.

ghost use Rattle.std.specs.Prelude.{◌≡◌, [], ◌∷◌, None, IfOk};
ghost use Rattle.stackmap.specs.declared.vtype.VType.TheVariants.{Integer, Long};
ghost use Rattle.typing_rules.specs.Rules.Arrays.{object_type};
ghost use Rattle.typing_rules.specs.Rules.Transition.{transition};
ghost use Rattle.typing_rules.specs.Outcome.{number, two_numbers, shifted, converted, cast, thrown};

use crate::arrays::{object, object_type};
use crate::environment::Environment;
use crate::transition::transition;
use kes_text::NoMemory;
use stackmap::VType;
use std::alloc::Global;
use type_states::TypeState;

/// The numbers on which an operation works.
pub fn number(wide: bool) -> VType
    ensures { result ≡ number wide }
{
    if wide { VType::Long } else { VType::Integer }
}

pub fn two_numbers(
    e: &Environment<'_, '_>,
    wide: bool,
    state: TypeState,
) -> Result<Option<TypeState>, NoMemory>
    ensures { IfOk result (λ after. after ≡ two_numbers e.now wide state) }
{
    transition(
        e.world,
        &[number(wide), number(wide)],
        Some(number(wide)),
        state,
    )
}

pub fn shifted(
    e: &Environment<'_, '_>,
    wide: bool,
    state: TypeState,
) -> Result<Option<TypeState>, NoMemory>
    ensures { IfOk result (λ after. after ≡ shifted e.now wide state) }
{
    transition(
        e.world,
        &[VType::Integer, number(wide)],
        Some(number(wide)),
        state,
    )
}

pub fn converted(
    e: &Environment<'_, '_>,
    from: VType,
    to: VType,
    state: TypeState,
) -> Result<Option<TypeState>, NoMemory>
    ensures { IfOk result (λ after. after ≡ converted e.now from to state) }
{
    transition(e.world, &[from], Some(to), state)
}

pub fn cast(
    alloc: Global,
    e: &Environment<'_, '_>,
    index: u16,
    state: TypeState,
) -> Result<Option<TypeState>, NoMemory>
    ensures { IfOk result (λ after. after ≡ cast e.now index state) }
{
    match e.class.class_at(index) {
        Some(name) => {
            let wanted = object_type(alloc)?;
            let made = object(alloc, name)?;
            transition(e.world, &[wanted], Some(made), state)
        }
        None => Ok(None),
    }
}

pub fn thrown(
    alloc: Global,
    e: &Environment<'_, '_>,
    state: TypeState,
) -> Result<Option<TypeState>, NoMemory>
    ensures { IfOk result (λ after. after ≡ thrown e.now state) }
{
    let wanted = object(alloc, b"java/lang/Throwable")?;
    transition(e.world, &[wanted], None, state)
}

/// A result on the top.
pub fn given(
    e: &Environment<'_, '_>,
    gives: VType,
    state: TypeState,
) -> Result<Option<TypeState>, NoMemory>
    ensures { IfOk result (λ after. after ≡ transition e.now.files [] (Some gives) state) }
{
    transition(e.world, &[], Some(gives), state)
}

/// An int that is taken.
pub fn int_taken(e: &Environment<'_, '_>, state: TypeState) -> Result<Option<TypeState>, NoMemory>
    ensures { IfOk result (λ after. after ≡ transition e.now.files (Integer ∷ []) None state) }
{
    transition(e.world, &[VType::Integer], None, state)
}

pub fn two_ints_taken(
    e: &Environment<'_, '_>,
    state: TypeState,
) -> Result<Option<TypeState>, NoMemory>
    ensures { IfOk result (λ after. after ≡ transition e.now.files (Integer ∷ Integer ∷ []) None state) }
{
    transition(e.world, &[VType::Integer, VType::Integer], None, state)
}

pub fn compared(e: &Environment<'_, '_>, state: TypeState) -> Result<Option<TypeState>, NoMemory>
    ensures { IfOk result (λ after. after ≡ transition e.now.files (Long ∷ Long ∷ []) (Some Integer) state) }
{
    transition(
        e.world,
        &[VType::Long, VType::Long],
        Some(VType::Integer),
        state,
    )
}

pub fn is_instance(
    alloc: Global,
    e: &Environment<'_, '_>,
    state: TypeState,
) -> Result<Option<TypeState>, NoMemory>
    ensures { IfOk result (λ after. after ≡ converted e.now object_type Integer state) }
{
    let wanted = object_type(alloc)?;
    converted(e, wanted, VType::Integer, state)
}
