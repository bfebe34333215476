//! Returns.

ghost use Rattle.std.specs.Prelude.{◌≡◌, IfOk};
ghost use Rattle.typing_rules.specs.Rules.Returns.{is_initialised, is_returned_by, value_returned, nothing_returned};

use crate::environment::Environment;
use crate::members::{is_constructor, signature_of, type_of};
use crate::returned::Returned;
use crate::transition::transition;
use kes_text::NoMemory;
use stackmap::VType;
use std::alloc::Global;
use type_states::{TypeState, is_among};

/// Whether no slot has a `this` that isn't initialised yet, or the method is no constructor.
fn is_initialised(e: &Environment<'_, '_>, state: &TypeState) -> bool
    ensures { result ≡ is_initialised e.now state.now }
{
    if is_constructor(e) {
        !is_among(&VType::UninitThis, state.slots.as_slice())
    } else {
        true
    }
}

fn is_returned_by(kind: Returned, given: &VType) -> bool
    ensures { result ≡ is_returned_by kind given.now }
{
    match (kind, given) {
        (Returned::Int, VType::Integer)
        | (Returned::Long, VType::Long)
        | (Returned::Reference, VType::Object(_)) => true,
        _ => false,
    }
}

pub fn value_returned(
    alloc: Global,
    e: &Environment<'_, '_>,
    kind: Returned,
    state: TypeState,
) -> Result<Option<TypeState>, NoMemory>
    ensures { IfOk result (λ after. after ≡ value_returned e.now kind state) }
{
    let method = e.method;
    let Some(signature) = signature_of(alloc, method.descriptor)? else {
        return Ok(None);
    };
    let Some(answer) = signature.answer() else {
        return Ok(None);
    };
    let wanted = type_of(alloc, answer)?;
    if is_returned_by(kind, &wanted) && is_initialised(e, &state) {
        transition(e.world, &[wanted], None, state)
    } else {
        Ok(None)
    }
}

pub fn nothing_returned(
    alloc: Global,
    e: &Environment<'_, '_>,
    state: TypeState,
) -> Result<Option<TypeState>, NoMemory>
    ensures { IfOk result (λ after. after ≡ nothing_returned e.now state) }
{
    let method = e.method;
    let Some(signature) = signature_of(alloc, method.descriptor)? else {
        return Ok(None);
    };
    if signature.answer().is_none() && is_initialised(e, &state) {
        Ok(Some(state))
    } else {
        Ok(None)
    }
}
