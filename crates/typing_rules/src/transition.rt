//! Operands that give way to a result.

ghost use Rattle.std.specs.Prelude.{◌≡◌, IfOk};
ghost use Rattle.typing_rules.specs.Rules.Transition.{popped, pushed, pushed_if, taken, all_taken, transition};

use jworld::World;
use kes_text::NoMemory;
use stackmap::VType;
use type_states::{TypeState, is_assignable};

/// The topmost operand, and the state without it.
pub fn popped(state: TypeState) -> Option<(VType, TypeState)>
    ensures { result ≡ popped state }
{
    let mut state = state;
    match state.operands.pop() {
        Some(top) => Some((top, state)),
        None => None,
    }
}

pub fn pushed(top: VType, state: TypeState) -> Result<TypeState, NoMemory>
    ensures { IfOk result (λ after. after ≡ pushed top state) }
{
    let mut state = state;
    state.operands.push(top)?;
    Ok(state)
}

pub fn pushed_if(top: Option<VType>, state: TypeState) -> Result<TypeState, NoMemory>
    ensures { IfOk result (λ after. after ≡ pushed_if top state) }
{
    match top {
        Some(top) => pushed(top, state),
        None => Ok(state),
    }
}

/// The state without the topmost operand, which has to be of this type.
pub fn taken(world: &World<'_>, wanted: &VType, state: TypeState) -> Option<TypeState>
    ensures { result ≡ taken world.now wanted.now state }
{
    let (top, rest) = popped(state)?;
    if is_assignable(world, &top, wanted) {
        Some(rest)
    } else {
        None
    }
}

/// The state without operands of these types, the topmost first.
pub fn all_taken(world: &World<'_>, wanted: &[VType], state: TypeState) -> Option<TypeState>
    ensures { result ≡ all_taken world.now wanted.now state }
{
    let mut rest = state;
    for one in wanted {
        rest = taken(world, one, rest)?;
    }
    Some(rest)
}

/// Operands of these types, the topmost first, give way to a result.
pub fn transition(
    world: &World<'_>,
    takes: &[VType],
    gives: Option<VType>,
    state: TypeState,
) -> Result<Option<TypeState>, NoMemory>
    ensures { IfOk result (λ after. after ≡ transition world.now takes.now gives state) }
{
    match all_taken(world, takes, state) {
        Some(rest) => Ok(Some(pushed_if(gives, rest)?)),
        None => Ok(None),
    }
}
