//! pop, dup and swap and their forms.

ghost use Rattle.std.specs.Prelude.{◌≡◌, ◌∷◌, [], IfOk};
ghost use Rattle.typing_rules.specs.Rules.StackForms.{is_single, single_popped, one_popped, pair_of, pair_popped, group_popped, with_operands, group_dropped, duplicated, swapped};

use crate::group::Group;
use crate::transition::popped;
use kes_text::NoMemory;
use stackmap::VType;
use std::alloc::Global;
use type_states::{Operands, TypeState, is_wide};

/// Whether a type is that of a value of one place.
fn is_single(given: &VType) -> bool
    ensures { result ≡ is_single given.now }
{
    match given {
        VType::Top | VType::Double | VType::Long => false,
        _ => true,
    }
}

fn single_popped(state: TypeState) -> Option<(VType, TypeState)>
    ensures { result ≡ single_popped state }
{
    let (top, rest) = popped(state)?;
    if is_single(&top) {
        Some((top, rest))
    } else {
        None
    }
}

fn one(alloc: Global, only: VType) -> Result<Operands, NoMemory>
    ensures { IfOk result (λ made. made ≡ only ∷ []) }
{
    let mut made = Operands::new(alloc);
    made.push(only)?;
    Ok(made)
}

fn one_popped(alloc: Global, state: TypeState) -> Result<Option<(Operands, TypeState)>, NoMemory>
    ensures { IfOk result (λ found. found ≡ one_popped state) }
{
    match single_popped(state) {
        Some((top, rest)) => Ok(Some((one(alloc, top)?, rest))),
        None => Ok(None),
    }
}

/// The group of two places of which this operand is the topmost.
fn pair_of(
    alloc: Global,
    top: VType,
    rest: TypeState,
) -> Result<Option<(Operands, TypeState)>, NoMemory>
    ensures { IfOk result (λ found. found ≡ pair_of top rest) }
{
    if is_wide(&top) {
        return Ok(Some((one(alloc, top)?, rest)));
    }
    if !is_single(&top) {
        return Ok(None);
    }
    match single_popped(rest) {
        Some((second, rest)) => {
            let mut both = one(alloc, second)?;
            both.push(top)?;
            Ok(Some((both, rest)))
        }
        None => Ok(None),
    }
}

fn pair_popped(alloc: Global, state: TypeState) -> Result<Option<(Operands, TypeState)>, NoMemory>
    ensures { IfOk result (λ found. found ≡ pair_popped state) }
{
    match popped(state) {
        Some((top, rest)) => pair_of(alloc, top, rest),
        None => Ok(None),
    }
}

/// The operands of a group, and the state without them.
#[tactic(auto, unfolding(crate::specs::Rules::StackForms::group_popped))]
fn group_popped(
    alloc: Global,
    group: Group,
    state: TypeState,
) -> Result<Option<(Operands, TypeState)>, NoMemory>
    ensures { IfOk result (λ found. found ≡ group_popped group state) }
{
    match group {
        Group::Nothing => Ok(Some((Operands::new(alloc), state))),
        Group::One => one_popped(alloc, state),
        Group::Pair => pair_popped(alloc, state),
    }
}

fn with_operands(tops: Operands, state: TypeState) -> Result<TypeState, NoMemory>
    ensures { IfOk result (λ after. after ≡ with_operands tops state) }
{
    let mut state = state;
    state.operands.append(tops)?;
    Ok(state)
}

pub fn group_dropped(
    alloc: Global,
    group: Group,
    state: TypeState,
) -> Result<Option<TypeState>, NoMemory>
    ensures { IfOk result (λ after. after ≡ group_dropped group state) }
{
    match group_popped(alloc, group, state)? {
        Some((_, rest)) => Ok(Some(rest)),
        None => Ok(None),
    }
}

/// The topmost group once more, below the group under it.
pub fn duplicated(
    alloc: Global,
    group: Group,
    under: Group,
    state: TypeState,
) -> Result<Option<TypeState>, NoMemory>
    ensures { IfOk result (λ after. after ≡ duplicated group under state) }
{
    let Some((tops, rest)) = group_popped(alloc, group, state)? else {
        return Ok(None);
    };
    let Some((below, rest)) = group_popped(alloc, under, rest)? else {
        return Ok(None);
    };
    let rest = with_operands(tops.copied(alloc)?, rest)?;
    let rest = with_operands(below, rest)?;
    Ok(Some(with_operands(tops, rest)?))
}

pub fn swapped(alloc: Global, state: TypeState) -> Result<Option<TypeState>, NoMemory>
    ensures { IfOk result (λ after. after ≡ swapped state) }
{
    let Some((tops, rest)) = group_popped(alloc, Group::One, state)? else {
        return Ok(None);
    };
    let Some((below, rest)) = group_popped(alloc, Group::One, rest)? else {
        return Ok(None);
    };
    let rest = with_operands(tops, rest)?;
    Ok(Some(with_operands(below, rest)?))
}
