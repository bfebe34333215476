//! What instructions ask of a class's constant pool.

ghost use Rattle.std.specs.Prelude.{◌≡◌};
ghost use Rattle.jcode.specs.Pool.{is_kind, is_member};
ghost use Rattle.jcode.specs.PoolOf.{pool_of};

use classfile::{Class, Constant, MemberKind};

fn is_kind(wanted: MemberKind, found: MemberKind) -> bool
    ensures { result ≡ is_kind wanted found }
{
    match (wanted, found) {
        (MemberKind::Field, MemberKind::Field)
        | (MemberKind::Method, MemberKind::Method)
        | (MemberKind::Interface, MemberKind::Interface) => true,
        _ => false,
    }
}

/// Whether the entry at the index names a member of this kind.
#[tactic(auto, unfolding(crate::specs::PoolOf::pool_of))]
pub fn is_member(class: &Class<'_>, kind: MemberKind, index: u16) -> bool
    ensures { result ≡ is_member (pool_of class.now) kind index }
{
    match class.member(index) {
        Some(member) => is_kind(kind, member.kind),
        None => false,
    }
}

/// Whether a class stands at the index.
#[tactic(auto, unfolding(crate::specs::PoolOf::pool_of))]
pub fn is_class(class: &Class<'_>, index: u16) -> bool
    ensures { result ≡ (pool_of class.now).is_class index }
{
    class.class_at(index).is_some()
}

/// The constant of int or long that stands at the index.
#[tactic(auto, unfolding(crate::specs::PoolOf::pool_of))]
pub fn constant(class: &Class<'_>, index: u16) -> Option<Constant>
    ensures { result ≡ (pool_of class.now).constant index }
{
    class.constant_at(index)
}
