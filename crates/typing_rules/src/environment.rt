//! The method that is checked.

ghost use Rattle.std.specs.Prelude.{◌≡◌, slice_get};
ghost use Rattle.std.specs.Option.{option_copied};
ghost use Rattle.typing_rules.specs.Environment.{made_at, environment_of};

use crate::starts::Starts;
use classfile::{Class, Code, Method};
use jcode::Ins;
use jworld::{ClassId, MethodId, World};
use sqlite_items::at;
use std::marker::Model;

/// The method that is checked, its class, and its instructions; and for each place the index of the class
/// that the first new there makes objects of.
#[derive(Drop)]
pub struct Environment<'e, 'w> {
    pub world: &'e World<'w>,
    pub own: ClassId,
    pub class: &'e Class<'w>,
    pub method: &'e Method<'w>,
    pub code: &'e Code<'w>,
    pub instructions: &'e [Ins],
    pub made: Vec<Option<u16>>,
}

impl<'e, 'w> Model for Environment<'e, 'w> {
    ghost use Rattle.std.specs.Prelude.{◌≡◌, ℕ, None, slice_index_or};
    ghost use Rattle.typing_rules.specs.Environment.{Environment as Checked, made_at};

    ghost Value = { Checked };

    ghost view = { λ e. record { files = e.world.now; own = e.own.n; class = e.class.now; method = e.method.now; code = e.code.now; instructions = e.instructions.now } };

    ghost invariant = { λ e. (k : ℕ) → slice_index_or e.made.items k None ≡ made_at e.instructions.now k };
}

impl<'e, 'w> Environment<'e, 'w> {
    /// The index of the class that the first new at a place makes objects of.
    pub fn made_at(&self, pc: u16) -> Option<u16>
        ensures { result ≡ made_at self.now.instructions pc }
    {
        match self.made.get(usize::from(pc)) {
            Some(index) => *index,
            None => None,
        }
    }
}

/// The method of a number in a class.
fn method_of<'e, 'w>(class: &'e Class<'w>, n: u16) -> Option<&'e Method<'w>>
    ensures { option_copied result ≡ slice_get class.now.methods n }
{
    at(class.methods(), usize::from(n))
}

fn code_of<'e, 'w>(method: &'e Method<'w>) -> Option<&'e Code<'w>>
    ensures { option_copied result ≡ method.now.code }
{
    method.code.as_ref()
}

/// The check of a method, which has to be there and to have code.
pub fn environment_of<'e, 'w>(
    world: &'e World<'w>,
    id: MethodId,
    starts: Starts<'e>,
) -> Option<Environment<'e, 'w>>
    ensures { result ≡ environment_of world.now id starts.entry }
{
    let class = world.get(id.class)?;
    let method = method_of(class, id.n)?;
    let code = code_of(method)?;
    let instructions = starts.code();
    let made = starts.into_made();
    Some(Environment {
        world,
        own: id.class,
        class,
        method,
        code,
        instructions,
        made,
    })
}
