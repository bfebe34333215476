//! An input as a run takes it.

ghost use Rattle.std.specs.Prelude.{◌≡◌, ◌<◌, ◌≤◌, ◌^◌, IfOk, length};
ghost use Rattle.run_names.specs.Objects.{names_of};
ghost use Rattle.run_input.specs.Input.{application_of, shown_methods};

use crate::methods::{ids_of, methods_of};
use crate::starts::starts_of;
use b_machine::Program;
use jworld::World;
use kbind::Bound;
use kconfig::Config;
use kes_text::NoMemory;
use method_typing::Typed;
use reach::Reached;
use run_names::{Names, method_names, names};
use std::alloc::Global;

/// The application of a configuration that is bound to a world, with what is reached there.
pub fn program_of<'a>(
    alloc: Global,
    world: World<'a>,
    bound: Bound,
    reached: Reached,
) -> Result<Program<'a>, NoMemory>
    requires { length reached.typed < 2 ^ 32 }
    ensures { IfOk result (λ program. program ≡ application_of world.entry bound reached) }
{
    let initialisers = starts_of(alloc, &reached.pairs, reached.starts.as_slice())?;
    let methods = methods_of(alloc, &world, &bound, reached.typed)?;
    Program::new(alloc, world, bound, methods, initialisers)
}

/// The names by which the events of its run are shown: those of the configuration's objects, and the methods as they
/// are shown, in the order of their numbers.
pub fn names_of_run(
    alloc: Global,
    world: &World<'_>,
    config: &Config,
    typed: &[Typed],
) -> Result<Names, NoMemory>
    requires { config.now.devices.size ≤ 65536 }
    ensures { IfOk result (λ names. names ≡ record (names_of config.now) { methods = shown_methods world.now typed.now }) }
{
    let mut names = names(alloc, config)?;
    let ids = ids_of(alloc, typed)?;
    names.methods = method_names(alloc, world, ids.as_slice())?;
    Ok(names)
}
