//! A configuration and a class that belong together.

ghost use Rattle.std.specs.Prelude.{◌≡◌, IfOk};
ghost use Rattle.std.specs.Option.{option_map};
ghost use Rattle.first_form.specs.Config.{config_of};
ghost use Rattle.first_form.specs.Fits.{fits, has_dot, if_they_fit, only_class};
ghost use Rattle.first_form.specs.Said.{said};

use crate::config::{FirstConfig, first_config};
use crate::emission::shown_method;
use crate::first_class::{FirstClass, first_class};
use classfile::Class;
use kconfig::Config;
use kes_text::NoMemory;
use std::alloc::Global;

/// An input of the first form.
#[derive(Drop)]
pub struct FirstInput {
    pub config: FirstConfig,
    pub class: FirstClass,
}

/// Whether a method's name has a dot: in `CLASS.NAME` the last one parts the two.
fn has_dot(name: &[u8]) -> bool
    ensures { result ≡ has_dot name.now }
{
    name.iter().any(|byte| *byte == b'.')
}

/// Whether the configuration and the class belong together.
fn fits(alloc: Global, config: &FirstConfig, class: &FirstClass) -> Result<bool, NoMemory>
    ensures { IfOk result (λ answer. answer ≡ fits config.now class.now) }
{
    let (name, entry) = (class.name.as_slice(), class.entry.as_slice());
    let shown_entry = shown_method(alloc, name, entry, "")?;
    let shown_native = shown_method(alloc, name, class.native.as_slice(), "()I")?;
    Ok(
        !name.is_empty()
            && !has_dot(entry)
            && config.entry.as_slice() == shown_entry.as_slice()
            && config.method.as_slice() == shown_native.as_slice(),
    )
}

/// The class of the first form that the classes are: there is one, and it is of this form.
fn only_class(alloc: Global, classes: &[Class<'_>]) -> Result<Option<FirstClass>, NoMemory>
    ensures { IfOk result (λ found. only_class classes.now ≡ found) }
{
    match classes {
        [class] => first_class(alloc, class),
        _ => Ok(None),
    }
}

/// The input, if both are of the first form and belong together.
fn together(
    alloc: Global,
    config: Option<FirstConfig>,
    class: Option<FirstClass>,
) -> Result<Option<FirstInput>, NoMemory>
    ensures { IfOk result (λ found. option_map said found ≡ if_they_fit config class) }
{
    let (Some(config), Some(class)) = (config, class) else {
        return Ok(None);
    };
    if fits(alloc, &config, &class)? {
        Ok(Some(FirstInput { config, class }))
    } else {
        Ok(None)
    }
}

/// What a configuration and the classes of a world say in the first form, or None where they aren't of it.
pub fn first_input(
    alloc: Global,
    config: &Config,
    classes: &[Class<'_>],
) -> Result<Option<FirstInput>, NoMemory>
    ensures { IfOk result (λ found. option_map said found ≡ if_they_fit (config_of config.now) (only_class classes.now)) }
{
    let config = first_config(alloc, config)?;
    let class = only_class(alloc, classes)?;
    together(alloc, config, class)
}
