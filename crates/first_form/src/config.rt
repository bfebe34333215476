//! Configurations of the first form.

ghost use Rattle.std.specs.Prelude.{◌≡◌, true, IfOk};
ghost use Rattle.first_form.specs.Config.{has_no_more, activates_first, are_bounded, config_with, config_of};

use kconfig::{Config, DomainLine, NativeLine, Service, TaskLine};
use kes_text::NoMemory;
use sqlite_items::Items;
use std::alloc::Global;

/// A configuration of the first form: one domain, one task, and one native that activates it.
#[derive(Drop)]
pub struct FirstConfig {
    /// Whether the high byte of a number comes first.
    pub big: bool,
    /// In bytes, a multiple of 8 up to 8,388,608.
    pub heap: u32,
    pub task: Items<u8>,
    /// From 0 to 63.
    pub priority: u8,
    /// From 1 to 15.
    pub activations: u8,
    pub auto: bool,
    pub full: bool,
    /// The method that the task runs, as `CLASS.NAME`.
    pub entry: Items<u8>,
    /// The native method, as `CLASS.NAME()I`.
    pub method: Items<u8>,
}

const MAX_HEAP: u64 = 8_388_608;

/// Whether there are no devices, and no lines of kinds that the first form hasn't.
fn has_no_more(config: &Config) -> bool
    ensures { result ≡ has_no_more config.now }
{
    config.devices.line == 0
        && config.counters.is_empty()
        && config.events.is_empty()
        && config.resources.is_empty()
        && config.uses.is_empty()
        && config.waits.is_empty()
        && config.alarms.is_empty()
        && config.starts.is_empty()
        && config.cells.is_empty()
        && config.objects.is_empty()
        && config.device_methods.is_empty()
        && config.portals.is_empty()
}

/// Whether it is ActivateTask of the first task.
fn activates_first(service: Service) -> bool
    ensures { result ≡ activates_first service }
{
    match service {
        Service::ActivateTask { task } => task == 0,
        _ => false,
    }
}

/// Whether the numbers are within the bounds that a configuration's have.
fn are_bounded(domain: &DomainLine, task: &TaskLine) -> bool
    ensures { result ≡ are_bounded domain.now task.now }
{
    domain.heap <= MAX_HEAP && task.prio <= 63 && 1 <= task.acts && task.acts <= 15
}

/// The configuration of these lines.
fn config_with(
    alloc: Global,
    big: bool,
    domain: &DomainLine,
    task: &TaskLine,
    native: &NativeLine,
) -> Result<FirstConfig, NoMemory>
    requires { are_bounded domain.now task.now ≡ true }
    ensures { IfOk result (λ made. made ≡ config_with big domain.now task.now native.now) }
{
    Ok(FirstConfig {
        big,
        heap: domain.heap as u32,
        task: Items::from_slice(alloc, task.name.as_slice())?,
        priority: task.prio as u8,
        activations: task.acts as u8,
        auto: task.auto,
        full: task.full,
        entry: Items::from_slice(alloc, task.entry.as_slice())?,
        method: Items::from_slice(alloc, native.method.as_slice())?,
    })
}

/// The configuration of the first form that the configuration is, or None where it is none.
#[tactic(auto, unfolding(crate::specs::Config::config_of))]
pub fn first_config(alloc: Global, config: &Config) -> Result<Option<FirstConfig>, NoMemory>
    ensures { IfOk result (λ found. found ≡ config_of config.now) }
{
    let [domain] = config.domains.as_slice() else {
        return Ok(None);
    };
    let [task] = config.tasks.as_slice() else {
        return Ok(None);
    };
    let [native] = config.natives.as_slice() else {
        return Ok(None);
    };
    if has_no_more(config) && activates_first(native.service) && are_bounded(domain, task) {
        let made = config_with(alloc, config.keso.big, domain, task, native)?;
        Ok(Some(made))
    } else {
        Ok(None)
    }
}
