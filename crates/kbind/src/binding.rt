//! A configuration bound to a world.

ghost use Rattle.std.specs.Prelude.{◌≡◌, ◌++◌, IfOk, filter_map};
ghost use Rattle.kes_text.specs.Answers.{OrNoMemory};
ghost use Rattle.kbind.specs.Methods as spec;
ghost use Rattle.kbind.specs.Natives.{native_named};
ghost use Rattle.kbind.specs.Cells.{cell_named};
ghost use Rattle.kbind.specs.Objects.{object_class, device_named};
ghost use Rattle.kbind.specs.Portals.{portal_named};
ghost use Rattle.kbind.specs.Bound.{entry_of, class_faults, method_faults, earlier, earliest, bound_of, IsBound};

use crate::bound::Bound;
use crate::classes::{Classes, shown_names};
use crate::devices::bind_devices;
use crate::entries::bind_entries;
use crate::mapped::{Cells, bind_cells};
use crate::methods::{Declared, Methods, declared_methods};
use crate::natives::bind_natives;
use crate::objects::bind_objects;
use crate::portals::bind_portals;
use jworld::{ClassId, FieldId, MethodId, World};
use kconfig::Config;
use kes_text::{NoMemory, Refusal, Stop};
use sqlite_items::Items;
use std::alloc::Global;

/// What the lines that name classes name.
#[derive(Drop)]
struct ByClass {
    entries: Items<MethodId>,
    cells: Items<FieldId>,
    objects: Items<ClassId>,
}

/// Looks up the classes that lines name, and notes the lines whose rule fails.
fn bind_by_class<'t>(
    alloc: Global,
    classes: &Classes<'t, '_, '_>,
    lines: &Cells<'t>,
    config: &'t Config,
    faults: &mut Items<Refusal>,
) -> Result<ByClass, NoMemory>
    requires { lines.now ≡ config.now.cells }
    ensures entries { IfOk result (λ found. found.entries ≡ filter_map (entry_of classes.now) config.now.tasks) }
    ensures cells { IfOk result (λ found. found.cells ≡ filter_map (cell_named classes.now) config.now.cells) }
    ensures objects { IfOk result (λ found. found.objects ≡ filter_map (object_class classes.now) config.now.objects) }
    ensures faults { IfOk result (λ _. faults.new ≡ faults.old ++ class_faults classes.now config.now) }
{
    let entries = bind_entries(alloc, classes, config.tasks.as_slice(), faults)?;
    let cells = bind_cells(alloc, classes, lines, faults)?;
    let size = config.devices.size;
    let objects = bind_objects(
        alloc,
        classes,
        size,
        lines,
        config.objects.as_slice(),
        faults,
    )?;
    Ok(ByClass {
        entries,
        cells,
        objects,
    })
}

/// What the lines that name methods name.
#[derive(Drop)]
struct ByMethod {
    natives: Items<MethodId>,
    device_methods: Items<MethodId>,
    portals: Items<(MethodId, MethodId)>,
}

/// Looks up the methods that lines name, and notes the lines whose rule fails.
fn bind_by_method<'t>(
    alloc: Global,
    methods: &Methods<'t, '_, '_>,
    config: &'t Config,
    faults: &mut Items<Refusal>,
) -> Result<ByMethod, NoMemory>
    ensures natives { IfOk result (λ found. found.natives ≡ filter_map (native_named methods.now) config.now.natives) }
    ensures devices { IfOk result (λ found. found.device_methods ≡ filter_map (device_named methods.now config.now.objects) config.now.device_methods) }
    ensures portals { IfOk result (λ found. found.portals ≡ filter_map (portal_named methods.now) config.now.portals) }
    ensures faults { IfOk result (λ _. faults.new ≡ faults.old ++ method_faults methods.now config.now) }
{
    let objects = config.objects.as_slice();
    let devices = config.device_methods.as_slice();
    let natives = bind_natives(alloc, methods, config.natives.as_slice(), faults)?;
    let device_methods = bind_devices(alloc, methods, objects, devices, faults)?;
    let portals = bind_portals(alloc, methods, config.portals.as_slice(), faults)?;
    Ok(ByMethod {
        natives,
        device_methods,
        portals,
    })
}

/// The same of a world.
fn by_class(
    alloc: Global,
    world: &World<'_>,
    config: &Config,
    faults: &mut Items<Refusal>,
) -> Result<ByClass, NoMemory>
    ensures entries { IfOk result (λ found. found.entries ≡ filter_map (entry_of world.now) config.now.tasks) }
    ensures cells { IfOk result (λ found. found.cells ≡ filter_map (cell_named world.now) config.now.cells) }
    ensures objects { IfOk result (λ found. found.objects ≡ filter_map (object_class world.now) config.now.objects) }
    ensures faults { IfOk result (λ _. faults.new ≡ faults.old ++ class_faults world.now config.now) }
{
    let names = shown_names(alloc, world)?;
    let classes = Classes::of(alloc, world, names.as_slice())?;
    let lines = Cells::of(alloc, config.cells.as_slice())?;
    bind_by_class(alloc, &classes, &lines, config, faults)
}

/// The methods of a world.
fn methods_of<'w, 'a>(
    alloc: Global,
    world: &'w World<'a>,
) -> Result<Vec<Declared<'w, 'a>>, NoMemory>
    ensures { IfOk result (λ declared. declared.items ≡ spec.declared_methods world.now) }
{
    declared_methods(alloc, world.files())
}

/// The same of a world.
fn by_method(
    alloc: Global,
    world: &World<'_>,
    config: &Config,
    faults: &mut Items<Refusal>,
) -> Result<ByMethod, NoMemory>
    ensures natives { IfOk result (λ found. found.natives ≡ filter_map (native_named (spec.declared_methods world.now)) config.now.natives) }
    ensures devices { IfOk result (λ found. found.device_methods ≡ filter_map (device_named (spec.declared_methods world.now) config.now.objects) config.now.device_methods) }
    ensures portals { IfOk result (λ found. found.portals ≡ filter_map (portal_named (spec.declared_methods world.now)) config.now.portals) }
    ensures faults { IfOk result (λ _. faults.new ≡ faults.old ++ method_faults (spec.declared_methods world.now) config.now) }
{
    let declared = methods_of(alloc, world)?;
    let methods = Methods::of(alloc, declared.as_slice())?;
    bind_by_method(alloc, &methods, config, faults)
}

/// The fault at the earlier line; of two at one line the first.
fn earlier(fault: Refusal, other: Option<Refusal>) -> Refusal
    ensures { result ≡ earlier fault other }
{
    match other {
        Some(other) => { if fault.at <= other.at { fault } else { other } }
        None => fault,
    }
}

/// The fault at the first line.
fn earliest(faults: &[Refusal]) -> Option<Refusal>
    ensures { result ≡ earliest faults.now }
{
    let mut first = None;
    for n in (0..faults.len()).rev() {
        first = Some(earlier(faults[n], first));
    }
    first
}

/// What each line names, or the first line whose rule fails.
#[tactic(auto, unfolding(crate::specs::Bound::members))]
fn bind_lines(alloc: Global, config: Config, world: &World<'_>) -> Result<Bound, Stop>
    ensures { OrNoMemory result (bound_of world.now config) }
{
    let mut faults = Items::new(alloc);
    let classes = by_class(alloc, world, &config, &mut faults)?;
    let methods = by_method(alloc, world, &config, &mut faults)?;
    match earliest(faults.as_slice()) {
        Some(fault) => Err(Stop::Refused(fault)),
        None => Ok(Bound {
            config,
            entries: classes.entries,
            natives: methods.natives,
            cells: classes.cells,
            objects: classes.objects,
            device_methods: methods.device_methods,
            portals: methods.portals,
        }),
    }
}

/// The configuration with the member that each line names, or the first line whose rule fails: NoEntry, BadNative,
/// BadMapped or BadPortal at the line. A refusal has 0 for its file, which the caller sets.
pub fn bind(alloc: Global, config: Config, world: &World<'_>) -> Result<Bound, Stop>
    ensures says { OrNoMemory result (bound_of world.now config) }
    ensures each { IfOk result (λ bound. IsBound world.now bound) }
{
    bind_lines(alloc, config, world)
}
