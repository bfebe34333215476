//! Classes by name (JVMS SE 8, 5.3 and 5.4).
#![tactic(auto)]

mod above;
mod alone;
mod classes;
mod closure;
mod cycles;
mod faults;
mod files;
mod found;
mod ids;
mod keyed;
mod law;
mod members;
mod methods;
mod names;
mod passed;
mod row;
mod splits;
mod superinterfaces;
mod supers;
mod worked;
mod world;

pub use ids::{ClassId, FieldId, MethodId};
pub use law::above_is_the_closure;
pub use worked::{
    classes_above, fields_found, files_refused, methods_of_interfaces, numbered_classes,
    reference_types, split_packages,
};
pub use world::World;
