//! What the lines of a configuration name.

use jworld::{ClassId, FieldId, MethodId};
use kconfig::Config;
use sqlite_items::Items;

/// A configuration with the member that each line names, line by line of each form.
#[derive(Drop)]
pub struct Bound {
    pub config: Config,
    pub entries: Items<MethodId>,
    pub natives: Items<MethodId>,
    pub cells: Items<FieldId>,
    pub objects: Items<ClassId>,
    pub device_methods: Items<MethodId>,
    /// The native method and its target.
    pub portals: Items<(MethodId, MethodId)>,
}
