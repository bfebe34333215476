use csubset::{CProgram, Map};
use osek_core::Tables;

/// What a build makes of its input, before it is printed.
#[derive(Drop)]
pub struct Built {
    pub program: CProgram,
    pub tables: Tables,
    pub map: Map,
}
