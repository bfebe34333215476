//! The subset of C that is written, and the definitions of what it does.
#![tactic(auto)]

mod examples;
mod expression;
mod map;
mod program;
mod statement;
mod worked;

pub use examples::text_examples;
pub use expression::{Atom, Expr, OneOp, TwoOp};
pub use map::{FailRow, FunctionKind, FunctionRow, Map, RegionRow};
pub use program::{CFunction, CProgram, CRegion, CTask};
pub use statement::{CService, Form, Stmt};
pub use worked::{
    calls_and_services, conversions, fail_shuts_down, form_faults, int_operators,
    kept_tick_is_served, loads_and_stores, long_arithmetic, long_bits, meaningless_is_stuck,
    stored_example,
};
