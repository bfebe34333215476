//! Class files (JVMS SE 8, 4.1 to 4.7).
#![tactic(auto)]

mod access;
mod attributes;
mod checks;
mod class;
mod codes;
mod entries;
mod faults;
mod law;
mod member;
mod members;
mod names;
mod numbers;
mod pool;
mod reading;
mod rows;
mod scan;
mod seen;
mod slice;
mod text;
mod uses;
mod worked;

pub use access::Access;
pub use class::{Class, Code, Field, Method};
pub use law::class_files_are_spelled;
pub use member::{Constant, Member, MemberKind};
pub use reading::read_class;
pub use worked::{class_files, first_faults, pool_entries, spelled_files};
