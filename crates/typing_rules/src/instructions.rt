ghost use Rattle.std.specs.Prelude.{◌≡◌, ℕ, ◌≤◌, ◌^◌, None, slice_index_or, IfOk};
ghost use Rattle.jworld.specs.Fields.{or_else};
ghost use Rattle.typing_rules.specs.Environment.{made_index, made_at};

use jcode::{Ins, Op};
use kes_text::NoMemory;
use std::alloc::Global;

/// The index of the class that an instruction makes objects of.
fn made_index(op: &Op) -> Option<u16>
    ensures { result ≡ made_index op.now }
{
    match op {
        Op::New { index } => Some(*index),
        _ => None,
    }
}

/// What was made already, or else what an instruction makes.
fn first_made(before: Option<u16>, op: &Op) -> Option<u16>
    ensures { result ≡ or_else before (made_index op.now) }
{
    match before {
        Some(index) => Some(index),
        None => made_index(op),
    }
}

/// For each of so many places the index of the class that the first new there makes objects of.
pub fn made_by_place(
    alloc: Global,
    places: usize,
    code: &[Ins],
) -> Result<Vec<Option<u16>>, NoMemory>
    requires { 2 ^ 16 ≤ places }
    ensures { IfOk result (λ made. (k : ℕ) → slice_index_or made.items k None ≡ made_at code.now k) }
{
    let mut made = vec![in alloc; None; places]?;
    for ins in code {
        let place = usize::from(ins.pc);
        made[place] = first_made(made[place], &ins.op);
    }
    Ok(made)
}
