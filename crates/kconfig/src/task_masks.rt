//! What lines say of each task, as masks.

ghost use Rattle.std.specs.Prelude.{◌≡◌, ◌<◌, ◌≤◌, ◌==◌, ◌&&◌, ◌||◌, ◌++◌, ◌∷◌, [], ℕ, All, IfOk, OnOk, if◌then◌else◌, slice_index};
ghost use Rattle.kconfig.specs.Tasks.{use_stands, wait_stands};
ghost use Rattle.kconfig.specs.Tables.{places_where};
ghost use Rattle.kconfig.specs.Masks.{is_set, AreMasks};

use crate::config::{UseLine, WaitLine};
use kes_text::NoMemory;
use sqlite_items::Items;
use std::alloc::Global;

/// One place more in the mask of a task.
fn add_place(masks: &mut [u32; 64], task: u32, place: u32)
    requires task { task < 64 }
    requires place { place < 32 }
    ensures { (t p : ℕ) → t < 64 → p < 32 → is_set (slice_index masks.new t) p ≡ (is_set (slice_index masks.old t) p || (task == t && place == p)) }
{
    masks[task as usize] |= 1 << place;
}

/// For each task the resources that it uses: bit k stands for the k-th.
pub fn used_by_task(uses: &[UseLine]) -> [u32; 64]
    requires { All (λ x. (x.task < 64) × (x.resource < 32)) uses.now }
    ensures { AreMasks (use_stands uses.now) result }
{
    let mut masks = [0; 64];
    for line in uses {
        add_place(&mut masks, line.task, line.resource);
    }
    masks
}

/// For each task the events for which it waits: bit k stands for the k-th.
pub fn waited_by_task(waits: &[WaitLine]) -> [u32; 64]
    requires { All (λ x. (x.task < 64) × (x.event < 32)) waits.now }
    ensures { AreMasks (wait_stands waits.now) result }
{
    let mut masks = [0; 64];
    for line in waits {
        add_place(&mut masks, line.task, line.event);
    }
    masks
}

/// One place more, if it is to be there.
fn push_if(found: &mut Items<u32>, is: bool, place: u32) -> Result<(), NoMemory>
    ensures { OnOk result (found.new ≡ found.old ++ (if is then place ∷ [] else [])) }
{
    if is {
        found.push(place)?;
    }
    Ok(())
}

/// The places of a mask below a count, which rise.
pub fn places_in(alloc: Global, mask: u32, count: u32) -> Result<Items<u32>, NoMemory>
    requires { count ≤ 32 }
    ensures { IfOk result (λ found. found ≡ places_where (is_set mask) count) }
{
    let mut found = Items::new(alloc);
    for place in 0..count {
        push_if(&mut found, (mask >> place) & 1 == 1, place)?;
    }
    Ok(found)
}
