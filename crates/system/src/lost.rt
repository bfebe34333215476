//! The alarms whose action was lost at a tick.
ghost use Rattle.std.specs.Prelude.{◌≡◌, ◌<◌, IfOk};
ghost use Rattle.system.specs.Lost.{is_in, lost_alarms};

use std::alloc::{AllocError, Global};

fn is_in(set: u64, alarm: u32) -> bool
    requires { alarm < 64 }
    ensures { result ≡ is_in set alarm }
{
    set & (1 << alarm) != 0
}

/// The alarms of a set in their order, where bit k stands for alarm k.
pub fn lost_alarms(alloc: Global, set: u64) -> Result<Vec<u32>, AllocError>
    ensures { IfOk result (λ alarms. alarms.items ≡ lost_alarms set) }
{
    let mut alarms = Vec::new(alloc);
    for alarm in 0..64 {
        if is_in(set, alarm) {
            alarms.push(alarm)?;
        }
    }
    Ok(alarms)
}
