//! Worked examples of the definitions: each contract is what they show of one small application, and its proof is a
//! computation.
ghost use Rattle.system.specs.Worked.{FirstActs, AlarmIsLost, TickIsIdle, AlarmsOfSet};

/// One task that starts with the kernel, and an alarm that activates it at each tick.
#[tactic(auto, unfolding(crate::specs::Lost::lost_alarms))]
pub fn system_of_one_task()
    ensures acts { FirstActs }
    ensures lost { AlarmIsLost }
    ensures idle { TickIsIdle }
    ensures set { AlarmsOfSet }
{}
