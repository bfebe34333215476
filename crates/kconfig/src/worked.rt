//! Worked examples of the definitions: the contract is what they show of a small configuration, and its proof is a
//! computation.

ghost use Rattle.kconfig.specs.Worked.{TaskRowsOfTwo, AlarmRowsOfTwo, OtherRowsOfTwo, CeilingsOfTwo};

/// The tables of two tasks with a shared resource, an event that one waits for, and an alarm of each form.
pub fn tables_of_two_tasks()
    ensures tasks { TaskRowsOfTwo }
    ensures alarms { AlarmRowsOfTwo }
    ensures others { OtherRowsOfTwo }
    ensures ceilings { CeilingsOfTwo }
{}
