//! Worked examples: each function promises what the definitions give of them.

ghost use Rattle.b_step.specs.Worked.Failures.{NullFails, BoundsFail, TypesFail, RoomFails, InterfacesFail};
ghost use Rattle.b_step.specs.Worked.Services.{AlarmsTakeTwoNumbers, OthersTakeNone};

/// Which instructions fail, and how.
pub fn instructions_fail()
    ensures null { NullFails }
    ensures bounds { BoundsFail }
    ensures types { TypesFail }
    ensures room { RoomFails }
    ensures interfaces { InterfacesFail }
{}

/// What calls of services take from the values.
pub fn services_take_numbers()
    ensures alarms { AlarmsTakeTwoNumbers }
    ensures others { OthersTakeNone }
{}
