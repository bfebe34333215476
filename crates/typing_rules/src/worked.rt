//! Worked examples of the rules: each function promises what the definitions give of them.

ghost use Rattle.typing_rules.specs.Worked.Wide.{LongsAreNotSplit, HalvesAreLost};
ghost use Rattle.typing_rules.specs.Worked.Uninitialised.{UninitialisedIsNotPassed, ConstructorsInitialise, ThisIsInitialised};

/// Longs on the operand stack and in slots.
pub fn values_of_two_places()
    ensures operands { LongsAreNotSplit }
    ensures slots { HalvesAreLost }
{}

/// Objects from their new to their constructor.
pub fn uninitialised_objects()
    ensures passed { UninitialisedIsNotPassed }
    ensures constructed { ConstructorsInitialise }
    ensures returned { ThisIsInitialised }
{}
