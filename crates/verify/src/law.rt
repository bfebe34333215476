ghost use Rattle.verify.specs.Laws.{FoundIsWellTyped, WellTypedIsFound, StatesAreUnique, FramesAreWithin, JumpsLand};

/// What is found is what is well-typed, by a relation that knows no walk, with one list of states at most.
pub fn what_is_found_is_well_typed()
    ensures found { FoundIsWellTyped }
    ensures only { WellTypedIsFound }
    ensures unique { StatesAreUnique }
{}

/// The frames that are found keep max_stack and max_locals (JVMS SE 8, 4.7.3).
pub fn frames_are_within()
    ensures { FramesAreWithin }
{}

/// In a code that is well-typed each branch target is the start of an instruction.
pub fn jumps_land()
    ensures { JumpsLand }
{}
