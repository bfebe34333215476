//! Worked examples: each function promises what the definitions give of them.

ghost use Rattle.type_states.specs.Worked.Frames.{LongsTakeTwo, SlotsMayBeForgotten};
ghost use Rattle.type_states.specs.Worked.ArrayTypes.{ItemsFit, ArraysAreCloneable, InterfacesAreObject};
ghost use Rattle.type_states.specs.Worked.Stores.{HalvesAreLost};
ghost use Rattle.type_states.specs.Worked.NewObjects.{OneOfEachNew};

/// Frames slot by slot, and which may stand where another is declared.
pub fn frames_and_states()
    ensures wide { LongsTakeTwo }
    ensures forgotten { SlotsMayBeForgotten }
{}

/// Which arrays and interfaces may stand where other types are wanted.
pub fn types_of_arrays()
    ensures items { ItemsFit }
    ensures cloneable { ArraysAreCloneable }
    ensures interfaces { InterfacesAreObject }
{}

/// Stores of longs and into them.
pub fn halves_of_longs()
    ensures { HalvesAreLost }
{}

/// What a new makes of a state.
pub fn objects_made()
    ensures { OneOfEachNew }
{}
