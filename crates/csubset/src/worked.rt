//! Worked examples of the definitions: each function's contract is what they give of a small program, and its proof is
//! a computation.
ghost use Rattle.csubset.specs.Worked.Advance.{AdvanceHolds};
ghost use Rattle.csubset.specs.Worked.Calls.{CallsHold};
ghost use Rattle.csubset.specs.Worked.Form.{FallsFaults, FormFaults, SectionFaults};
ghost use Rattle.csubset.specs.Worked.IntOperators.{IntOperators};
ghost use Rattle.csubset.specs.Worked.Jumps.{JumpsHold};
ghost use Rattle.csubset.specs.Worked.LongArithmetic.{LongArithmetic};
ghost use Rattle.csubset.specs.Worked.LongBits.{LongBits};
ghost use Rattle.csubset.specs.Worked.Samples.{Conversions};
ghost use Rattle.csubset.specs.Worked.Sections.{FailShutsDown, KeptTickIsServed};
ghost use Rattle.csubset.specs.Worked.Stored.{StoredHolds};
ghost use Rattle.csubset.specs.Worked.Stuck.{LoadsAndStores, MeaninglessIsStuck};

/// The C of the stored example over four Runs: its events and its image, over which the bytecode shows the same.
pub fn stored_example()
    ensures { StoredHolds }
{}

/// A tick in an interrupt section is kept, and served behind the section, also where no move follows.
pub fn kept_tick_is_served()
    ensures { KeptTickIsServed }
{}

/// A failure in an interrupt section shuts the system down.
pub fn fail_shuts_down()
    ensures { FailShutsDown }
{}

/// A division by zero, a cell outside its region or not aligned, and a place without a statement are stuck.
pub fn meaningless_is_stuck()
    ensures { MeaninglessIsStuck }
{}

/// Loads and stores of a region and of the device, in the map's order of bytes.
pub fn loads_and_stores()
    ensures { LoadsAndStores }
{}

/// The conversions of a word.
pub fn conversions()
    ensures { Conversions }
{}

/// Arithmetic and shifts on whole words, at the smallest and the greatest numbers.
pub fn long_arithmetic()
    ensures { LongArithmetic }
{}

/// Bits and comparisons of whole words.
pub fn long_bits()
    ensures { LongBits }
{}

/// The operators on the low 32 bits.
pub fn int_operators()
    ensures { IntOperators }
{}

/// Initialisers, calls with parameters, and services by names and numbers.
pub fn calls_and_services()
    ensures { CallsHold }
{}

/// The faults of a program's form: labels, words, callees, regions, a cycle of calls, sections and falling through.
pub fn form_faults()
    ensures each { FormFaults }
    ensures sections { SectionFaults }
    ensures falls { FallsFaults }
{}

/// A section: the bytes that its steps touch, the steps that weigh nothing, and the bound on them.
pub fn section_advances()
    ensures { AdvanceHolds }
{}

/// A switch, a goto, and an if.
pub fn jumps_hold()
    ensures { JumpsHold }
{}
