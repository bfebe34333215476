//! Worked examples of codes: each function promises what the definitions give of them.

ghost use Rattle.jcode.specs.Worked.Faults.{OpcodesAreUnknown, InstructionsAreOutside, OperandsPassTheEnd, OperandsNameNothing, JumpsLeadNowhere};
ghost use Rattle.jcode.specs.Worked.Spellings.{IntsAreSpelled, LocalsAreSpelled, EntriesAreSpelled, JumpsAreSpelled};
ghost use Rattle.jcode.specs.Worked.Switches.{TablesArePadded, PairsArePadded, SwitchesAreWrong};

/// An operation has several spellings.
pub fn spellings()
    ensures ints { IntsAreSpelled }
    ensures locals { LocalsAreSpelled }
    ensures entries { EntriesAreSpelled }
    ensures jumps { JumpsAreSpelled }
{}

/// The padding of switches, and what is wrong with them.
pub fn switch_tables()
    ensures tables { TablesArePadded }
    ensures pairs { PairsArePadded }
    ensures wrong { SwitchesAreWrong }
{}

/// First faults and their places.
pub fn first_faults()
    ensures unknown { OpcodesAreUnknown }
    ensures outside { InstructionsAreOutside }
    ensures short { OperandsPassTheEnd }
    ensures nothing { OperandsNameNothing }
    ensures jumps { JumpsLeadNowhere }
{}
