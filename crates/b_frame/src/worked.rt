//! Worked examples of the definitions: each function promises what they give.

ghost use Rattle.b_frame.specs.Worked.Sums.{IntsWrap, LongsWrap, KindsAreKept};
ghost use Rattle.b_frame.specs.Worked.Quotients.{RoundsTowardZero, SmallestByMinusOne, ZeroFails};
ghost use Rattle.b_frame.specs.Worked.Bits.{CountsAreCut, SignsAreShifted, NumbersAreNarrowed, LongsAreCompared, BitByBit};
ghost use Rattle.b_frame.specs.Worked.Forms.{Pops, Singles, Pairs, PairsUnderPairs};
ghost use Rattle.b_frame.specs.Worked.Branches.{IntsAreTested, ReferencesAreTested, KeysAreFound};
ghost use Rattle.b_frame.specs.Worked.Slots.{SlotsAreLoaded, SlotsAreStored, ArgumentsTakeSlots};

/// Sums, differences, products and negations at the ends of int and long.
pub fn sums()
    ensures ints { IntsWrap }
    ensures longs { LongsWrap }
    ensures kinds { KindsAreKept }
{}

/// Quotients and remainders.
pub fn quotients()
    ensures signs { RoundsTowardZero }
    ensures smallest { SmallestByMinusOne }
    ensures zero { ZeroFails }
{}

/// Shifts, conversions and lcmp.
pub fn bits()
    ensures counts { CountsAreCut }
    ensures signs { SignsAreShifted }
    ensures narrowed { NumbersAreNarrowed }
    ensures compared { LongsAreCompared }
    ensures each { BitByBit }
{}

/// pop, dup and swap.
pub fn stack_forms()
    ensures pops { Pops }
    ensures singles { Singles }
    ensures pairs { Pairs }
    ensures both { PairsUnderPairs }
{}

/// Branches and a switch.
pub fn branches()
    ensures ints { IntsAreTested }
    ensures references { ReferencesAreTested }
    ensures keys { KeysAreFound }
{}

/// Locals and arguments.
pub fn slots()
    ensures loaded { SlotsAreLoaded }
    ensures stored { SlotsAreStored }
    ensures arguments { ArgumentsTakeSlots }
{}
