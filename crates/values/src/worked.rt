//! Worked examples: each function promises what the definitions give of them.

ghost use Rattle.values.specs.Worked.Kept.{BitsAreKept, SignsAreKept, OthersAreKeptWhole};
ghost use Rattle.values.specs.Worked.Zero.{ZerosAreByShape};

/// What fields of each shape keep of a stored value.
pub fn values_kept()
    ensures bits { BitsAreKept }
    ensures signs { SignsAreKept }
    ensures others { OthersAreKeptWhole }
{}

/// What fields of each shape hold at first.
pub fn values_at_first()
    ensures { ZerosAreByShape }
{}
