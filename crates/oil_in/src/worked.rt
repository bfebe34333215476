//! Worked examples of texts: each function promises what the definitions give of them.

ghost use Rattle.oil_in.specs.Worked.{ObjectsAreRead, NumbersAreRead, NamesAreRead, FirstFaults};

/// What is printed is read as what it was.
pub fn objects_are_read()
    ensures { ObjectsAreRead }
{}

/// Numbers and names.
pub fn pieces_are_read()
    ensures numbers { NumbersAreRead }
    ensures names { NamesAreRead }
{}

/// What is wrong with a line.
pub fn first_faults()
    ensures { FirstFaults }
{}
