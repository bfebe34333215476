//! What printing and reading have to do with each other.

ghost use Rattle.oil_in.specs.Says.{ComesBack, ReadsWhatIsSaid};

/// What is printed of well-configured tables whose names have the form of a name is read as these tables.
pub fn printed_tables_come_back()
    ensures { ComesBack }
{}

/// A text is read as tables exactly where it is what is printed of them, they are well configured, and their
/// names have the form of a name.
pub fn what_is_said_is_read()
    ensures { ReadsWhatIsSaid }
{}
