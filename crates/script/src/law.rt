ghost use Rattle.script.specs.Moves.{KeepsItsMoves};
ghost use Rattle.script.specs.ReadsInForm.{ReadsInForm};
ghost use Rattle.script.specs.Worked.{ReadsItsLines, CountsMoves, EndsWithinTheDevices, HasForm, JoinsRuns};

/// The lines that `write_script` writes stand for the moves of the lines that it was given.
pub fn written_scripts_keep_their_moves()
    ensures { KeepsItsMoves }
{}

/// The lines that a script is read as are in form, so a script that was read can be written and read again.
pub fn scripts_are_read_in_form()
    ensures { ReadsInForm }
{}

/// Worked examples: what the definitions give of small scripts.
pub fn small_scripts()
    ensures lines { ReadsItsLines }
    ensures moves { CountsMoves }
    ensures devices { EndsWithinTheDevices }
    ensures form { HasForm }
    ensures joins { JoinsRuns }
{}
