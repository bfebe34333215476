ghost use Rattle.classfile.specs.SpellingLaw.{AcceptedIsSpelled, SpelledIsAccepted, SpelledOnce};

/// What is accepted as a class file is spelled so, what is spelled so is accepted, and bytes spell one class
/// file at most.
pub fn class_files_are_spelled()
    ensures accepted { AcceptedIsSpelled }
    ensures spelled { SpelledIsAccepted }
    ensures once { SpelledOnce }
{}
