//! The law of reading and spelling descriptors.

ghost use Rattle.jnames.specs.SpellingLaw.{ReadsWhatIsSpelled, FieldsSpellTypes, SlotsAreSpelled, SpellingsAreUnique};

/// A text is read exactly as what it spells (JVMS SE 8, 4.3.2 and 4.3.3), and no descriptor has two
/// spellings.
pub fn descriptors_read_what_is_spelled()
    ensures read { ReadsWhatIsSpelled }
    ensures fields { FieldsSpellTypes }
    ensures slots { SlotsAreSpelled }
    ensures unique { SpellingsAreUnique }
{}
