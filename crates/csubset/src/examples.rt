ghost use Rattle.csubset.specs.Text.Examples.{ExamplesHold};

/// The worked examples of the C text hold.
pub fn text_examples()
    ensures { ExamplesHold }
{}
