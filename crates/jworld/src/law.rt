ghost use Rattle.jworld.specs.Above.{AboveIsMeant};

/// What stands above a class is what a way up along superclasses and superinterfaces leads to.
pub fn above_is_the_closure()
    ensures { AboveIsMeant }
{}
