ghost use Rattle.call_graph.specs.ReachedFrom.{ReachedIsMeant};

/// A number is reached from others where it is one of them, or a way leads to it from one of them.
pub fn reached_numbers_are_meant()
    ensures { ReachedIsMeant }
{}
