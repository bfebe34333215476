//! Worked examples: the function promises what the definitions give of them.

ghost use Rattle.call_graph.specs.Worked.{WaysAreFollowed, CyclesAreClosed};

/// What is reached from numbers, and calls on cycles and beside them.
pub fn small_graph()
    ensures ways { WaysAreFollowed }
    ensures cycles { CyclesAreClosed }
{}
