//! Worked examples of the definitions: the contract is what they show of a small configuration and a small world, and
//! its proof is a computation.
ghost use Rattle.run_names.specs.Worked.{SmallNames, SmallMethods};

/// A task and two events, and a class with one method.
pub fn names_of_small_world()
    ensures objects { SmallNames }
    ensures methods { SmallMethods }
{}
