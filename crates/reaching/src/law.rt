ghost use Rattle.reaching.specs.Closed.{LeastClosed};

/// What is reached is the least set that has the roots, and with a pair what it mentions; each pair stands in it once.
pub fn reached_is_the_least_closed_set()
    ensures { LeastClosed }
{}
