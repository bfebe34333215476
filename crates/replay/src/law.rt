ghost use Rattle.replay.specs.Rest.{NobodyActsAgain};

/// Where a step finds nobody who acts, all steps that follow it at once show nothing and change nothing.
pub fn nobody_acts_again()
    ensures { NobodyActsAgain }
{}
