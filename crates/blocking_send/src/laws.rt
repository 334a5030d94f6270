ghost use Rattle.blocking_send.specs.Laws.{StepsLeave, WaitsEnd, FollowsAndFails};

/// A step that ends by an accepted send or by 27 leaves what `try_send` does, and every other leaves all words as they were.
pub fn steps_leave()
    ensures { StepsLeave }
{}

/// A pending send ends at the latest with the step after as many as its budget, whatever its policy answers.
pub fn waits_end()
    ensures { WaitsEnd }
{}

/// Where there is no room, the policy follows the strategy and that is to fail, a pending send gives 30.
pub fn follows_and_fails()
    ensures { FollowsAndFails }
{}
