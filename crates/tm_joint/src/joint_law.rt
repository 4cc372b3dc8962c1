//! Laws of the definitions, each on a function whose only clause it is.
ghost use Rattle.tm_joint.specs.Makers.{PassesOwnTheirSteps};
ghost use Rattle.tm_joint.specs.Joint.{JointRunsAreLegal, AttachedFirst};

/// Where the passes have made as many steps as there are, each has made just those of its makers,
/// and each number is one pass's.
pub fn passes_own_their_steps()
    ensures { PassesOwnTheirSteps }
{}

/// A joint run is legal, in whatever order its steps came.
pub fn joint_runs_are_legal()
    ensures { JointRunsAreLegal }
{}

/// Where each look has seen the supervisor's coming, no look is older than it.
pub fn attached_comes_first()
    ensures { AttachedFirst }
{}
