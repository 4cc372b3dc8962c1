//! The law of replays, on a function whose only clause it is.
ghost use Rattle.tm_seat.specs.Replayed.{ReplayedRunsAreLegal};

/// A law, nothing to run: what was replayed is a legal run, in whatever order its steps came.
pub fn replayed_runs_are_legal()
    ensures { ReplayedRunsAreLegal }
{}
