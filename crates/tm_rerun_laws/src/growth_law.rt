//! Laws of clean runs: their policies grow, stay plain, and keep the domains that processes are in.
ghost use Rattle.std.specs.Prelude.{ℕ, ◌≤◌, length, IsTrue};
ghost use Rattle.tm_rules.specs.Types.{Run};
ghost use Rattle.tm_rules.specs.Prelude.{is_clean, is_plain};
ghost use Rattle.tm_legal.specs.Prelude.{CanPlay, CleanRunGrows, DomainsStay, Legal, Scene, state_at};

/// A clean run's policy grows from version to version.
pub fn clean_runs_grow()
    ensures { CleanRunGrows }
{}

/// A clean run from a plain opening has a plain policy at every version.
pub fn policies_stay_plain()
    ensures { (scene : Scene) (run : Run) → CanPlay scene → IsTrue (is_plain scene.policy)
        → Legal scene run → IsTrue (is_clean run) →
        (k : ℕ) → k ≤ length run.steps → IsTrue (is_plain (state_at scene run.steps k).policy) }
{}

/// Whatever domain a process of a clean run is in is live in the final policy, under its number.
pub fn domains_stay()
    ensures { DomainsStay }
{}
