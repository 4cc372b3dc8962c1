//! Laws of the definitions, each on a function whose only clause it is.
ghost use Rattle.std.specs.Prelude.{◌≡◌, ◌++◌, true, List};
ghost use Rattle.tm_rules.specs.Types.{Start, Step};
ghost use Rattle.tm_rules.specs.Prelude.{Grammar};
ghost use Rattle.tm_legal.specs.Prelude.{fits};
ghost use Rattle.tm_made.specs.Domains.{DomainsAreKept};
ghost use Rattle.tm_made.specs.Lasting.{OnceLiveIsProfiled};
ghost use Rattle.tm_made.specs.Refusals.{RefusedLinesChangeNothing, RefusedStepsChangeNothing};

/// A step that fits goes on fitting, whatever steps are made before it: from every opening, opened
/// or not.
pub fn steps_still_fit()
    ensures { (g : Grammar) (start : Start) (xs ys : List Step) (step : Step) →
        fits g start xs step ≡ true → fits g start (xs ++ ys) step ≡ true }
{}

/// Whatever step is made, each domain keeps its name; one that isn't live stays so, and but for a
/// Learn or a Fail in it as it is.
pub fn domains_are_kept()
    ensures { DomainsAreKept }
{}

/// Whatever was live once since an opened policy has its profile from then on, under its number and
/// its name, whatever steps are made and whether or not it is deleted.
pub fn once_live_is_profiled()
    ensures { OnceLiveIsProfiled }
{}

/// A line that isn't done leaves the policy and the cursor, but that a `select` which finds nothing
/// empties the cursor.
pub fn refused_lines_change_nothing()
    ensures { RefusedLinesChangeNothing }
{}

/// A step that is refused leaves policy, queries, ended trees and cursors, but that a `select`
/// which finds nothing empties its editor's cursor.
pub fn refused_steps_change_nothing()
    ensures { RefusedStepsChangeNothing }
{}
