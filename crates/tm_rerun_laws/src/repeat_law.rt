//! A clean learned run is repeated by its switched final policy: two laws, each on a function whose
//! only clause it is.
ghost use Rattle.tm_legal.specs.Prelude.{LearnedRunRepeats, LooksRepeat};
ghost use Rattle.tm_rerun_laws.specs.Repeating.{PlainFirst, SwitchedKeeps};

/// Every look of a rerun is in mode disabled, enforcing or none, is granted as disabled or by an
/// entry, and stays or enters a domain.
pub fn looks_repeat()
    ensures { LooksRepeat }
{}

/// Every legal rerun of a clean run from a plain opening makes no step and grants every take, in
/// domains of the same names.
pub fn learned_runs_repeat()
    ensures { LearnedRunRepeats }
{}

/// A switched policy keeps its domains and all of its namespaces but the modes of their profiles,
/// which are switched each.
pub fn switched_keeps()
    ensures { SwitchedKeeps }
{}

/// In a plain policy what an execute finds is told by its aggregated name, its real path and its
/// first argument.
pub fn plain_first()
    ensures { PlainFirst }
{}
