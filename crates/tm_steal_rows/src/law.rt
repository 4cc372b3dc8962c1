//! Laws of what is stolen, each on a function whose only clauses they are.
ghost use Rattle.std.specs.Prelude.{◌≡◌, ◌≤◌, ℕ, [], List, length};
ghost use Rattle.tm_rules.specs.Types.{Made, Start};
ghost use Rattle.tm_rules.specs.Prelude.{Trace};
ghost use Rattle.tm_seat.specs.Rows.{Shift};
ghost use Rattle.tm_seat.specs.Seats.{Begins};
ghost use Rattle.tm_seat.specs.Parts.{deed};
ghost use Rattle.tm_steal_rows.specs.Records.{RecordsCanBeAsked};
ghost use Rattle.std.specs.List.{AllByRecursion};
ghost use Rattle.tm_steal_rows.specs.Playing.{IsStealing, StealsOn, ThiefDid, events_of, IsOfProcess};
ghost use Rattle.tm_steal_rows.specs.Stolen.{StolenRunsAreLegal};
ghost use Rattle.tm_steal_rows.specs.declared.played.Played.{Played};

/// A law, nothing to run: what workers that take processes from each other have played together is
/// a legal run.
pub fn stolen_runs_are_legal<H>()
    ensures { StolenRunsAreLegal H }
{}

/// Laws of a worker that takes processes from others, nothing to run: how it begins, that others'
/// steps may follow, and what it has done at its end.
pub fn workers_steal_on()
    ensures starts { (start : Start) (trace : Trace) (list : List Made) (own : List ℕ) →
        IsStealing start trace (record { known = list; before = own }) list own [] }
    ensures follows { (start : Start) (trace : Trace) (old new : List Made) (own : List ℕ) →
        Begins old new → StealsOn start trace old own new own [] }
    ensures ends { (start : Start) (trace : Trace) (shift : Shift) (floor : ℕ) (list : List Made)
        (own : List ℕ) (all : List Played) → shift.before ≡ [] → floor ≤ length shift.known →
        IsStealing start trace shift list own (events_of all) → AllByRecursion IsOfProcess all
        → ThiefDid start trace floor (deed list own all) }
{}

/// A law, nothing to run: where each record of a trace can be asked, so can the request at each
/// place.
pub fn records_can_be_asked()
    ensures { RecordsCanBeAsked }
{}
