//! Laws of runs that aren't legal.
ghost use Rattle.std.specs.Prelude.{◌≡◌, None};
ghost use Rattle.tm_rules.specs.Types.{Step};
ghost use Rattle.tm_rules.specs.Prelude.{Grammar};
ghost use Rattle.tm_legal.specs.Prelude.{State, apply};
ghost use Rattle.tm_verify_laws.specs.Broken.{BrokenIsNotLegal, BrokenOnce};
ghost use Rattle.tm_verify_laws.specs.Desk.{DeskDecides, DeskFaultFinds, DeskFaultStays};
ghost use Rattle.tm_verify_laws.specs.Looks.{OwnOrderDecides, FollowingDecides};
ghost use Rattle.tm_verify_laws.specs.Placed.{PlacesDecide};
ghost use Rattle.tm_verify_laws.specs.Scans.{PairsDecide, RisingDecides, CasesTakeAll, OwnNumbersAreSteps};

/// Laws, nothing to run: a run of which a clause breaks first isn't legal, and there is one such
/// clause and place.
pub fn broken_runs()
    ensures illegal { BrokenIsNotLegal }
    ensures once { BrokenOnce }
{}

/// Laws, nothing to run: where each reply is right, the supervisor's clause holds exactly where no
/// step is at fault and none is missing; the test of it computes the least step at fault, and no
/// step after that one mends it; and where each own number is a step's, steps have their places
/// exactly where each is placed and no line is missing.
pub fn steps_decide()
    ensures supervisor { DeskDecides }
    ensures computed { DeskFaultFinds }
    ensures stays { DeskFaultStays }
    ensures places { PlacesDecide }
{}

/// Laws, nothing to run: the scans of takes and of versions find what the clauses say; where the
/// first clauses hold, each `do` line has the take of its number, and each own number is a step's.
pub fn takes_decide()
    ensures pairs { PairsDecide }
    ensures rising { RisingDecides }
    ensures cases { CasesTakeAll }
    ensures own { OwnNumbersAreSteps }
{}

/// Laws, nothing to run: the tests of the order of own steps, and of looks that follow each other,
/// are their relations.
pub fn looks_decide()
    ensures own { OwnOrderDecides }
    ensures follow { FollowingDecides }
{}

/// A law, nothing to run: a step that doesn't fit, that is, one without a reply, changes nothing.
pub fn unfit_steps_change_nothing()
    ensures { (g : Grammar) (state : State) (step : Step) → (apply g state step).reply ≡ None →
        (apply g state step).state ≡ state }
{}
