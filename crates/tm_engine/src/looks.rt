//! What is asked of one version.
ghost use Rattle.std.specs.Prelude.{◌≡◌, ◌≤◌, List, None, Some, IfOk, IfSome, MatchOption};
ghost use Rattle.tm_engine.specs.Waits.{IsAnswered, IsAsked};
ghost use Rattle.tm_publish.specs.Words.{home, HasSeen, made_of, refused_of};

use std::alloc::Global;
use tm_list::NoMemory;
use tm_office::Hall;
use tm_publish::front::Named;
use tm_publish::pass::Pass;
use tm_types::step::Answered;

/// What became of the query of a serial in a version that is looked at, and that version. None
/// where the entry was refused.
pub(crate) fn answer_now<L: Named, H: Hall>(
    pass: &mut Pass<L, H>,
    serial: u64,
) -> Option<(Option<Answered>, u64)>
    ensures answer { IfSome result
        (λ a. IsAnswered H.fits H.answer_at pass.old pass.new serial a.0 a.1) }
    ensures knows { (xs : List H.Step) → HasSeen pass.old xs → HasSeen pass.new xs }
    ensures same { (made_of pass.new ≡ made_of pass.old) × (home pass.new ≡ home pass.old) }
    ensures counts { refused_of pass.old ≤ refused_of pass.new }
{
    pass.look(
        |hall: &H, version: u64| -> (Option<Answered>, u64)
            ensures { (result.0
                ≡ H.answer_at (H.opening hall.entry.now) (H.steps hall.entry.now) serial)
                × (result.1 ≡ version) }
        { (hall.answer_of(serial), version) },
    )
}

/// What one version says of queries: the first without an answer, or that memory was wanting for
/// it; and whether none will come.
#[derive(Drop)]
pub(crate) struct Asked<Q> {
    pub(crate) first: Option<Result<Q, NoMemory>>,
    pub(crate) over: bool,
    pub(crate) version: u64,
}

/// What a hall says of queries.
fn ask_hall<H: Hall>(alloc: Global, hall: &H, version: u64) -> Asked<H::Query>
    ensures first { MatchOption result.first
        (H.first_at (H.opening hall.now) (H.steps hall.now) ≡ None)
        (λ r. IfOk r (λ q. H.first_at (H.opening hall.now) (H.steps hall.now) ≡ Some q)) }
    ensures over { result.over ≡ H.over_at (H.opening hall.now) (H.steps hall.now) }
    ensures version { result.version ≡ version }
{
    let first = match hall.first_query() {
        Some(query) => Some(H::copy_query(alloc, query)),
        None => None,
    };
    Asked {
        first,
        over: hall.over(),
        version,
    }
}

/// What is said of queries in a version that is looked at. None where the entry was refused.
pub(crate) fn asked_now<L: Named, H: Hall>(
    pass: &mut Pass<L, H>,
    alloc: Global,
) -> Option<Asked<H::Query>>
    ensures asked { IfSome result
        (λ a. IsAsked H.fits H.first_at H.over_at pass.old pass.new a.first a.over) }
    ensures knows { (xs : List H.Step) → HasSeen pass.old xs → HasSeen pass.new xs }
    ensures same { (made_of pass.new ≡ made_of pass.old) × (home pass.new ≡ home pass.old) }
    ensures counts { refused_of pass.old ≤ refused_of pass.new }
{
    pass.look(
        |hall: &H, version: u64| -> Asked<H::Query>
            ensures first { MatchOption result.first
                (H.first_at (H.opening hall.entry.now) (H.steps hall.entry.now) ≡ None)
                (λ r. IfOk r (λ q.
                H.first_at (H.opening hall.entry.now) (H.steps hall.entry.now) ≡ Some q)) }
            ensures over { result.over
                ≡ H.over_at (H.opening hall.entry.now) (H.steps hall.entry.now) }
        { ask_hall(alloc, hall, version) },
    )
}
