//! What the calls of this crate are of a tree's event, as laws over all players and trees.
ghost use Rattle.tm_take.specs.Events.{LooksWith, BeginsWith, EndsWhenPassed, MakesOwn, Hears, WaitsOn, LooksOnceMore, GoesOnAlike};

/// A tree's event is made of this crate's calls: with no request in progress `pass`, and then a
/// look with `begin` and `go_on`, or the tree's end; else, by `next_event`, its own step with
/// `next_owed`, `after_step` and `go_on`, the taking of its answer with `after_answer` and `go_on`,
/// or another look with `again`, `begin` and `go_on`. It doesn't matter whether the request in
/// progress was taken out before it goes on.
pub fn events()
    ensures look { LooksWith }
    ensures first { BeginsWith }
    ensures past { EndsWhenPassed }
    ensures step { MakesOwn }
    ensures answer { Hears }
    ensures waits { WaitsOn }
    ensures again { LooksOnceMore }
    ensures alike { GoesOnAlike }
{}
