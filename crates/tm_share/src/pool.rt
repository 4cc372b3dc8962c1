//! The hands of all workers, and what is left once they are together again.
ghost use Rattle.std.specs.Prelude.{◌≡◌, ◌+◌, ◌<◌, ℕ, [], map, length, IfOk};
ghost use Rattle.tm_share.specs.Weights.{weigh};
ghost use Rattle.tm_share.specs.Deques.{lending, way_into};
ghost use Rattle.tm_share.specs.Hands.{place, IsPool, all_put, all_taken};
ghost use Rattle.tm_share.specs.Pools.{deques_of, AllLend, AreEmpty, IsOpened, paired, Fit, closed, AreSettled, all_own_put, all_own_taken};

use crate::deque::{Own, Way};
use crate::hand::JobHand;
use crate::line::Line;
use std::alloc::Global;
use tm_list::{NoMemory, Seq};

// So many empty deques.
fn empty_deques<J: Drop>(alloc: Global, workers: u32) -> Result<Vec<Own<J>>, NoMemory>
    ensures count { IfOk result (λ owns. length owns.items ≡ workers) }
    ensures empty { IfOk result (λ owns. AreEmpty owns.items) }
{
    let mut owns = Vec::new(alloc);
    for _worker in 0..workers {
        owns.push(Own::new(alloc)?)?;
    }
    Ok(owns)
}

// A way into each deque, beside the deques.
fn ways_into<J: Drop>(
    alloc: Global,
    owns: Vec<Own<J>>,
) -> Result<(Vec<Own<J>>, Seq<Way<J>>), NoMemory>
    ensures owns { IfOk result (λ r. r.0.items ≡ map lending owns.items) }
    ensures ways { IfOk result (λ r. r.1 ≡ map way_into owns.items) }
{
    let mut lent = Vec::with_capacity(alloc, owns.len())?;
    let mut ways = Vec::with_capacity(alloc, owns.len())?;
    for own in owns {
        let mut own = own;
        ways.push(own.way()?)?;
        lent.push(own)?;
    }
    Ok((lent, Seq::from_vec(ways)))
}

// The ways of each worker, beside the deques.
fn all_ways<J: Drop>(
    alloc: Global,
    deques: Vec<Own<J>>,
) -> Result<(Vec<Own<J>>, Vec<Seq<Way<J>>>), NoMemory>
    requires { AreEmpty deques.items }
    ensures { IfOk result (λ r.
        IsOpened (deques_of deques.items) (length deques.items) r.0.items r.1.items) }
{
    let workers = deques.len();
    let mut owns = deques;
    let mut rounds = Vec::with_capacity(alloc, workers)?;
    for _worker in 0..workers {
        let (lent, ways) = ways_into(alloc, owns)?;
        owns = lent;
        rounds.push(ways)?;
    }
    Ok((owns, rounds))
}

// A hand of each deque with ways of its own.
fn hands_of<J: Drop>(
    alloc: Global,
    deques: Vec<Own<J>>,
    all_ways: Vec<Seq<Way<J>>>,
) -> Result<Vec<JobHand<J>>, NoMemory>
    ensures { IfOk result (λ hands. hands.items ≡ paired deques.items all_ways.items) }
{
    let workers = deques.len();
    let mut owns = Line::new(deques);
    let mut rounds = Line::new(all_ways);
    let mut hands = Vec::with_capacity(alloc, workers)?;
    for _worker in 0..workers {
        let Some(own) = owns.next() else {
            return Ok(hands);
        };
        let Some(ways) = rounds.next() else {
            return Ok(hands);
        };
        hands.push(JobHand::new(own, ways))?;
    }
    Ok(hands)
}

/// The hands of so many workers, who have put nothing yet.
///
/// Errors: want of memory, or more than 1023 workers.
pub fn new_pool<J: Drop>(alloc: Global, workers: u32) -> Result<Vec<JobHand<J>>, NoMemory>
    ensures pool { IfOk result (λ hands. IsPool (map place hands.items)) }
    ensures count { IfOk result (λ hands. length hands.items ≡ workers) }
    ensures put { IfOk result (λ hands. all_put hands.items ≡ []) }
    ensures taken { IfOk result (λ hands. all_taken hands.items ≡ []) }
{
    let owns = empty_deques(alloc, workers)?;
    let (owns, rounds) = all_ways(alloc, owns)?;
    hands_of(alloc, owns, rounds)
}

// The deques and the ways of all hands.
fn apart<J: Drop>(
    alloc: Global,
    hands: Vec<JobHand<J>>,
) -> Result<(Vec<Own<J>>, Vec<Seq<Way<J>>>), NoMemory>
    ensures owns { IfOk result (λ r. r.0.items ≡ map (λ hand. hand.own) hands.items) }
    ensures rounds { IfOk result (λ r. r.1.items ≡ map (λ hand. hand.ways) hands.items) }
{
    let mut owns = Vec::with_capacity(alloc, hands.len())?;
    let mut rounds = Vec::with_capacity(alloc, hands.len())?;
    for hand in hands {
        let (own, ways) = hand.apart();
        owns.push(own)?;
        rounds.push(ways)?;
    }
    Ok((owns, rounds))
}

// The deques, after a worker's ways into them have come back.
fn close_ways<J: Drop>(
    alloc: Global,
    deques: Vec<Own<J>>,
    back: Seq<Way<J>>,
) -> Result<Vec<Own<J>>, NoMemory>
    requires { Fit deques.items back }
    ensures { IfOk result (λ r. r.items ≡ closed deques.items back) }
{
    let workers = deques.len();
    let mut owns = Line::new(deques);
    let mut ways = Line::new(back.into_vec());
    let mut done = Vec::with_capacity(alloc, workers)?;
    for _worker in 0..workers {
        let Some(own) = owns.next() else {
            return Ok(done);
        };
        let Some(way) = ways.next() else {
            return Ok(done);
        };
        let mut own = own;
        own.close(way);
        done.push(own)?;
    }
    Ok(done)
}

// The deques, after all ways into them have come back.
fn close_all<J: Drop>(
    alloc: Global,
    deques: Vec<Own<J>>,
    all_ways: Vec<Seq<Way<J>>>,
) -> Result<Vec<Own<J>>, NoMemory>
    requires { AreSettled deques.items all_ways.items deques.items all_ways.items }
    ensures { IfOk result (λ r. AreSettled deques.items all_ways.items r.items []) }
{
    let workers = all_ways.len();
    let mut owns = deques;
    let mut rounds = Line::new(all_ways);
    for _worker in 0..workers {
        let Some(ways) = rounds.next() else {
            return Ok(owns);
        };
        owns = close_ways(alloc, owns, ways)?;
    }
    Ok(owns)
}

// What is left in these deques.
fn drain_all<J: Drop>(alloc: Global, owns: Vec<Own<J>>) -> Result<Vec<J>, NoMemory>
    ensures { IfOk result (λ left. AllLend 0 owns.items →
        (h : J → ℕ) → weigh h (all_own_put owns.items) ≡ weigh h (all_own_taken owns.items) + weigh h left.items) }
{
    let mut left = Vec::new(alloc);
    for own in owns {
        own.drain(&mut left)?;
    }
    Ok(left)
}

/// Takes the hands of all workers back, and gives the jobs that are left: what was put is what was
/// taken and what is left.
///
/// Errors: want of memory.
pub fn settle<J: Drop>(alloc: Global, hands: Vec<JobHand<J>>) -> Result<Vec<J>, NoMemory>
    requires { IsPool (map place hands.items) }
    ensures { IfOk result (λ left. (h : J → ℕ) →
        weigh h (all_put hands.items) ≡ weigh h (all_taken hands.items) + weigh h left.items) }
{
    let (owns, rounds) = apart(alloc, hands)?;
    let owns = close_all(alloc, owns, rounds)?;
    drain_all(alloc, owns)
}
