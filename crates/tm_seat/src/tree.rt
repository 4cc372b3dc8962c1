//! A tree: its records, one after another, and its End.
ghost use Rattle.std.specs.Prelude.{◌≡◌, ◌<◌, ◌≤◌, ◌++◌, ◌∷◌, [], true, List, length, map, Some, IfOk, OnOk};
ghost use Rattle.std.specs.List.{list_all, AllByRecursion};
ghost use Rattle.tm_rules.specs.Prelude.{DomainName, item_is_request, live_domain};
ghost use Rattle.tm_rules.specs.Types.{Item, Take};
ghost use Rattle.tm_take.specs.Tomoyo.{tomoyo_grammar};
ghost use Rattle.tm_legal.specs.Prelude.{IsNamed, IsOpened, TreePlayed, own_numbers};
ghost use Rattle.tm_take.specs.Situations.{situations};
ghost use Rattle.tm_made.specs.Made.{history_made};
ghost use Rattle.tm_joint.specs.Played.{row_own};
ghost use Rattle.tm_seat.specs.Seats.{scene_of, FitsFrom, Begins, MadeBy};
ghost use Rattle.tm_seat.specs.Playing.{Walk, OfTrees, IsPlayingTree, TreePlaysOn, LooksSince, makers_of};
ghost use Rattle.tm_seat.specs.Rows.{IsReady, EndsTree, RowIsPlayed, RowSince, row_of, tree_makers};

use crate::seat::Seat;
use crate::take::play_take;
use std::alloc::Global;
use tm_list::{NoMemory, Seq};
use tm_take::{Lines, ProcessSituations};
use tm_types::request::{Item, Request};
use tm_types::step::{Made, Maker, Settled, Step, Take};

/// A tree that is to be played: its number, the number of the domain that its processes start in,
/// and its records.
#[derive(Drop)]
pub struct TreeToPlay {
    pub number: u32,
    pub home: u32,
    pub records: Seq<Item>,
}

/// A tree that was played: its number, its takes in the order of its requests, the number of its
/// End where a supervisor stands, and requests that were played, for whoever made them to free
/// them.
#[derive(Drop)]
pub struct PlayedTree {
    pub number: u32,
    pub takes: Seq<Take>,
    pub end: Option<u64>,
    pub played: Vec<Request>,
}

// The take of a tree's next request; its process is in the domain after it.
fn next_take<S: Seat>(
    seat: &mut S,
    alloc: Global,
    known: &mut ProcessSituations,
    pid: u32,
    request: Request,
    played: &mut Vec<Request>,
) -> Result<Take, NoMemory>
    requires opened { IsOpened (S.opening seat.old).policy }
    requires named { IsNamed tomoyo_grammar.is_path (S.opening seat.old).policy }
    requires tree { (walk : Walk) × (left : List Item) × (takes : List Take)
        × IsPlayingTree (S.opening seat.old) walk (S.at seat.old) (S.own seat.old)
        (situations known.old) (Item.Do pid request ∷ left) takes }
    ensures tree { IfOk result (λ take. (left : List Item) (takes : List Take) →
        TreePlaysOn (S.opening seat.old)
        (S.at seat.old) (S.own seat.old) (situations known.old) (Item.Do pid request ∷ left) takes
        (S.at seat.new) (S.own seat.new) (situations known.new) left (takes ++ take ∷ [])) }
    ensures opening { S.opening seat.new ≡ S.opening seat.old }
    ensures grows { Begins (S.at seat.old) (S.at seat.new) }
{
    let now = known.at(pid);
    match now.domain {
        Some(domain) => {
            let take = play_take(seat, alloc, now, domain, request, played)?;
            match known.move_to(pid, take.after) {
                Ok(()) => Ok(take),
                Err(fault) => {
                    drop(take);
                    Err(fault)
                }
            }
        }
        None => unreachable!(),
    }
}

// One record: a process has other ids, a child is where its parent is, or a request is played.
fn play_record<S: Seat>(
    seat: &mut S,
    alloc: Global,
    tree: u32,
    place: u32,
    known: &mut ProcessSituations,
    item: Item,
    takes: &mut Vec<Take>,
    played: &mut Vec<Request>,
) -> Result<(), NoMemory>
    requires opened { IsOpened (S.opening seat.old).policy }
    requires named { IsNamed tomoyo_grammar.is_path (S.opening seat.old).policy }
    requires tree { (walk : Walk) × (left : List Item)
        × IsPlayingTree (S.opening seat.old) walk (S.at seat.old) (S.own seat.old)
        (situations known.old) (item ∷ left) takes.old.items }
    ensures tree { OnOk result ((left : List Item) → TreePlaysOn (S.opening seat.old)
        (S.at seat.old) (S.own seat.old) (situations known.old) (item ∷ left) takes.old.items
        (S.at seat.new) (S.own seat.new) (situations known.new) left takes.new.items) }
    ensures opening { S.opening seat.new ≡ S.opening seat.old }
    ensures grows { Begins (S.at seat.old) (S.at seat.new) }
{
    match item {
        Item::Ids(pid, ids) => known.set_ids(pid, ids),
        Item::Fork(pid, child) => known.fork(pid, child),
        Item::Do(pid, request) => {
            seat.begin(tree, place);
            let take = next_take(seat, alloc, known, pid, request, played)?;
            takes.push(take)?;
            Ok(())
        }
    }
}

// The takes of all records.
fn play_records<S: Seat>(
    seat: &mut S,
    alloc: Global,
    tree: u32,
    home: u32,
    records: Seq<Item>,
    played: &mut Vec<Request>,
) -> Result<Vec<Take>, NoMemory>
    requires opened { IsOpened (S.opening seat.old).policy }
    requires named { IsNamed tomoyo_grammar.is_path (S.opening seat.old).policy }
    requires fitted { FitsFrom (S.opening seat.old) (S.at seat.old) }
    requires asked { list_all (item_is_request tomoyo_grammar.is_path) records ≡ true }
    requires home { (name : DomainName) × (live_domain (S.opening seat.old).policy name ≡ Some home) }
    ensures fitted { IfOk result (λ takes. FitsFrom (S.opening seat.old) (S.at seat.new)) }
    ensures played { IfOk result (λ takes. OfTrees (S.opening seat.old) records home
        (λ trace book t its. TreePlayed (scene_of (S.opening seat.old) trace book)
        (history_made (scene_of (S.opening seat.old) trace book) (S.at seat.new)) t its takes.items)) }
    ensures own { IfOk result (λ takes. S.own seat.new ≡ S.own seat.old ++ own_numbers takes.items) }
    ensures makers { IfOk result (λ takes. MadeBy (makers_of takes.items)
        (S.at seat.old) (S.own seat.old) (S.at seat.new) (S.own seat.new)) }
    ensures fresh { IfOk result
        (λ takes. AllByRecursion (LooksSince (length (S.at seat.old))) takes.items) }
    ensures opening { S.opening seat.new ≡ S.opening seat.old }
    ensures grows { Begins (S.at seat.old) (S.at seat.new) }
{
    let mut known = ProcessSituations::new(alloc, Some(home));
    let mut takes = Vec::with_capacity(alloc, records.len())?;
    played.reserve_exact(records.len())?;
    let mut lines = Lines::new(records);
    let mut place: u32 = 0;
    while let Some(item) = lines.next() {
        place = place.saturating_add(1);
        play_record(
            seat, alloc, tree, place, &mut known, item, &mut takes, played,
        )?;
    }
    Ok(takes)
}

// A tree's End, where a supervisor stands: its number.
fn end_tree<S: Seat>(
    seat: &mut S,
    alloc: Global,
    number: u32,
    supervised: bool,
) -> Result<Option<u64>, NoMemory>
    requires above { 0 < number }
    requires inside { number ≤ (S.opening seat.old).trees }
    requires fitted { FitsFrom (S.opening seat.old) (S.at seat.old) }
    ensures fitted { IfOk result (λ end. FitsFrom (S.opening seat.old) (S.at seat.new)) }
    ensures ends { IfOk result (λ end. EndsTree (S.opening seat.old) number supervised
        (S.at seat.old) (S.own seat.old) (S.at seat.new) (S.own seat.new) end) }
    ensures opening { S.opening seat.new ≡ S.opening seat.old }
    ensures grows { Begins (S.at seat.old) (S.at seat.new) }
{
    if !supervised {
        return Ok(None);
    }
    let made = Made {
        maker: Maker::Tree(number),
        step: Step::End(number),
    };
    let Settled { number: end, .. } = seat.settle(alloc, made)?;
    Ok(Some(end))
}

/// Plays a tree: its requests, one after another, each by the process that the records name, and
/// then its End where a supervisor stands.
///
/// Errors: want of memory, or that no answer can come any more.
pub fn play_tree<S: Seat>(
    seat: &mut S,
    alloc: Global,
    tree: TreeToPlay,
    supervised: bool,
) -> Result<PlayedTree, NoMemory>
    requires opened { IsOpened (S.opening seat.old).policy }
    requires named { IsNamed tomoyo_grammar.is_path (S.opening seat.old).policy }
    requires fitted { FitsFrom (S.opening seat.old) (S.at seat.old) }
    requires ready { IsReady (S.opening seat.old) tree }
    ensures fitted { IfOk result (λ played. FitsFrom (S.opening seat.old) (S.at seat.new)) }
    ensures number { IfOk result (λ played. played.number ≡ tree.number) }
    ensures row { IfOk result (λ played. RowIsPlayed (S.opening seat.old) tree supervised
        (S.at seat.new) (row_of played)) }
    ensures own { IfOk result
        (λ played. S.own seat.new ≡ S.own seat.old ++ row_own (row_of played)) }
    ensures makers { IfOk result (λ played. MadeBy (tree_makers tree)
        (S.at seat.old) (S.own seat.old) (S.at seat.new) (S.own seat.new)) }
    ensures fresh { IfOk result (λ played. RowSince (length (S.at seat.old)) played) }
    ensures opening { S.opening seat.new ≡ S.opening seat.old }
    ensures grows { Begins (S.at seat.old) (S.at seat.new) }
{
    let TreeToPlay {
        number,
        home,
        records,
    } = tree;
    let mut played = Vec::new(alloc);
    let takes = play_records(seat, alloc, number, home, records, &mut played)?;
    match end_tree(seat, alloc, number, supervised) {
        Ok(end) => Ok(PlayedTree {
            number,
            takes: Seq::from_vec(takes),
            end,
            played,
        }),
        Err(fault) => {
            drop(takes);
            drop(played);
            Err(fault)
        }
    }
}
