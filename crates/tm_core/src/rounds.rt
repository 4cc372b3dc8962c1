//! Turns one after another, and rounds of all activities until nobody can move.
ghost use Rattle.std.specs.Prelude.{◌≡◌, ◌<◌, ◌≤◌, true, is_some, length, IfOk, OnOk, IfSome, map};
ghost use Rattle.tm_desk.specs.Desks.{desk_book, IsDesk};
ghost use Rattle.tm_legal.specs.Prelude.{numbers_to};
ghost use Rattle.tm_core.specs.Rounds.{one_round};
ghost use Rattle.tm_core.specs.Players.{course_of, player_of};
ghost use Rattle.tm_core.specs.Resting.{OthersRest};
ghost use Rattle.tm_core.specs.Playing.{SameStart, ReachedBy, ReachedSomehow, StaysReached, StaysReachedAnyhow, OwnTurn, ScheduledTurn, TreeTurn, TurnsPlayed, TurnsPlayedAnyhow, RoundsPlayed};

use crate::awake::Awake;
use crate::desk::desk_turn;
use crate::player::{Player, awaited_by, step};
use std::alloc::Global;
use tm_desk::Desk;
use tm_list::NoMemory;
use tm_types::step::{Query, Turn};
use tm_verdict::rep::Rep;

// The supervisor's next turn, where one stands: the turn that it has had; None, and nothing
// changed, where it can't move.
fn play_desk<R: Rep, F: Fn(&Query) -> u64>(
    alloc: Global,
    player: &mut Player<R>,
    desk: &Desk<'_, F>,
) -> Result<Option<Turn>, NoMemory>
    requires desk { IsDesk F.Fn desk.now }
    requires reached { ReachedBy (desk_book desk.now) player.old }
    ensures event { IfOk result
        (λ had. ScheduledTurn (desk_book desk.now) Turn.Desk (is_some had) player.old player.new) }
    ensures turn { IfOk result
        (λ had. IfSome had (λ turn. OwnTurn turn true player.old player.new)) }
    ensures start { OnOk result (SameStart player.old player.new) }
{
    if !player.machine().opening().desk {
        return Ok(None);
    }
    let Some(turn) = desk_turn(player, desk) else {
        return Ok(None);
    };
    if step(alloc, player, turn)? {
        Ok(Some(turn))
    } else {
        Ok(None)
    }
}

// The event of an activity of a schedule: true, or false with nothing changed where it can't move.
fn play_turn<R: Rep, F: Fn(&Query) -> u64>(
    alloc: Global,
    player: &mut Player<R>,
    desk: &Desk<'_, F>,
    turn: Turn,
) -> Result<bool, NoMemory>
    requires desk { IsDesk F.Fn desk.now }
    requires reached { ReachedBy (desk_book desk.now) player.old }
    ensures event { IfOk result
        (λ moved. ScheduledTurn (desk_book desk.now) turn moved player.old player.new) }
    ensures start { OnOk result (SameStart player.old player.new) }
{
    match turn {
        Turn::Tree(_) => step(alloc, player, turn),
        Turn::Editor(_) => step(alloc, player, turn),
        Turn::Desk => Ok(play_desk(alloc, player, desk)?.is_some()),
        Turn::Attach => Ok(false),
        Turn::Answer(_, _) => Ok(false),
        Turn::Detach => Ok(false),
    }
}

/// Some turns, one after another; an activity that can't move is passed over. Tells whether one of
/// them had an event.
pub(crate) fn play_turns<R: Rep, F: Fn(&Query) -> u64>(
    alloc: Global,
    player: &mut Player<R>,
    desk: &Desk<'_, F>,
    turns: &[Turn],
) -> Result<bool, NoMemory>
    requires desk { IsDesk F.Fn desk.now }
    requires reached { ReachedBy (desk_book desk.now) player.old }
    ensures reached { OnOk result (StaysReached (desk_book desk.now) player.old player.new) }
    ensures played { IfOk result
        (λ moved. TurnsPlayed (desk_book desk.now) turns.now moved player.old player.new) }
    ensures start { OnOk result (SameStart player.old player.new) }
{
    let mut moved = false;
    for turn in turns {
        if play_turn(alloc, player, desk, *turn)? {
            moved = true;
        }
    }
    Ok(moved)
}

// One turn of the tree of this number. Where it can't move, it lies down.
fn play_tree<R: Rep>(
    alloc: Global,
    player: &mut Player<R>,
    awake: &mut Awake,
    number: u32,
) -> Result<bool, NoMemory>
    requires reached { ReachedSomehow player.old }
    requires some { 0 < number }
    requires there { number ≤ (course_of player.old).start.trees }
    requires rest { OthersRest (course_of player.old).start (player_of player.old) awake.old }
    ensures event { IfOk result (λ moved. TreeTurn number moved player.old player.new) }
    ensures start { OnOk result (SameStart player.old player.new) }
    ensures rest { OnOk result
        (OthersRest (course_of player.new).start (player_of player.new) awake.new) }
{
    if step(alloc, player, Turn::Tree(number))? {
        return Ok(true);
    }
    awake.lay_down(number, awaited_by(player, number))?;
    Ok(false)
}

// The turns of all trees, by number: those that rest are passed over. Tells whether one of them had
// an event.
fn play_trees<R: Rep>(
    alloc: Global,
    player: &mut Player<R>,
    awake: &mut Awake,
) -> Result<bool, NoMemory>
    requires reached { ReachedSomehow player.old }
    requires rest { OthersRest (course_of player.old).start (player_of player.old) awake.old }
    ensures reached { OnOk result (StaysReachedAnyhow player.old player.new) }
    ensures played { IfOk result (λ moved. TurnsPlayedAnyhow
        (map Turn.Tree (numbers_to (course_of player.old).start.trees))
        moved player.old player.new) }
    ensures start { OnOk result (SameStart player.old player.new) }
    ensures rest { OnOk result
        (OthersRest (course_of player.new).start (player_of player.new) awake.new) }
{
    let numbers = awake.numbers(alloc)?;
    let mut moved = false;
    for number in numbers.as_slice() {
        if play_tree(alloc, player, awake, *number)? {
            moved = true;
        }
    }
    Ok(moved)
}

// One round of the default order: editors by number, trees by number, desk. Tells whether somebody
// had an event.
fn play_round<R: Rep, F: Fn(&Query) -> u64>(
    alloc: Global,
    player: &mut Player<R>,
    desk: &Desk<'_, F>,
    editors: &[Turn],
    awake: &mut Awake,
) -> Result<bool, NoMemory>
    requires desk { IsDesk F.Fn desk.now }
    requires reached { ReachedBy (desk_book desk.now) player.old }
    requires editors { editors.now
        ≡ map Turn.Editor (numbers_to (length (course_of player.old).start.editors)) }
    requires rest { OthersRest (course_of player.old).start (player_of player.old) awake.old }
    ensures reached { OnOk result (StaysReached (desk_book desk.now) player.old player.new) }
    ensures played { IfOk result (λ moved. TurnsPlayed (desk_book desk.now)
        (one_round (length (course_of player.old).start.editors) (course_of player.old).start.trees)
        moved player.old player.new) }
    ensures start { OnOk result (SameStart player.old player.new) }
    ensures rest { OnOk result
        (OthersRest (course_of player.new).start (player_of player.new) awake.new) }
{
    let edited = play_turns(alloc, player, desk, editors)?;
    let went = play_trees(alloc, player, awake)?;
    match play_desk(alloc, player, desk)? {
        Some(turn) => {
            awake.wake_after(turn, player.machine().opening().trees)?;
            Ok(true)
        }
        None => Ok(edited || went),
    }
}

/// Rounds of the default order, until nobody can move. A tree that can't move gets no turn until
/// the supervisor wakes it.
pub(crate) fn play_rounds<R: Rep, F: Fn(&Query) -> u64>(
    alloc: Global,
    player: &mut Player<R>,
    desk: &Desk<'_, F>,
    editors: &[Turn],
) -> Result<(), NoMemory>
    requires desk { IsDesk F.Fn desk.now }
    requires reached { ReachedBy (desk_book desk.now) player.old }
    requires editors { editors.now
        ≡ map Turn.Editor (numbers_to (length (course_of player.old).start.editors)) }
    ensures over { OnOk result (RoundsPlayed (desk_book desk.now) player.old player.new) }
    ensures start { OnOk result (SameStart player.old player.new) }
{
    let mut awake = Awake::all(alloc, player.machine().opening().trees)?;
    loop {
        if !play_round(alloc, player, desk, editors, &mut awake)? {
            return Ok(());
        }
    }
}

/// The turns of so many editors, by number.
pub(crate) fn editor_turns(alloc: Global, editors: u32) -> Result<Vec<Turn>, NoMemory>
    ensures { IfOk result (λ turns. turns.items ≡ map Turn.Editor (numbers_to editors)) }
{
    let mut turns = Vec::new(alloc);
    for place in 0..editors {
        turns.push(Turn::Editor(place + 1))?;
    }
    Ok(turns)
}
