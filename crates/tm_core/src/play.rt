//! A play from its first turn to its end, and what it leaves.
ghost use Rattle.std.specs.Prelude.{◌≡◌, ◌++◌, IfOk, OnOk, flat_map, length, map};
ghost use Rattle.tm_rules.specs.Prelude.{IsFew};
ghost use Rattle.tm_desk.specs.Desks.{desk_book, IsDesk};
ghost use Rattle.tm_rules.specs.Types.{Take};
ghost use Rattle.tm_legal.specs.Prelude.{Way, run_of};
ghost use Rattle.tm_take.specs.Ways.{way_of};
ghost use Rattle.tm_core.specs.Players.{course_of, player_of};
ghost use Rattle.tm_core.specs.Playing.{SameStart, ReachedBy, PlayedOut, PlaysSchedule, PlaysLegally, EndsWithPolicy};

use crate::player::Player;
use crate::rounds::{editor_turns, play_rounds, play_turns};
use std::alloc::{AllocError, Global};
use tm_desk::Desk;
use tm_list::{NoMemory, Seq};
use tm_machine::Machine;
use tm_take::TreeOnWay;
use tm_types::policy::Policy;
use tm_types::step::{Query, Run, Start, Take, Turn};
use tm_verdict::rep::Rep;

// The schedule, and then rounds until nobody can move.
fn play_whole<R: Rep, F: Fn(&Query) -> u64>(
    alloc: Global,
    player: &mut Player<R>,
    desk: &Desk<'_, F>,
    schedule: &[Turn],
) -> Result<(), NoMemory>
    requires desk { IsDesk F.Fn desk.now }
    requires reached { ReachedBy (desk_book desk.now) player.old }
    ensures start { OnOk result (SameStart player.old player.new) }
    ensures over { OnOk result
        (PlayedOut (desk_book desk.now) schedule.now player.old player.new) }
    ensures plays { OnOk result
        (PlaysSchedule (desk_book desk.now) schedule.now player.old player.new) }
    ensures legal { OnOk result (PlaysLegally (desk_book desk.now) player.old player.new) }
    ensures ends { OnOk result (EndsWithPolicy (desk_book desk.now) player.old player.new) }
{
    let Ok(editors) = u32::try_from(player.machine().opening().editors.len()) else {
        return Err(AllocError);
    };
    let editors = editor_turns(alloc, editors)?;
    play_turns(alloc, player, desk, schedule)?;
    play_rounds(alloc, player, desk, editors.as_slice())?;
    Ok(())
}

/// Plays the schedule, and then the default order, round and round, until nobody can move. The desk
/// is asked where the machine was started for a supervisor.
///
/// Errors: want of memory.
pub fn play_out<R: Rep, F: Fn(&Query) -> u64>(
    alloc: Global,
    mut player: Player<R>,
    desk: &Desk<'_, F>,
    schedule: &[Turn],
) -> Result<Player<R>, NoMemory>
    requires desk { IsDesk F.Fn desk.now }
    requires reached { ReachedBy (desk_book desk.now) player }
    ensures start { IfOk result (SameStart player) }
    ensures over { IfOk result (PlayedOut (desk_book desk.now) schedule.now player) }
    ensures plays { IfOk result (PlaysSchedule (desk_book desk.now) schedule.now player) }
    ensures legal { IfOk result (PlaysLegally (desk_book desk.now) player) }
    ensures ends { IfOk result (EndsWithPolicy (desk_book desk.now) player) }
{
    match play_whole(alloc, &mut player, desk, schedule) {
        Ok(()) => Ok(player),
        Err(fault) => {
            drop(player);
            Err(fault)
        }
    }
}

// Puts these takes last; the first ones are taken over as they are.
fn append(out: &mut Seq<Take>, takes: Seq<Take>) -> Result<(), NoMemory>
    ensures { OnOk result (out.new ≡ out.old ++ takes) }
{
    if out.is_empty() {
        *out = takes;
        return Ok(());
    }
    for take in takes.into_vec() {
        out.push(take)?;
    }
    Ok(())
}

// The takes of all trees, tree by tree.
fn all_takes(alloc: Global, trees: Vec<TreeOnWay>) -> Result<Seq<Take>, NoMemory>
    ensures { IfOk result
        (λ takes. takes ≡ flat_map (λ (way : Way). way.takes) (map way_of trees.items)) }
{
    let mut all = Seq::new(alloc);
    for tree in trees {
        append(&mut all, tree.into_takes())?;
    }
    Ok(all)
}

/// The run of a play that is over, and the machine at its last version.
///
/// Errors: want of memory.
pub fn end_play<R: Rep>(alloc: Global, player: Player<R>) -> Result<(Run, Machine<R>), NoMemory>
    ensures run { IfOk result (λ ended. ended.0 ≡ run_of (player_of player)) }
    ensures machine { IfOk result (λ ended. ended.1 ≡ course_of player) }
{
    let Player { machine, trees, .. } = player;
    let steps = machine.history(alloc)?;
    let takes = all_takes(alloc, trees)?;
    Ok((Run { steps, takes }, machine))
}

/// The run of a play that is over, its opening, and the policy at its last version. The machine is
/// given up, so that the run has its steps without a copy, and what its policy was represented by
/// is dropped.
///
/// Errors: want of memory.
pub fn into_run<R: Rep>(alloc: Global, player: Player<R>) -> Result<(Run, Start, Policy), NoMemory>
    ensures run { IfOk result (λ ended. ended.0 ≡ run_of (player_of player)) }
    ensures opening { IfOk result (λ ended. ended.1 ≡ (course_of player).start) }
    ensures policy { IfOk result (λ ended. ended.2 ≡ (course_of player).state.policy) }
    ensures few { IfOk result (λ ended. IsFew ended.2) }
{
    let Player { machine, trees, .. } = player;
    let takes = all_takes(alloc, trees)?;
    let (steps, opening, last) = machine.into_history(alloc)?;
    Ok((Run { steps, takes }, opening, last))
}
