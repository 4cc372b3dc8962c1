//! The supervisor's next turn.
ghost use Rattle.std.specs.Prelude.{◌≡◌};
ghost use Rattle.tm_desk.specs.Desks.{desk_book, IsDesk};
ghost use Rattle.tm_audit.specs.Tomoyo.{tomoyo_grammar};
ghost use Rattle.tm_legal.specs.Prelude.{desk_turn, is_reached};
ghost use Rattle.tm_core.specs.Players.{player_of};

use crate::player::Player;
use tm_desk::Desk;
use tm_types::step::{Query, Turn};
use tm_verdict::rep::Rep;

// Whether the supervisor has given as many answers as its book wants.
fn is_reached(stop: Option<u64>, answers: u64) -> bool
    ensures { result ≡ is_reached tomoyo_grammar stop answers }
{
    match stop {
        None => false,
        Some(number) => number == answers,
    }
}

/// The turn that the supervisor takes next, by its desk: it comes first; then it leaves where its
/// book's number of answers is reached; then it answers the held query with the least serial by its
/// book; then it leaves where all trees have ended. None where there is none of these. Takes no
/// memory.
#[tactic(auto, unfolding(tm_legal::specs::Play::desk_turn, crate::specs::Players::player_of, crate::specs::Players::course_of))]
pub fn desk_turn<R: Rep, F: Fn(&Query) -> u64>(
    player: &Player<R>,
    desk: &Desk<'_, F>,
) -> Option<Turn>
    requires { IsDesk F.Fn desk.now }
    ensures { result ≡ desk_turn tomoyo_grammar (player_of player.now) (desk_book desk.now) }
{
    let machine = player.machine();
    if !machine.came() {
        return Some(Turn::Attach);
    }
    if !machine.attached() {
        return None;
    }
    if is_reached(desk.book().stop, machine.answers()) {
        return Some(Turn::Detach);
    }
    match machine.first_query() {
        Some(query) => Some(Turn::Answer(query.serial, desk.code(query))),
        None => {
            if machine.over() {
                Some(Turn::Detach)
            } else {
                None
            }
        }
    }
}
