//! A machine and a trace at play: one event at a time, by turns.
ghost use Rattle.std.specs.Prelude.{◌≡◌, List, [], length, IfOk, OnOk, map};
ghost use Rattle.tm_word.specs.Prelude.{Text};
ghost use Rattle.tm_rules.specs.Types.{Book, Editor, FileKind, Maker};
ghost use Rattle.tm_audit.specs.Tomoyo.{tomoyo_grammar};
ghost use Rattle.tm_legal.specs.Prelude.{CanGoOn, editor_event, opening, start_of, supervisor_step, tree_event};
ghost use Rattle.tm_legal.specs.Play as play;
ghost use Rattle.tm_take.specs.Ways.{way_of};
ghost use Rattle.tm_core.specs.Scenes.{scene_of, Answers};
ghost use Rattle.tm_core.specs.Resting.{awaited_by};
ghost use Rattle.tm_core.specs.Moves.{at_course};
ghost use Rattle.tm_core.specs.Players.{course_of, player_of, way_at_start, first_is, supervisor_event};
ghost use Rattle.tm_core.specs.Playing.{SameStart, Led, StaysLed, OwnTurn, AddsStep, AddsStepOf};

use crate::scripts::Script;
use crate::trees::tree_event;
use std::alloc::Global;
use tm_list::NoMemory;
use tm_machine::Machine;
use tm_take::TreeOnWay;
use tm_types::request::{Trace, Tree};
use tm_types::step::{Editor, Made, Maker, Step, Turn};
use tm_verdict::rep::Rep;

/// All activities of a play: the machine, each tree on its way, and the lines that each editor has
/// left.
#[derive(Drop)]
pub struct Player<R: Rep> {
    pub(crate) machine: Machine<R>,
    pub(crate) trees: Vec<TreeOnWay>,
    pub(crate) scripts: Vec<Script>,
}

// A tree at its beginning: all its lines are left, and its processes stand in the live domain of
// its name.
fn begin_tree<R: Rep>(alloc: Global, machine: &Machine<R>, tree: Tree) -> TreeOnWay
    ensures { way_of result ≡ way_at_start machine.now.state.policy tree }
{
    let home = machine.rep().live_domain(&tree.start);
    TreeOnWay::new(alloc, home, tree.records)
}

// Every tree at its beginning.
fn begin_trees<R: Rep>(
    alloc: Global,
    machine: &Machine<R>,
    trees: Vec<Tree>,
) -> Result<Vec<TreeOnWay>, NoMemory>
    ensures { IfOk result (λ begun. map way_of begun.items ≡ map
        (way_at_start machine.now.state.policy) trees.items) }
{
    let mut begun = Vec::new(alloc);
    for tree in trees {
        begun.push(begin_tree(alloc, machine, tree))?;
    }
    Ok(begun)
}

// The lines of every editor.
fn begin_scripts(alloc: Global, editors: &[Editor]) -> Result<Vec<Script>, NoMemory>
    ensures { IfOk result
        (λ scripts. scripts.items ≡ map (λ (editor : Editor). editor.lines) editors.now) }
{
    let mut scripts = Vec::new(alloc);
    for editor in editors {
        scripts.push(Script::new(alloc, editor)?)?;
    }
    Ok(scripts)
}

/// Every activity at its beginning, of a machine at version 0 and of a trace with as many trees as
/// the machine was started for: each tree stands in the live domain of its name, and each editor of
/// the machine has all its lines left.
///
/// Errors: want of memory.
pub fn start_play<R: Rep>(
    alloc: Global,
    machine: Machine<R>,
    trace: Trace,
) -> Result<Player<R>, NoMemory>
    requires made { machine.made ≡ [] }
    requires opened { machine.state ≡ opening machine.start }
    requires trees { length trace ≡ machine.start.trees }
    ensures machine { IfOk result (λ player. course_of player ≡ machine) }
    ensures starts { IfOk result (λ player. (book : Book) → player_of player
        ≡ start_of (scene_of machine.start trace book)) }
{
    let trees = begin_trees(alloc, &machine, trace.into_vec())?;
    let scripts = begin_scripts(alloc, machine.opening().editors.as_slice())?;
    Ok(Player {
        machine,
        trees,
        scripts,
    })
}

impl<R: Rep> Player<R> {
    /// Lends the machine, at its newest version.
    #[tactic(auto, unfolding(crate::specs::Players::course_of))]
    pub fn machine(&self) -> &Machine<R>
        ensures { result.now ≡ course_of self.now }
    {
        &self.machine
    }
}

/// The serial of the query whose answer the tree of this number, from 1, waits for; None where it
/// waits for none.
#[tactic(auto, unfolding(crate::specs::Players::player_of))]
pub(crate) fn awaited_by<R: Rep>(player: &Player<R>, number: u32) -> Option<u64>
    ensures { result ≡ awaited_by (player_of player.now) number }
{
    if number == 0 {
        return None;
    }
    match player.trees.get(number as usize - 1) {
        Some(tree) => tree.awaits(),
        None => None,
    }
}

// One event of the tree of this number, from 1: true, or false with nothing changed where it can't
// move.
fn step_tree<R: Rep>(alloc: Global, player: &mut Player<R>, number: u32) -> Result<bool, NoMemory>
    requires { CanGoOn tomoyo_grammar (player_of player.old) }
    ensures event { IfOk result (λ moved. Answers moved
        (tree_event tomoyo_grammar (player_of player.old) (course_of player.old).start.desk number)
        (player_of player.new) (player_of player.old)) }
    ensures start { OnOk result (SameStart player.old player.new) }
    ensures makers { OnOk result (AddsStepOf (Turn.Tree number) player.old player.new) }
{
    if number == 0 {
        return Ok(false);
    }
    let place = number as usize - 1;
    if place >= player.trees.len() {
        return Ok(false);
    }
    let desk = player.machine.opening().desk;
    let tree = &mut player.trees[place];
    tree_event(alloc, &mut player.machine, tree, number, desk)
}

// The next line of the editor of this number, from 1, is done: true, or false with nothing changed
// where it has none left.
fn step_editor<R: Rep>(alloc: Global, player: &mut Player<R>, number: u32) -> Result<bool, NoMemory>
    requires { CanGoOn tomoyo_grammar (player_of player.old) }
    ensures event { IfOk result (λ moved. Answers moved
        (editor_event tomoyo_grammar (player_of player.old) number)
        (player_of player.new) (player_of player.old)) }
    ensures start { OnOk result (SameStart player.old player.new) }
    ensures makers { OnOk result (AddsStepOf (Turn.Editor number) player.old player.new) }
{
    if number == 0 {
        return Ok(false);
    }
    let place = number as usize - 1;
    if place >= player.scripts.len() {
        return Ok(false);
    }
    let script = &mut player.scripts[place];
    match script.next() {
        Some((file, line)) => {
            let made = Made {
                maker: Maker::Editor(number),
                step: Step::Edit(number, file, line),
            };
            player.machine.settle(alloc, made)?;
            Ok(true)
        }
        None => Ok(false),
    }
}

// The serial of the held query with the least one.
fn is_first<R: Rep>(machine: &Machine<R>, serial: u64) -> bool
    ensures { result ≡ first_is machine.now.state.queries serial }
{
    match machine.first_query() {
        Some(query) => query.serial == serial,
        None => false,
    }
}

// The step that a turn of the supervisor makes; None where it can't be its turn.
#[tactic(auto, unfolding(tm_legal::specs::Play::supervisor_step))]
fn supervisor_step<R: Rep>(machine: &Machine<R>, turn: Turn) -> Option<Step>
    ensures { (ways : List play.Way) (scripts : List (List (FileKind × Text))) → result
        ≡ supervisor_step tomoyo_grammar (at_course machine.now ways scripts)
        machine.now.start.desk turn }
{
    match turn {
        Turn::Attach => {
            if machine.opening().desk && !machine.came() {
                Some(Step::Attach)
            } else {
                None
            }
        }
        Turn::Answer(serial, code) => {
            if machine.attached() && is_first(machine, serial) {
                Some(Step::Answer(serial, code))
            } else {
                None
            }
        }
        Turn::Detach => {
            if machine.attached() {
                Some(Step::Detach)
            } else {
                None
            }
        }
        _ => None,
    }
}

// The step of a turn of the supervisor: true, or false with nothing changed where it can't be its
// turn.
fn step_supervisor<R: Rep>(
    alloc: Global,
    player: &mut Player<R>,
    turn: Turn,
) -> Result<bool, NoMemory>
    ensures event { IfOk result (λ moved. Answers moved
        (supervisor_event (player_of player.old) (course_of player.old).start.desk turn)
        (player_of player.new) (player_of player.old)) }
    ensures start { OnOk result (SameStart player.old player.new) }
    ensures makers { OnOk result
        (AddsStep (λ made. made.maker ≡ Maker.Desk) player.old player.new) }
{
    match supervisor_step(&player.machine, turn) {
        Some(step) => {
            let made = Made {
                maker: Maker::Desk,
                step,
            };
            player.machine.settle(alloc, made)?;
            Ok(true)
        }
        None => Ok(false),
    }
}

/// One event of the activity whose turn it is, of a player that can go on, as `step_alone` has it.
pub(crate) fn step<R: Rep>(
    alloc: Global,
    player: &mut Player<R>,
    turn: Turn,
) -> Result<bool, NoMemory>
    requires { CanGoOn tomoyo_grammar (player_of player.old) }
    ensures event { IfOk result (λ moved. OwnTurn turn moved player.old player.new) }
    ensures start { OnOk result (SameStart player.old player.new) }
    ensures makers { OnOk result (AddsStepOf turn player.old player.new) }
{
    match turn {
        Turn::Tree(number) => step_tree(alloc, player, number),
        Turn::Editor(number) => step_editor(alloc, player, number),
        Turn::Desk => Ok(false),
        Turn::Attach => step_supervisor(alloc, player, Turn::Attach),
        Turn::Answer(serial, code) => step_supervisor(alloc, player, Turn::Answer(serial, code)),
        Turn::Detach => step_supervisor(alloc, player, Turn::Detach),
    }
}

/// One event of the activity whose turn it is: true, or false with nothing changed where it can't
/// move now. A tree's event is its next look, its next own step, the taking of its answer, or its
/// end; an editor's is its next line; the supervisor's are `Attach`, an `Answer` to the held query
/// with the least serial, and `Detach`, whether a book would have them or not. A turn `Desk` is
/// none of the player's, and answers false. Each step is noted with its maker.
///
/// Errors: want of memory; the player isn't used again.
pub fn step_alone<R: Rep>(
    alloc: Global,
    player: &mut Player<R>,
    turn: Turn,
) -> Result<bool, NoMemory>
    requires { Led player.old }
    ensures event { IfOk result (λ moved. OwnTurn turn moved player.old player.new) }
    ensures led { OnOk result (StaysLed player.old player.new) }
    ensures start { OnOk result (SameStart player.old player.new) }
    ensures makers { OnOk result (AddsStepOf turn player.old player.new) }
{
    step(alloc, player, turn)
}
