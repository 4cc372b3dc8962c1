//! Plays by hand, turn by turn.
ghost use Rattle.std.specs.Prelude.{OnOk};
ghost use Rattle.tm_rules.specs.Types.{Book};
ghost use Rattle.tm_core.specs.Playing.{Led};
ghost use Rattle.tm_tests_alone.specs.Opened.{CanBePlayed};

use crate::opened::{Opened, open_machine};
use std::alloc::Global;
use std::process::Abort;
use std::test::Fail;
use tm_core::{Player, end_play, start_play, step_alone};
use tm_io::FileName;
use tm_list::NoMemory;
use tm_machine::Machine;
use tm_rep::Rep;
use tm_run::print_run;
use tm_types::request::Trace;
use tm_types::step::Turn;

// Makes these turns, as long as each moves or doesn't as it is told; whether all do.
fn make_turns<R: Rep>(
    alloc: Global,
    player: &mut Player<R>,
    turns: &[(Turn, bool)],
) -> Result<bool, NoMemory>
    requires { Led player.old }
{
    for (turn, moves) in turns {
        if step_alone(alloc, player, *turn)? != *moves {
            return Ok(false);
        }
    }
    Ok(true)
}

// Whether the steps have the numbers from 1 on.
fn is_numbered<R: Rep>(machine: &Machine<R>) -> bool {
    let last = machine.version();
    machine.step_at(0).is_none()
        && machine.step_at(1).is_some()
        && machine.step_at(last).is_some()
        && (last == u64::MAX || machine.step_at(last + 1).is_none())
}

// The text of the run of a play by these turns; none where a turn doesn't move as it is told, or
// where a step hasn't its number.
fn play_by_hand<R: Rep>(
    alloc: Global,
    machine: Machine<R>,
    trace: Trace,
    turns: &[(Turn, bool)],
) -> Result<Vec<u8>, NoMemory>
    requires { (book : Book) × CanBePlayed trace book machine }
{
    let mut player = start_play(alloc, machine, trace)?;
    let told = make_turns(alloc, &mut player, turns)?;
    let (run, machine) = end_play(alloc, player)?;
    let mut text = Vec::new(alloc);
    if told && is_numbered(&machine) {
        print_run(alloc, &run, &mut text)?;
    }
    Ok(text)
}

// Plays these files by these turns, and wants this run of it.
fn expect<A: Abort>(
    rt: &A,
    alloc: Global,
    texts: &[(FileName, &str)],
    turns: &[(Turn, bool)],
    wanted: &str,
) -> Result<(), Fail> {
    let Opened { machine, trace, .. } = open_machine(alloc, texts)?;
    let text = play_by_hand(alloc, machine, trace, turns)?;
    assert_eq!(rt; text.as_slice(), wanted.as_bytes());
    Ok(())
}

#[test]
fn a_play_goes_turn_by_turn(rt: HostRuntime) -> Result<(), Fail> {
    expect(
        &rt,
        rt.alloc(),
        &[
            (
                FileName::Profile,
                "0-CONFIG={ mode=learning grant_log=no reject_log=no }\n",
            ),
            (FileName::DomainPolicy, "<kernel>\n"),
            (
                FileName::Trace,
                "tree 1 <kernel>\ndo 1 file read /a\ndo 1 file read /a\n",
            ),
        ],
        &[
            (Turn::Editor(1), false),
            (Turn::Desk, false),
            (Turn::Tree(1), true),
            (Turn::Tree(2), false),
            (Turn::Tree(1), true),
            (Turn::Tree(1), true),
            (Turn::Tree(1), false),
        ],
        "run 1\n\
        step 1 added learn 0 file read /a\n\
        take 1 1 0 0 granted\n\
        look 0 learning learn stay 1 -\n\
        audit -\n\
        take 2 1 0 0 granted\n\
        look 1 learning entry:0 stay - -\n\
        audit -\n",
    )
}

#[test]
fn a_supervisor_by_hand_may_do_what_no_book_would(rt: HostRuntime) -> Result<(), Fail> {
    expect(
        &rt,
        rt.alloc(),
        &[
            (
                FileName::Profile,
                "0-CONFIG={ mode=enforcing grant_log=no reject_log=no }\n",
            ),
            (FileName::DomainPolicy, "<kernel>\n"),
            (FileName::Trace, "tree 1 <kernel>\ndo 1 file read /b\n"),
            (FileName::Answers, "rule no : any : any\n"),
        ],
        &[
            (Turn::Desk, false),
            (Turn::Detach, false),
            (Turn::Attach, true),
            (Turn::Attach, false),
            (Turn::Tree(1), true),
            (Turn::Tree(1), true),
            (Turn::Tree(1), false),
            (Turn::Answer(7, 1), false),
            (Turn::Answer(1, 0), true),
            (Turn::Answer(1, 1), true),
            (Turn::Answer(1, 2), false),
            (Turn::Tree(1), true),
            (Turn::Tree(1), true),
            (Turn::Detach, true),
        ],
        "run 1\n\
        step 1 done attach\n\
        step 2 held:1 ask 0 0 file read /b\n\
        step 3 bad answer 1 0\n\
        step 4 done answer 1 1\n\
        step 5 done end 1\n\
        step 6 done detach\n\
        take 1 1 0 0 granted\n\
        look 1 enforcing ask stay 2 yes@4\n\
        audit -\n",
    )
}
