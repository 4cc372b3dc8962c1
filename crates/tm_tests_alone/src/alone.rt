//! A seat at a machine alone: editors, and takes one after another.
ghost use Rattle.std.specs.Prelude.{◌≡◌, [], IfOk, length};
ghost use Rattle.std.specs.List.{AllByRecursion};
ghost use Rattle.tm_rules.specs.Types.{Book};
ghost use Rattle.tm_grammar.specs.Tomoyo.{tomoyo_grammar};
ghost use Rattle.tm_legal.specs.Prelude.{IsNamed, IsOpened};
ghost use Rattle.tm_seat.specs.Rows.{IsReady};
ghost use Rattle.tm_seat.specs.Seats.{FitsFrom};
ghost use Rattle.tm_seat.specs.Parts.{tree_to_play, trees_from};
ghost use Rattle.tm_tests_alone.specs.Opened.{CanBePlayed};

use crate::opened::{Opened, files, open_machine};
use std::alloc::{AllocError, Global};
use std::process::Abort;
use std::test::Fail;
use tm_call::Status;
use tm_io::{FileName, MemoryShelf, MemorySink};
use tm_list::{Copied, NoMemory};
use tm_machine::Machine;
use tm_rep::Rep;
use tm_replay::{Lone, takes_of};
use tm_run::print_run;
use tm_seat::{PlayedTree, Seat, TreeToPlay, play_editor, play_trees};
use tm_types::request::{Trace, Tree};
use tm_types::step::{Answered, Editor, Made, Maker, Run, Step};
use tm_word::Text;
use tomoyo::run_alone;

// A tree of a number, which starts in the live domain of its name.
fn tree_to_play<R: Rep>(machine: &Machine<R>, number: u32, tree: Tree) -> TreeToPlay
    ensures { result ≡ tree_to_play machine.now.state.policy number tree }
{
    let home = machine.rep().live_domain(&tree.start).unwrap_or(0);
    TreeToPlay {
        number,
        home,
        records: tree.records,
    }
}

// The trees of a trace, by their numbers from 1.
fn trees_of<R: Rep>(
    alloc: Global,
    machine: &Machine<R>,
    trace: Trace,
) -> Result<Vec<TreeToPlay>, NoMemory>
    ensures { IfOk result (λ trees. trees.items ≡ trees_from machine.now.state.policy 1 trace) }
{
    let mut trees = Vec::new(alloc);
    let mut number: u32 = 0;
    for tree in trace.into_vec() {
        let Some(next) = number.checked_add(1) else {
            return Err(AllocError);
        };
        number = next;
        trees.push(tree_to_play(machine, number, tree))?;
    }
    Ok(trees)
}

// Plays the lines of the only editor, where there is one, and then these trees.
fn play_all<S: Seat>(
    seat: &mut S,
    alloc: Global,
    editors: Vec<Editor>,
    trees: Vec<TreeToPlay>,
) -> Result<Vec<PlayedTree>, NoMemory>
    requires opened { IsOpened (S.opening seat.old).policy }
    requires named { IsNamed tomoyo_grammar.is_path (S.opening seat.old).policy }
    requires fitted { FitsFrom (S.opening seat.old) (S.at seat.old) }
    requires editors { editors.items ≡ (S.opening seat.old).editors }
    requires ready { AllByRecursion (IsReady (S.opening seat.old)) trees.items }
{
    let mut editors = editors;
    if let Some(editor) = editors.pop() {
        play_editor(seat, alloc, 1, editor.lines)?;
    }
    play_trees(seat, alloc, trees, false)
}

// The run of a trace that is played from one seat at a machine alone.
fn play_alone<R: Rep>(alloc: Global, machine: Machine<R>, trace: Trace) -> Result<Run, NoMemory>
    requires { (book : Book) × CanBePlayed trace book machine }
{
    let trees = trees_of(alloc, &machine, trace)?;
    let editors = machine.opening().editors.copy(alloc)?;
    let mut seat = Lone::new(alloc, machine);
    let played = play_all(&mut seat, alloc, editors.into_vec(), trees);
    let Lone { machine, own: _ } = seat;
    let takes = takes_of(alloc, played?)?;
    let steps = machine.history(alloc)?;
    Ok(Run { steps, takes })
}

// The text of the run that a seat at a machine alone makes of these files.
fn text_alone(alloc: Global, texts: &[(FileName, &str)]) -> Result<Vec<u8>, NoMemory> {
    let Opened { machine, trace, .. } = open_machine(alloc, texts)?;
    let run = play_alone(alloc, machine, trace)?;
    let mut text = Vec::new(alloc);
    print_run(alloc, &run, &mut text)?;
    Ok(text)
}

/// Whether `step` stores this run of these files.
pub(crate) fn is_stored(
    alloc: Global,
    texts: &[(FileName, &str)],
    text: &[u8],
) -> Result<bool, NoMemory> {
    let mut words = Vec::new(alloc);
    words.push(String::from_str(alloc, "step")?)?;
    let mut shelf = MemoryShelf::new(alloc, files(alloc, texts)?, Vec::new(alloc));
    let mut out = MemorySink::new(alloc, Vec::new(alloc));
    let status = run_alone(alloc, &words, &mut shelf, &mut out);
    match shelf.get(FileName::Run) {
        Some(run) => Ok(matches!(status, Status::Done) && run == text),
        None => Ok(false),
    }
}

const PROFILE: &str = "0-CONFIG={ mode=disabled grant_log=no reject_log=no }\n\
    1-CONFIG={ mode=enforcing grant_log=no reject_log=no }\n\
    2-CONFIG={ mode=learning grant_log=no reject_log=no }\n\
    2-PREFERENCE={ max_audit_log=1024 max_learning_entry=3 }\n";

const AGGREGATORS: [(FileName, &str); 4] = [
    (FileName::Profile, PROFILE),
    (
        FileName::ExceptionPolicy,
        "aggregator /usr/bin/python\\* /usr/bin/python\n",
    ),
    (FileName::DomainPolicy, "<kernel>\nuse_profile 2\n"),
    (
        FileName::Trace,
        "tree 7 <kernel>\n\
        do 7 file execute /usr/bin/python3 exec.realpath=\"/usr/bin/python3.11\" exec.argv=\"python3\"\n\
        do 7 file execute /usr/bin/python exec.realpath=\"/x\" exec.argv=\"x\"\n",
    ),
];

const QUOTA: [(FileName, &str); 3] = [
    (FileName::Profile, PROFILE),
    (
        FileName::DomainPolicy,
        "<kernel>\nuse_profile 2\nfile read/write /a\nfile getattr /b\n",
    ),
    (
        FileName::Trace,
        "tree 7 <kernel>\ndo 7 file read /c\ndo 7 file read /d\n",
    ),
];

const SCHEDULE: [(FileName, &str); 4] = [
    (FileName::Profile, PROFILE),
    (FileName::DomainPolicy, "<kernel>\nuse_profile 2\n"),
    (
        FileName::Trace,
        "tree 7 <kernel>\ndo 7 file read /x\ndo 7 file read /y\ntree 8 <kernel>\ndo 8 file read /y\ndo 8 file read /x\n",
    ),
    (
        FileName::Schedule,
        "tree 1\ntree 1\ntree 1\ntree 1\ntree 2\ntree 2\n",
    ),
];

const MANAGERS: [(FileName, &str); 6] = [
    (FileName::Profile, PROFILE),
    (FileName::DomainPolicy, "<kernel>\nuse_profile 2\n"),
    (FileName::Manager, "/usr/sbin/admin\n"),
    (
        FileName::Trace,
        "tree 7 <kernel>\ndo 7 file read /x\ndo 7 file read /y\n",
    ),
    (
        FileName::Edits,
        "editor 0 0 /usr/sbin/admin <kernel>\ndomain_policy select <kernel>\ndomain_policy file read /x\ndomain_policy use_profile 1\n",
    ),
    (FileName::Schedule, "editor 1\neditor 1\neditor 1\n"),
];

#[test]
fn takes_at_a_machine_alone_are_those_of_step(rt: HostRuntime) -> Result<(), Fail> {
    let alloc = rt.alloc();
    let rows: [&[(FileName, &str)]; 4] = [&AGGREGATORS, &QUOTA, &SCHEDULE, &MANAGERS];
    for texts in rows {
        let text = text_alone(alloc, texts)?;
        assert!(rt; text.len() > 100);
        assert!(rt; is_stored(alloc, texts, &text)?);
    }
    Ok(())
}

// What a seat hears of the query of serial 1, at a machine that makes these steps as they fit.
fn heard<R: Rep>(
    alloc: Global,
    machine: Machine<R>,
    steps: Vec<Made>,
) -> Result<Option<(Answered, u64)>, NoMemory> {
    let mut machine = machine;
    for made in steps {
        if machine.fits(alloc, &made.step)? {
            machine.settle(alloc, made)?;
        }
    }
    let mut seat = Lone::new(alloc, machine);
    let found = seat.hear(1);
    let Lone { machine: _, own: _ } = seat;
    match found {
        Ok(answer) => Ok(Some(answer)),
        Err(_) => Ok(None),
    }
}

// A supervisor comes, a process asks, and the supervisor answers yes.
fn asked_and_answered(alloc: Global) -> Result<Vec<Made>, NoMemory> {
    let question = Text::from_bytes(alloc, b"file read /etc/shadow")?;
    let mut steps = Vec::new(alloc);
    steps.push(Made {
        maker: Maker::Desk,
        step: Step::Attach,
    })?;
    steps.push(Made {
        maker: Maker::Process(7),
        step: Step::Ask(0, 0, question),
    })?;
    steps.push(Made {
        maker: Maker::Desk,
        step: Step::Answer(1, 1),
    })?;
    Ok(steps)
}

#[test]
fn a_seat_at_a_machine_alone_hears_the_answer_that_is_there(rt: HostRuntime) -> Result<(), Fail> {
    let alloc = rt.alloc();
    let Opened { machine, .. } = open_machine(alloc, &SCHEDULE)?;
    let found = heard(alloc, machine, asked_and_answered(alloc)?)?;
    assert!(rt; matches!(found, Some((Answered::Yes, 3))));
    let Opened { machine, .. } = open_machine(alloc, &SCHEDULE)?;
    assert!(rt; heard(alloc, machine, Vec::new(alloc))?.is_none());
    Ok(())
}
