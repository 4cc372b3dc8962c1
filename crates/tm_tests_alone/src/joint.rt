//! Plays by threads that give the machine back, a rerun, and a worker that fails beside others.
ghost use Rattle.std.specs.Prelude.{[], ⊤, ◌≡◌};
ghost use Rattle.tm_tests_alone.specs.Opened.{CanBePlayed};

use crate::alone::is_stored;
use crate::opened::{Opened, files, open_machine, open_refusing, read};
use std::alloc::{AllocError, Global};
use std::process::Abort;
use std::sync::Wait;
use std::sync::atomic::{AtomicU64, Ordering};
use std::test::Fail;
use std::thread;
use std::thread::Threads;
use std::time::{Clock, Duration};
use tm_call_input::Loaded;
use tm_desk::Desk;
use tm_engine::gate::NoGate;
use tm_indexed::Indexed;
use tm_io::FileName;
use tm_list::NoMemory;
use tm_machine::Machine;
use tm_replay::{play_parts, replay_all};
use tm_run::print_run;
use tm_script::book_code;
use tm_seat::{Seat, Work};
use tm_steal::steal_all;
use tm_types::step::{Query, Run};
use tomoyo::rerun;

const LEARNING: &str = "0-CONFIG={ mode=learning grant_log=no reject_log=no }\n";

const READS_A: &str = "<kernel>\nfile read /a\n";

const FORKS: &str =
    "tree 7 <kernel>\nfork 7 8\ndo 7 file read /a\ndo 7 file read /b\ndo 7 file read /b\n";

const ALL_YES: &str = "rule yes : any : any\n";

// What only one process asks has one order of steps, whoever plays it.
const FORKED: [(FileName, &str); 3] = [
    (FileName::Profile, LEARNING),
    (FileName::DomainPolicy, READS_A),
    (FileName::Trace, FORKS),
];

// The text of a run, and whether the machine is at its last version.
fn told(alloc: Global, run: &Run, machine: &Machine<Indexed>) -> Result<(Vec<u8>, bool), NoMemory> {
    let mut text = Vec::new(alloc);
    print_run(alloc, run, &mut text)?;
    Ok((text, machine.version() == run.steps.len() as u64))
}

// The run of these files by two workers, and whether the machine is at its last version.
fn replayed<W: Threads + Wait + Sync>(
    rt: &W,
    alloc: Global,
    texts: &[(FileName, &str)],
) -> Result<(Vec<u8>, bool), NoMemory> {
    let Opened {
        machine,
        trace,
        book,
    } = open_machine(alloc, texts)?;
    let desk = Desk::new(&book, |query: &Query| book_code(&book, query));
    let (run, machine) = replay_all(rt, alloc, machine, &trace, 2, &desk, &NoGate)?;
    told(alloc, &run, &machine)
}

// The same by two workers that share the processes.
fn stolen<W: Threads + Wait + Sync>(
    rt: &W,
    alloc: Global,
    texts: &[(FileName, &str)],
) -> Result<(Vec<u8>, bool), NoMemory> {
    let Opened {
        machine,
        trace,
        book,
    } = open_machine(alloc, texts)?;
    let desk = Desk::new(&book, |query: &Query| book_code(&book, query));
    let (run, machine) = steal_all(rt, alloc, machine, &trace, 2, &desk, &NoGate)?;
    told(alloc, &run, &machine)
}

#[test]
fn threads_give_the_machine_with_the_run_of_step(rt: HostRuntime) -> Result<(), Fail> {
    let alloc = rt.alloc();
    let (text, is_last) = replayed(&rt, alloc, &FORKED)?;
    assert!(&rt; is_last);
    assert!(&rt; is_stored(alloc, &FORKED, &text)?);
    let (text, is_last) = stolen(&rt, alloc, &FORKED)?;
    assert!(&rt; is_last);
    assert!(&rt; is_stored(alloc, &FORKED, &text)?);
    Ok(())
}

// The text of the run that is played with nobody else.
fn played_again(alloc: Global, texts: &[(FileName, &str)]) -> Result<Vec<u8>, NoMemory> {
    let Loaded { policy, trace, .. } = read(alloc, files(alloc, texts)?)?;
    let (run, _) = rerun(alloc, policy, trace)?;
    let mut text = Vec::new(alloc);
    print_run(alloc, &run, &mut text)?;
    Ok(text)
}

#[test]
fn a_rerun_is_the_run_with_nobody_else(rt: HostRuntime) -> Result<(), Fail> {
    let alloc = rt.alloc();
    let text = played_again(alloc, &FORKED)?;
    assert!(rt; is_stored(alloc, &FORKED, &text)?);
    Ok(())
}

// Workers of which those fail whose hand says so; the others wait for an answer that never comes.
struct Waiting;

impl Work<bool, u64> for Waiting {
    ghost use Rattle.std.specs.Prelude.{⊤};

    ghost ready = { λ _ _ _. ⊤ };

    ghost did = { λ _ _ _ _ _. ⊤ };

    fn work<S: Seat, W: Wait>(
        &self,
        _rt: &W,
        seat: &mut S,
        alloc: Global,
        hand: bool,
        _supervised: bool,
    ) -> Result<Vec<u64>, NoMemory> {
        if hand {
            return Err(AllocError);
        }
        let (_, version) = seat.hear(1)?;
        let mut heard = Vec::new(alloc);
        heard.push(version)?;
        Ok(heard)
    }
}

// Whether the work of a worker that waits and of one that fails ends, and without a result.
fn has_failed<W: Threads + Wait + Sync>(
    rt: &W,
    alloc: Global,
    texts: &[(FileName, &str)],
) -> Result<bool, NoMemory> {
    let Opened { machine, book, .. } = open_machine(alloc, texts)?;
    let desk = Desk::new(&book, |query: &Query| book_code(&book, query));
    let mut hands = Vec::new(alloc);
    hands.push(false)?;
    hands.push(true)?;
    let played = play_parts(rt, alloc, machine, hands, &desk, &NoGate, &Waiting);
    Ok(played.is_err())
}

// Whether a play by two workers that share the processes ends, and without a result, where no line
// can be learned.
fn has_learned_nothing<W: Threads + Wait + Sync>(
    rt: &W,
    alloc: Global,
    texts: &[(FileName, &str)],
) -> Result<bool, NoMemory> {
    let Opened {
        machine,
        trace,
        book,
    } = open_refusing(alloc, texts)?;
    let desk = Desk::new(&book, |query: &Query| book_code(&book, query));
    let played = steal_all(rt, alloc, machine, &trace, 2, &desk, &NoGate);
    Ok(played.is_err())
}

// Looks at whether something has ended, and ends the test where it hasn't for half a minute.
fn watch<W: Clock + Abort>(rt: &W, ended: &AtomicU64) {
    for _ in 0..3000_u64 {
        if ended.load(Ordering::SeqCst) == 1 {
            return;
        }
        thread::sleep(rt, Duration::from_millis(10));
    }
    panic!(rt; "somebody waits for ever");
}

// The one or the other while it is watched.
fn has_failed_in_time<W: Threads + Wait + Abort + Clock + Sync>(
    rt: &W,
    alloc: Global,
    texts: &[(FileName, &str)],
    learns: bool,
) -> Result<bool, NoMemory> {
    let ended = AtomicU64::new(0);
    let (failed, ()) = thread::join(
        rt,
        || {
            let failed = if learns {
                has_learned_nothing(rt, alloc, texts)
            } else {
                has_failed(rt, alloc, texts)
            };
            ended.store(1, Ordering::SeqCst);
            failed
        },
        || watch(rt, &ended),
    );
    failed
}

const SUPERVISED: [(FileName, &str); 4] = [
    (FileName::Profile, LEARNING),
    (FileName::DomainPolicy, READS_A),
    (FileName::Trace, FORKS),
    (FileName::Answers, ALL_YES),
];

#[test]
fn a_worker_that_fails_lets_nobody_wait(rt: HostRuntime) -> Result<(), Fail> {
    for _ in 0..10 {
        assert!(&rt; has_failed_in_time(&rt, rt.alloc(), &FORKED, false)?);
        assert!(&rt; has_failed_in_time(&rt, rt.alloc(), &SUPERVISED, false)?);
    }
    Ok(())
}

// Whoever plays tree 7 has a line to learn, and fails; the other worker has soon played what is
// left, and looks for more until all have ended or one has given up.
const ONE_LEARNS: [(FileName, &str); 4] = [
    (FileName::Profile, LEARNING),
    (FileName::DomainPolicy, READS_A),
    (
        FileName::Trace,
        "tree 7 <kernel>\ndo 7 file read /b\ntree 8 <kernel>\ndo 8 file read /a\ntree 9 <kernel>\ndo 9 file read /a\n",
    ),
    (FileName::Answers, ALL_YES),
];

#[test]
fn a_worker_that_fails_lets_nobody_look_for_more(rt: HostRuntime) -> Result<(), Fail> {
    for _ in 0..10 {
        assert!(&rt; has_failed_in_time(&rt, rt.alloc(), &ONE_LEARNS[..3], true)?);
        assert!(&rt; has_failed_in_time(&rt, rt.alloc(), &ONE_LEARNS, true)?);
    }
    Ok(())
}
