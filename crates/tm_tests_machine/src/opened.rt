//! An engine that is opened for a trial, and closed after it.
ghost use Rattle.std.specs.Prelude.{◌≡◌, [], IfOk};
ghost use Rattle.tm_rules.specs.Prelude.{IsFew};
ghost use Rattle.tm_publish.specs.Boards.{Names, blank_parts};

use std::alloc::{AllocError, Global};
use std::marker::Brand;
use std::process::Abort;
use std::sync::Wait;
use std::test::Fail;
use std::thread::Threads;
use tm_engine::engine::Engine;
use tm_engine::open::open_engine;
use tm_entry::read_entry;
use tm_indexed::{Indexed, load_indexed};
use tm_list::NoMemory;
use tm_machine::Machine;
use tm_office::Hall;
use tm_publish::blank::Blank;
use tm_publish::front::Named;
use tm_publish::pass::Pass;
use tm_types::step::{Made, Maker, PolicyFiles, Step};
use tm_word::{Text, normal_words};

/// What is tried with two passes at an engine.
pub(crate) trait Trial<H: Hall> {
    /// Steps and looks of the passes.
    fn play<L: Named + Send + Sync, W: Threads + Wait + Abort + Sync>(
        &self,
        rt: &W,
        alloc: Global,
        engine: &Engine<L, H>,
        a: &mut Pass<L, H>,
        b: &mut Pass<L, H>,
    ) -> Result<(), Fail>;

    /// What is wanted of the closing: of the number of steps that the passes made, and of the final
    /// office.
    fn judge<W: Abort>(&self, rt: &W, own: u64, office: &H) -> Result<(), Fail>;
}

/// Tries it at an engine of this office.
pub(crate) fn tried<L: Named + Send + Sync, H: Hall, W: Threads + Wait + Abort + Sync, T: Trial<H>>(
    rt: &W,
    alloc: Global,
    blank: Blank<H>,
    office: H,
    trial: &T,
) -> Result<(), Fail>
    requires named { Names L.name L.parts L.history blank }
    requires two { blank_parts blank ≡ 2 }
    requires none { H.steps office ≡ [] }
{
    let (engine, mut passes) = open_engine::<L, H, W>(rt, alloc, blank, office, 2)?;
    let mut b = passes.pop().ok_or("two passes")?;
    let mut a = passes.pop().ok_or("two passes")?;
    trial.play(rt, alloc, &engine, &mut a, &mut b)?;
    passes.push(a)?;
    passes.push(b)?;
    let closed = engine.close(rt, passes)?;
    trial.judge(rt, closed.own, &closed.office)
}

/// A policy whose only domain learns.
fn learning(alloc: Global) -> Result<Indexed, NoMemory>
    ensures { IfOk result IsFew }
{
    let files = PolicyFiles {
        profile: Text::from_bytes(
            alloc,
            b"PROFILE_VERSION=20150505\n0-CONFIG={ mode=learning grant_log=no reject_log=no }\n",
        )?,
        exception: Text::new(alloc),
        domain: Text::from_bytes(alloc, b"<kernel>\nuse_profile 0\n")?,
        manager: Text::new(alloc),
    };
    match load_indexed(alloc, &files) {
        Ok(policy) => Ok(policy),
        Err(_) => Err(AllocError),
    }
}

/// A machine at version 0, with a supervisor and one tree.
pub(crate) fn machine(alloc: Global) -> Result<Machine<Indexed>, NoMemory>
    ensures { IfOk result (λ machine. machine.made ≡ []) }
{
    let policy = learning(alloc)?;
    Machine::start(alloc, policy, Vec::new(alloc), 1, true)
}

/// Tries it at an engine of a machine.
pub(crate) fn tried_at_machine<W: Threads + Wait + Abort + Sync, T: Trial<Machine<Indexed>>>(
    rt: &W,
    alloc: Global,
    trial: &T,
) -> Result<(), Fail> {
    let opened = machine(alloc)?;
    tried::<Brand, Machine<Indexed>, W, T>(rt, alloc, Blank::new(2), opened, trial)
}

/// A Learn of a read in the first domain, by process 7.
pub(crate) fn learn(alloc: Global) -> Result<Made, NoMemory> {
    match read_entry(alloc, &normal_words(alloc, b"file read /etc/passwd")?) {
        Ok(entry) => Ok(Made {
            maker: Maker::Process(7),
            step: Step::Learn(0, entry),
        }),
        Err(_) => Err(AllocError),
    }
}

/// An Ask in the first domain, by process 7.
pub(crate) fn ask(alloc: Global) -> Result<Made, NoMemory> {
    Ok(Made {
        maker: Maker::Process(7),
        step: Step::Ask(0, 0, Text::from_bytes(alloc, b"file read /etc/shadow")?),
    })
}
