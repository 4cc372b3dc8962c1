//! One machine that makes the given steps, each once.
ghost use Rattle.std.specs.Prelude.{◌≡◌, [], ◌+◌, ◌≤◌, ◌<◌, ◌^◌, length, Some, IfOk, OnOk};
ghost use Rattle.std.specs.Option.{option_copied};
ghost use Rattle.tm_rules.specs.Prelude.{IsFew, book_answer, code_of, first_query};
ghost use Rattle.tm_core.specs.Tomoyo.{tomoyo_grammar};
ghost use Rattle.tm_legal.specs.Prelude.{IsNamed, apply};
ghost use Rattle.tm_verify_laws.specs.Desk.{is_answered_so};
ghost use Rattle.tm_verify_notes.specs.Given.{scene_of, history_of};
ghost use Rattle.tm_verify_notes.specs.Stepping.{suits, IsNotedIn, AreNoted};
ghost use Rattle.tm_verify.specs.Passing.{IsAt};

use std::alloc::{AllocError, Global};
use tm_core::machines::Machine;
use tm_list::{Copied, NoMemory, Same};
use tm_types::step::{Book, Editor, Made, Maker, Reply, Step};
use tm_verify_notes::rep::Rep;
use tm_verify_notes::{Given, StepNote, suits};

/// A machine that has made the given steps up to a version, and what it has noted of them. A step
/// that doesn't fit is passed over.
#[derive(Drop)]
pub(crate) struct Pass<R: Rep> {
    pub(crate) machine: Machine<R>,
    pub(crate) version: u64,
    pub(crate) notes: Vec<StepNote>,
}

#[tactic(auto, using(crate::proofs::PassLaws::passed_over, crate::proofs::PassLaws::no_reply))]
// Makes a step where it fits, and gives its reply; else nothing changes, and there is none.
fn make_step<R: Rep>(
    alloc: Global,
    machine: &mut Machine<R>,
    step: &Step,
) -> Result<Option<Reply>, NoMemory>
    ensures state { OnOk result
        (machine.new.state ≡ (apply tomoyo_grammar machine.old.state step.now).state) }
    ensures reply { IfOk result
        (λ reply. reply ≡ (apply tomoyo_grammar machine.old.state step.now).reply) }
{
    if machine.fits(alloc, step)? {
        let step = step.copy(alloc)?;
        let made = Made {
            maker: Maker::Desk,
            step,
        };
        Ok(Some(machine.settle(alloc, made)?))
    } else {
        Ok(None)
    }
}

// Makes a step, or passes it over, and notes it.
fn make_noted<R: Rep>(
    alloc: Global,
    book: Option<&Book>,
    machine: &mut Machine<R>,
    step: &Step,
    given: Reply,
) -> Result<StepNote, NoMemory>
    ensures state { OnOk result
        (machine.new.state ≡ (apply tomoyo_grammar machine.old.state step.now).state) }
    ensures note { IfOk result
        (IsNotedIn (option_copied book.entry) machine.old.state step.now given) }
{
    let suits = suits(book, machine.first_query(), step);
    let reply = make_step(alloc, machine, step)?;
    let replied = reply.same(&Some(given));
    Ok(StepNote { replied, suits })
}

impl<R: Rep> Pass<R> {
    /// At version 0 of these given steps.
    pub(crate) fn start(alloc: Global, given: &Given<'_>, rep: R) -> Result<Pass<R>, NoMemory>
        requires few { IsFew (R.policy rep) }
        requires opening { R.policy rep ≡ given.now.opening.now }
        requires named { IsNamed tomoyo_grammar.is_path (R.policy rep) }
        requires trees { length given.now.trace.now + 1 < 2 ^ 32 }
        ensures { IfOk result (IsAt given.now) }
    {
        let editors = Editor::copy_all(given.editors, alloc)?;
        let trees = given.trace.len() as u32;
        let machine = Machine::start(alloc, rep, editors, trees, given.book.is_some())?;
        Ok(Pass {
            machine,
            version: 0,
            notes: Vec::new(alloc),
        })
    }

    #[tactic(auto, using(crate::proofs::PassLaws::one_more))]
    // The next given step is made or passed over. No more memory is told where there is none.
    fn advance(&mut self, alloc: Global, given: &Given<'_>) -> Result<(), NoMemory>
        requires { IsAt given.now self.old }
        ensures { OnOk result (IsAt given.now self.new) }
    {
        let Some((step, reply)) = given.steps.get(self.version as usize) else {
            return Err(AllocError);
        };
        let note = make_noted(alloc, given.book, &mut self.machine, step, *reply)?;
        self.notes.push(note)?;
        self.version += 1;
        Ok(())
    }

    /// The given steps are made up to this version, where it wasn't reached before.
    pub(crate) fn reach(
        &mut self,
        alloc: Global,
        given: &Given<'_>,
        version: u64,
    ) -> Result<(), NoMemory>
        requires { IsAt given.now self.old }
        ensures { OnOk result (IsAt given.now self.new) }
    {
        for place in self.version..version {
            let _ = place;
            self.advance(alloc, given)?;
        }
        Ok(())
    }

    /// What is noted of each step, where all are made.
    #[tactic(auto, using(crate::proofs::PassLaws::all_noted))]
    pub(crate) fn into_notes(
        self,
        alloc: Global,
        given: &Given<'_>,
    ) -> Result<Vec<StepNote>, NoMemory>
        requires { IsAt given.now self }
        ensures { IfOk result
            (λ notes. AreNoted (scene_of given.now) [] (history_of given.now) notes.items) }
    {
        let mut pass = self;
        let last = given.steps.len() as u64;
        pass.reach(alloc, given, last)?;
        if pass.version != last {
            return Err(AllocError);
        }
        let Pass { notes, .. } = pass;
        Ok(notes)
    }
}
