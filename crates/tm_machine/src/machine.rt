//! The machine: a state on its way from an opening, with the steps that were made.
ghost use Rattle.std.specs.Prelude.{◌≡◌, ◌<◌, ◌+◌, [], ◌∷◌, ◌++◌, ◌||◌, ◌==◌, IsSome, IfOk, OnOk, OnErr, length, map, vec_len, vec_capacity, if◌then◌else◌};
ghost use Rattle.std.specs.List.{list_any};
ghost use Rattle.std.specs.Option.{option_copied};
ghost use Rattle.tm_rules.specs.Types.{Made, Reply};
ghost use Rattle.tm_rules.specs.Prelude.{IsFew, answer_of, first_query, numbered};
ghost use Rattle.tm_rep.specs.Tomoyo.{tomoyo_grammar};
ghost use Rattle.tm_legal.specs.Prelude.{Replies, after, all_ended, apply, is_answer, is_attach, opening, reply_at};
ghost use Rattle.tm_machine.specs.Current.{Fits, Makes};
ghost use Rattle.tm_machine.specs.Fitting.{fits_now};
ghost use Rattle.tm_machine.specs.Machine.{course_from, history_of, steps_made, made_at, has_come, answers_given, LeavesDomains, LeavesAllRefused};

use crate::current::Current;
use std::alloc::Global;
use std::marker::Model;
use tm_list::{Copied, NoMemory, Seq};
use tm_rep::Rep;
use tm_types::policy::Policy;
use tm_types::step::{Answered, Editor, Made, Query, Reply, Start, Step};

/// A machine: an opening, and the steps that were made since, each with its maker and its reply.
/// The step of number n leads from version n - 1 to version n. Contracts see the opening, the state
/// at the newest version, and the steps.
#[derive(Drop)]
pub struct Machine<R: Rep> {
    current: Current<R>,
    made: Vec<(Made, Reply)>,
    came: bool,
    answers: u64,
}

impl<R: Rep> Model for Machine<R> {
    ghost use Rattle.tm_machine.specs.Machine.{Course, IsKept};

    ghost Value = { Course };

    ghost view = { λ m. record {
      start = m.current.start;
      state = m.current.state;
      made = m.made.items;
    } };

    ghost invariant = { λ m. IsKept
        (record { start = m.current.start; state = m.current.state; made = m.made.items })
        m.came m.answers };
}

// What the number of a step, from 1, names among the steps made.
fn numbered(made: &[(Made, Reply)], number: u64) -> Option<&(Made, Reply)>
    ensures { option_copied result ≡ numbered made.now number }
{
    if number == 0 {
        return None;
    }
    made.get((number - 1) as usize)
}

// Whether the supervisor has come, with this step.
fn comes(came: bool, step: &Step) -> bool
    ensures { result ≡ (came || is_attach step.now) }
{
    match step {
        Step::Attach => true,
        _ => came,
    }
}

// 1 for an answer of the supervisor, else 0.
fn count_answer(step: &Step) -> u64
    ensures { result ≡ (if is_answer step.now then 1 else 0) }
{
    match step {
        Step::Answer(..) => 1,
        _ => 0,
    }
}

// The steps with their replies, moved out of these, whose makers are dropped.
fn without_makers(alloc: Global, made: Vec<(Made, Reply)>) -> Result<Vec<(Step, Reply)>, NoMemory>
    ensures { IfOk result
        (λ steps. steps.items ≡ map (λ (pair : Made × Reply). (pair.0.step, pair.1)) made.items) }
{
    let mut steps = Vec::with_capacity(alloc, made.len())?;
    for (noted, reply) in made {
        let Made { step, .. } = noted;
        steps.push((step, reply))?;
    }
    Ok(steps)
}

// Makes a step where one more can be noted, and gives its reply.
fn apply_with_room<R: Rep>(
    alloc: Global,
    current: &mut Current<R>,
    noted: &mut Vec<(Made, Reply)>,
    step: &Step,
) -> Result<Reply, NoMemory>
    requires fits { Fits current.old.state step.now }
    ensures done { IfOk result (Makes current.old.state step.now current.new.state) }
    ensures start { current.new.start ≡ current.old.start }
    ensures items { noted.new.items ≡ noted.old.items }
    ensures len { vec_len noted.new ≡ vec_len noted.old }
    ensures room { OnOk result (vec_len noted.new < vec_capacity noted.new) }
    ensures kept { OnErr result (current.new ≡ current.old) }
{
    noted.reserve(1)?;
    current.apply(alloc, step)
}

// Makes a step, and notes it with its maker and its reply, which it gives.
fn note<R: Rep>(
    alloc: Global,
    current: &mut Current<R>,
    noted: &mut Vec<(Made, Reply)>,
    made: Made,
) -> Result<Reply, NoMemory>
    requires fits { Fits current.old.state made.step }
    ensures done { IfOk result (Makes current.old.state made.step current.new.state) }
    ensures noted { IfOk result (λ reply. noted.new.items ≡ noted.old.items ++ (made, reply) ∷ []) }
    ensures len { OnOk result (vec_len noted.new ≡ vec_len noted.old + 1) }
    ensures start { current.new.start ≡ current.old.start }
    ensures kept { OnErr result
        ((current.new ≡ current.old) × (noted.new.items ≡ noted.old.items)) }
{
    match apply_with_room(alloc, current, noted, &made.step) {
        Ok(reply) => {
            noted.push((made, reply))?;
            Ok(reply)
        }
        Err(fault) => {
            drop(made);
            Err(fault)
        }
    }
}

impl<R: Rep> Machine<R> {
    /// A machine at version 0: its opening is the representation's policy, with these editors, so
    /// many trees, and a supervisor or none.
    ///
    /// Errors: want of memory.
    pub fn start(
        alloc: Global,
        rep: R,
        editors: Vec<Editor>,
        trees: u32,
        desk: bool,
    ) -> Result<Machine<R>, NoMemory>
        requires { IsFew (R.policy rep) }
        ensures { IfOk result (λ machine. machine ≡
            course_from (record {
              policy = R.policy rep;
              editors = editors.items;
              trees = trees;
              desk = desk;
            })) }
    {
        let current = Current::open(alloc, rep, editors, trees, desk)?;
        let made = Vec::new(alloc);
        Ok(Machine {
            current,
            made,
            came: false,
            answers: 0,
        })
    }

    /// Lends the policy at the newest version. Takes no memory.
    pub fn policy(&self) -> &Policy
        ensures { result.now ≡ self.now.state.policy }
    {
        self.current.rep().policy()
    }

    /// Lends the representation of the policy at the newest version, to be searched. Takes no
    /// memory.
    pub fn rep(&self) -> &R
        ensures policy { R.policy result.now ≡ self.now.state.policy }
        ensures few { IsFew (R.policy result.now) }
    {
        self.current.rep()
    }

    /// Lends the opening. Takes no memory.
    pub fn opening(&self) -> &Start
        ensures { result.now ≡ self.now.start }
    {
        self.current.start()
    }

    /// The newest version: how many steps were made. Takes no memory.
    pub fn version(&self) -> u64
        ensures { result ≡ length self.now.made }
    {
        self.made.len() as u64
    }

    /// The step of that number with its maker, the first has number 1; None exactly outside the
    /// steps. Takes no memory.
    pub fn step_at(&self, number: u64) -> Option<&Made>
        ensures { option_copied result ≡ made_at self.now number }
    {
        match numbered(self.made.as_slice(), number) {
            Some((made, _)) => Some(made),
            None => None,
        }
    }

    /// The reply of the step of that number, the first has number 1; None exactly outside the
    /// steps. Takes no memory.
    pub fn reply(&self, number: u64) -> Option<Reply>
        ensures { result ≡ reply_at (history_of self.now) number }
    {
        match numbered(self.made.as_slice(), number) {
            Some((_, reply)) => Some(*reply),
            None => None,
        }
    }

    /// What became of the query of this serial; None where it is held, or the serial was never
    /// drawn. Takes no memory.
    pub fn answer_of(&self, serial: u64) -> Option<Answered>
        ensures { result ≡ answer_of self.now.state.queries serial }
    {
        self.current.queries().answer_of(serial)
    }

    /// Lends the held query with the least serial; None where no query is held. Takes no memory.
    pub fn first_query(&self) -> Option<&Query>
        ensures { option_copied result ≡ first_query self.now.state.queries }
    {
        self.current.queries().first()
    }

    /// Whether a supervisor is attached. Takes no memory.
    pub fn attached(&self) -> bool
        ensures { result ≡ self.now.state.queries.attached }
    {
        self.current.queries().attached()
    }

    /// Whether some step was the supervisor's coming, the Attach. Takes no memory.
    pub fn came(&self) -> bool
        ensures { result ≡ has_come self.now }
    {
        self.came
    }

    /// How many steps were answers of the supervisor, each an Answer. Takes no memory.
    pub fn answers(&self) -> u64
        ensures { result ≡ answers_given self.now }
    {
        self.answers
    }

    /// Whether the tree of this number, from 1, has ended. Takes no memory.
    pub fn has_ended(&self, tree: u32) -> bool
        ensures { result ≡ list_any (λ ended. ended == tree) self.now.state.ended }
    {
        self.current.has_ended(tree)
    }

    /// Whether every tree has ended. Takes no memory.
    pub fn over(&self) -> bool
        ensures { result ≡ all_ended tomoyo_grammar self.now.state }
    {
        self.current.is_over()
    }

    /// The law of every machine: its state is that after its steps from its opening, each reply is
    /// the one that its step has at its place, and the editors and the number of trees stay the
    /// opening's.
    pub fn versions(&self)
        ensures after { self.now.state
            ≡ after tomoyo_grammar (opening self.now.start) (steps_made self.now) }
        ensures replies { Replies tomoyo_grammar (opening self.now.start) (history_of self.now) }
        ensures editors { self.now.state.editors ≡ self.now.start.editors }
        ensures trees { self.now.state.trees ≡ self.now.start.trees }
    {
        self.current.constants();
    }

    /// Whether a step fits: whether it would have a reply at the newest version.
    ///
    /// Errors: want of memory, which a Learn alone takes.
    pub fn fits(&self, alloc: Global, step: &Step) -> Result<bool, NoMemory>
        ensures { IfOk result (λ fits. fits ≡ fits_now self.now.state step.now) }
    {
        self.current.fits(alloc, step)
    }

    /// Makes the step of this maker, and gives its reply: a Learn, a Make, a Fail, an Ask, an
    /// Answer, an Attach, a Detach, an Edit or an End. The step fits, that is, it has a reply. A
    /// refused step is a step too: it leaves what its reply says.
    ///
    /// Errors: want of memory; the machine is then as before.
    pub fn settle(&mut self, alloc: Global, made: Made) -> Result<Reply, NoMemory>
        requires fits { IsSome (apply tomoyo_grammar self.old.state made.step).reply }
        ensures done { IfOk result (λ reply. apply tomoyo_grammar self.old.state made.step ≡
            record { state = self.new.state; reply = Some reply }) }
        ensures made { IfOk result (λ reply. self.new.made ≡ self.old.made ++ (made, reply) ∷ []) }
        ensures start { self.new.start ≡ self.old.start }
        ensures domains { OnOk result
            (LeavesDomains self.old.state made.step self.new.state) }
        ensures refused { OnOk result
            (LeavesAllRefused self.old.state made.step self.new.state) }
        ensures kept { OnErr result (self.new ≡ self.old) }
    {
        let came = comes(self.came, &made.step);
        let answers = count_answer(&made.step);
        let reply = note(alloc, &mut self.current, &mut self.made, made)?;
        self.came = came;
        self.answers += answers;
        Ok(reply)
    }

    /// An equal machine.
    ///
    /// Errors: want of memory.
    pub fn copied(&self, alloc: Global) -> Result<Machine<R>, NoMemory>
        ensures { IfOk result (λ machine. machine ≡ self.now) }
    {
        let current = self.current.copied(alloc)?;
        let made = <(Made, Reply)>::copy_all(self.made.as_slice(), alloc)?;
        Ok(Machine {
            current,
            made,
            came: self.came,
            answers: self.answers,
        })
    }

    /// The steps with their replies, copied, so that the machine can go on.
    ///
    /// Errors: want of memory.
    pub fn history(&self, alloc: Global) -> Result<Seq<(Step, Reply)>, NoMemory>
        ensures { IfOk result (λ steps. steps ≡ history_of self.now) }
    {
        let mut steps = Seq::new(alloc);
        for (made, reply) in &self.made {
            steps.push((made.step.copy(alloc)?, *reply))?;
        }
        Ok(steps)
    }

    /// Gives up the machine: its steps with their replies, none of which is copied, its opening,
    /// and the policy at the newest version, whose representation is dropped.
    ///
    /// Errors: want of memory.
    pub fn into_history(
        self,
        alloc: Global,
    ) -> Result<(Seq<(Step, Reply)>, Start, Policy), NoMemory>
        ensures steps { IfOk result (λ ended. ended.0 ≡ history_of self) }
        ensures start { IfOk result (λ ended. ended.1 ≡ self.start) }
        ensures policy { IfOk result (λ ended. ended.2 ≡ self.state.policy) }
        ensures few { IfOk result (λ ended. IsFew ended.2) }
    {
        let Machine { current, made, .. } = self;
        let (start, policy) = current.into_ends();
        let steps = without_makers(alloc, made)?;
        Ok((Seq::from_vec(steps), start, policy))
    }
}
