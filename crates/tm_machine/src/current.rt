//! The state at the newest version, and what each of the nine steps does to it.
ghost use Rattle.std.specs.Prelude.{◌≡◌, ◌==◌, Some, IsSome, IfOk, OnErr};
ghost use Rattle.std.specs.List.{list_any};
ghost use Rattle.tm_rules.specs.Prelude.{IsFew, in_domain, is_manager};
ghost use Rattle.tm_rules.specs.Types.{Step};
ghost use Rattle.tm_rep.specs.Tomoyo.{tomoyo_grammar};
ghost use Rattle.tm_legal.specs.Prelude.{all_ended, opening};
ghost use Rattle.tm_machine.specs.Current.{Fits, Makes};

use std::alloc::Global;
use std::collections::BTreeSet;
use std::marker::Model;
use tm_list::{Copied, NoMemory, Seq};
use tm_query::Queries;
use tm_rep::Rep;
use tm_rep::change_domains::is_manager;
use tm_types::entry::Entry;
use tm_types::policy::{Cursor, Policy};
use tm_types::step::{EditReply, Editor, FileKind, Reply, Start, Step};
use tm_types::unions::DomainName;
use tm_word::Text;

/// An opening and the state that steps have led to: a representation of the policy, the queries,
/// each editor's cursor, and the trees that have ended. Contracts see the opening and the state.
#[derive(Drop)]
pub(crate) struct Current<R: Rep> {
    start: Start,
    rep: R,
    queries: Queries,
    cursors: Vec<Cursor>,
    ended: BTreeSet<u32>,
}

impl<R: Rep> Model for Current<R> {
    ghost use Rattle.std.specs.Prelude.{◌≡◌, length};
    ghost use Rattle.tm_rules.specs.Prelude.{IsFew};
    ghost use Rattle.tm_machine.specs.Current as now;

    ghost Value = { now.Current };

    ghost view = { λ c. now.current_of c.start
        (R.policy c.rep) c.queries c.cursors.items c.ended.keys };

    ghost invariant = { λ c. IsFew (R.policy c.rep)
        × (length c.cursors.items ≡ length c.start.editors) };
}

// Whether an editor may edit the policy.
fn may_edit(policy: &Policy, editor: &Editor) -> bool
    ensures { result ≡ is_manager policy.now editor.now }
{
    is_manager(
        policy,
        editor.domain.bytes(),
        editor.uid,
        editor.euid,
        editor.exe.bytes(),
    )
}

// The name of a domain that is there with its profile, copied.
fn name_of(alloc: Global, policy: &Policy, domain: u32) -> Result<DomainName, NoMemory>
    requires { IsSome (in_domain policy.now domain (λ domain profile. domain.name)) }
    ensures { IfOk result
        (λ name. in_domain policy.now domain (λ domain profile. domain.name) ≡ Some name) }
{
    match policy.domains.get(domain as usize) {
        Some(domain) => domain.name.copy(alloc),
        None => unreachable!(),
    }
}

// A set of numbers, copied.
fn copied_numbers(alloc: Global, numbers: &BTreeSet<u32>) -> Result<BTreeSet<u32>, NoMemory>
    ensures { IfOk result (λ copy. copy.keys ≡ numbers.now.keys) }
{
    let copy = numbers.clone()?;
    Ok(copy)
}

impl<R: Rep> Current<R> {
    /// The state at version 0.
    ///
    /// Errors: want of memory.
    pub(crate) fn open(
        alloc: Global,
        rep: R,
        editors: Vec<Editor>,
        trees: u32,
        desk: bool,
    ) -> Result<Current<R>, NoMemory>
        requires { IsFew (R.policy rep) }
        ensures start { IfOk result (λ current. current.start ≡
            record { policy = R.policy rep; editors = editors.items; trees = trees; desk = desk }) }
        ensures state { IfOk result (λ current. current.state ≡ opening current.start) }
    {
        let policy = rep.policy().copy(alloc)?;
        let cursors = Vec::from_elem(alloc, None, editors.len())?;
        let start = Start {
            policy,
            editors: Seq::from_vec(editors),
            trees,
            desk,
        };
        let queries = Queries::new(alloc);
        let ended = BTreeSet::new(alloc);
        Ok(Current {
            start,
            rep,
            queries,
            cursors,
            ended,
        })
    }

    /// An equal state, beside an equal opening.
    ///
    /// Errors: want of memory.
    pub(crate) fn copied(&self, alloc: Global) -> Result<Current<R>, NoMemory>
        ensures { IfOk result (λ current. current ≡ self.now) }
    {
        let start = self.start.copy(alloc)?;
        let rep = self.rep.copy(alloc)?;
        let queries = self.queries.copy(alloc)?;
        let cursors = Cursor::copy_all(self.cursors.as_slice(), alloc)?;
        let ended = copied_numbers(alloc, &self.ended)?;
        Ok(Current {
            start,
            rep,
            queries,
            cursors,
            ended,
        })
    }

    /// The opening, and the policy at the newest version.
    pub(crate) fn into_ends(self) -> (Start, Policy)
        ensures start { result.0 ≡ self.start }
        ensures policy { result.1 ≡ self.state.policy }
        ensures few { IsFew result.1 }
    {
        let Current { start, rep, .. } = self;
        (start, rep.into_policy())
    }

    /// Lends the opening.
    pub(crate) fn start(&self) -> &Start
        ensures { result.now ≡ self.now.start }
    {
        &self.start
    }

    /// The law of every state: its editors and its number of trees are the opening's.
    pub(crate) fn constants(&self)
        ensures editors { self.now.state.editors ≡ self.now.start.editors }
        ensures trees { self.now.state.trees ≡ self.now.start.trees }
    {
        let _ = &self.start;
    }

    /// Lends the representation of the policy.
    pub(crate) fn rep(&self) -> &R
        ensures policy { R.policy result.now ≡ self.now.state.policy }
        ensures few { IsFew (R.policy result.now) }
    {
        &self.rep
    }

    /// Lends the queries.
    pub(crate) fn queries(&self) -> &Queries
        ensures { result.now ≡ self.now.state.queries }
    {
        &self.queries
    }

    /// Whether the tree of this number has ended.
    pub(crate) fn has_ended(&self, tree: u32) -> bool
        ensures { result ≡ list_any (λ ended. ended == tree) self.now.state.ended }
    {
        self.ended.contains(&tree)
    }

    /// Whether every tree has ended.
    pub(crate) fn is_over(&self) -> bool
        ensures { result ≡ all_ended tomoyo_grammar self.now.state }
    {
        self.ended.len() as u64 == u64::from(self.start.trees)
    }

    /// Makes a step that fits, and gives its reply.
    ///
    /// Errors: want of memory; the state is then as before.
    pub(crate) fn apply(&mut self, alloc: Global, step: &Step) -> Result<Reply, NoMemory>
        requires { Fits self.old.state step.now }
        ensures done { IfOk result (Makes self.old.state step.now self.new.state) }
        ensures start { self.new.start ≡ self.old.start }
        ensures kept { OnErr result (self.new ≡ self.old) }
    {
        match step {
            Step::Learn(domain, entry) => self.learn(alloc, *domain, entry),
            Step::Make(domain, name) => self.make(alloc, *domain, name),
            Step::Fail(domain) => Ok(self.fail(*domain)),
            Step::Ask(domain, retry, line) => self.ask(alloc, *domain, *retry, line),
            Step::Answer(serial, code) => Ok(self.answer(*serial, *code)),
            Step::Attach => Ok(self.attach()),
            Step::Detach => Ok(self.detach()),
            Step::Edit(editor, file, line) => self.edit(alloc, *editor, *file, line),
            Step::End(tree) => self.end(*tree),
        }
    }

    // Learns a line in a domain.
    fn learn(&mut self, alloc: Global, domain: u32, entry: &Entry) -> Result<Reply, NoMemory>
        requires { Fits self.old.state (Step.Learn domain entry.now) }
        ensures done { IfOk result
            (Makes self.old.state (Step.Learn domain entry.now) self.new.state) }
        ensures start { self.new.start ≡ self.old.start }
        ensures kept { OnErr result (self.new ≡ self.old) }
    {
        let reply = self.rep.apply_learn(alloc, domain, entry)?;
        Ok(Reply::Learn(reply))
    }

    // Makes a domain out of a domain.
    fn make(&mut self, alloc: Global, domain: u32, name: &DomainName) -> Result<Reply, NoMemory>
        requires { Fits self.old.state (Step.Make domain name.now) }
        ensures done { IfOk result
            (Makes self.old.state (Step.Make domain name.now) self.new.state) }
        ensures start { self.new.start ≡ self.old.start }
        ensures kept { OnErr result (self.new ≡ self.old) }
    {
        let name = name.copy(alloc)?;
        let reply = self.rep.apply_make(alloc, domain, name)?;
        Ok(Reply::Make(reply))
    }

    // Marks a domain as one that a transition couldn't leave.
    fn fail(&mut self, domain: u32) -> Reply
        requires { Fits self.old.state (Step.Fail domain) }
        ensures done { Makes self.old.state (Step.Fail domain) self.new.state result }
        ensures start { self.new.start ≡ self.old.start }
    {
        let changed = self.rep.apply_fail(domain);
        Reply::Fail(changed)
    }

    // Asks the supervisor for a line in a domain.
    fn ask(
        &mut self,
        alloc: Global,
        domain: u32,
        retry: u32,
        line: &Text,
    ) -> Result<Reply, NoMemory>
        requires { Fits self.old.state (Step.Ask domain retry line.now) }
        ensures done { IfOk result
            (Makes self.old.state (Step.Ask domain retry line.now) self.new.state) }
        ensures start { self.new.start ≡ self.old.start }
        ensures kept { OnErr result (self.new ≡ self.old) }
    {
        let name = name_of(alloc, self.rep.policy(), domain)?;
        let line = line.copy(alloc)?;
        let held = self.queries.ask(name, line, retry)?;
        Ok(Reply::Ask(held))
    }

    // The supervisor answers a query.
    fn answer(&mut self, serial: u64, code: u64) -> Reply
        ensures done { Makes self.old.state (Step.Answer serial code) self.new.state result }
        ensures start { self.new.start ≡ self.old.start }
    {
        let result = self.queries.answer(serial, code);
        Reply::Answer(result.err())
    }

    // The supervisor comes.
    fn attach(&mut self) -> Reply
        ensures done { Makes self.old.state Step.Attach self.new.state result }
        ensures start { self.new.start ≡ self.old.start }
    {
        let changed = self.queries.attach();
        Reply::Attach(changed)
    }

    // The supervisor leaves.
    fn detach(&mut self) -> Reply
        ensures done { Makes self.old.state Step.Detach self.new.state result }
        ensures start { self.new.start ≡ self.old.start }
    {
        let changed = self.queries.detach();
        Reply::Detach(changed)
    }

    // An editor's line: done with its cursor where it is a manager. Editors are numbered from 1.
    fn edit(
        &mut self,
        alloc: Global,
        number: u32,
        file: FileKind,
        line: &Text,
    ) -> Result<Reply, NoMemory>
        requires { Fits self.old.state (Step.Edit number file line.now) }
        ensures done { IfOk result
            (Makes self.old.state (Step.Edit number file line.now) self.new.state) }
        ensures start { self.new.start ≡ self.old.start }
        ensures kept { OnErr result (self.new ≡ self.old) }
    {
        let place = (number - 1) as usize;
        let editor = &self.start.editors.as_slice()[place];
        if !may_edit(self.rep.policy(), editor) {
            return Ok(Reply::Edit(EditReply::NotManager));
        }
        let mut cursor = self.cursors[place];
        let reply = self.rep.apply_line(alloc, file, &mut cursor, line.bytes())?;
        self.cursors[place] = cursor;
        Ok(Reply::Edit(reply))
    }

    // A tree ends.
    fn end(&mut self, tree: u32) -> Result<Reply, NoMemory>
        requires { Fits self.old.state (Step.End tree) }
        ensures done { IfOk result (Makes self.old.state (Step.End tree) self.new.state) }
        ensures start { self.new.start ≡ self.old.start }
        ensures kept { OnErr result (self.new ≡ self.old) }
    {
        self.ended.insert(tree)?;
        Ok(Reply::End)
    }
}
