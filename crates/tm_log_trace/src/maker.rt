//! Making a trace, record by record.
ghost use Rattle.std.specs.Prelude.{◌≡◌, length, IfOk, OnOk};
ghost use Rattle.tm_rules.specs.Types.{argument_words};
ghost use Rattle.tm_log_processes.specs.Forests.{has_room, in_trees};
ghost use Rattle.tm_log_trace.specs.Making.{nothing_made, warned, named, process_with, manual_request, forked, forked_at, tree_planted, first_left, put, gone_manually, next_number, warned_of_tree, start_of, parent_of, left_by, child_last, child, origin_of, has_no_parent, made_as, made, moved_on, settled, handed, again, differs, known, warned_of_thread, process_of, key_of, with_ids, executed, ends, name_ends, writes_own_domain, writing, asked, warned_of_cut, taken_as, at_source, with_invented, taken, seen};

use crate::notes::{Note, Warning};
use std::alloc::Global;
use std::collections::BTreeMap;
use std::marker::Model;
use tm_list::{Copied, NoMemory, Seq};
use tm_log::{Record, Source, Used};
use tm_log_processes::{
    Forest, Origin, Place, Places, Process, ProcessList, born, no_ids, same_ids,
};
use tm_rules::is_execute;
use tm_types::entry::Args;
use tm_types::request::{Attributes, Item, Proc, Request, Trace};
use tm_types::unions::DomainName;
use tm_word::bytes_equal;

/// The greatest pid of Linux: invented numbers are greater.
const LAST_PID: u32 = 4_194_304;

/// The trace that is being made: its lines, the processes, the places of executes, which process
/// each key means, the domain of the first record of each pid, the last number that was invented,
/// the record that is taken, and the warnings.
#[derive(Drop)]
pub(crate) struct Maker {
    forest: Forest,
    list: ProcessList,
    places: Places,
    table: BTreeMap<u32, usize>,
    firsts: BTreeMap<u32, DomainName>,
    invented: u32,
    source: Source,
    warnings: Seq<Note>,
}

/// What a record tells besides its request.
#[derive(Drop)]
struct Told {
    key: u32,
    global_pid: u32,
    process: Proc,
    domain: DomainName,
}

impl Told {
    // Whether the pid or the parent's pid are none of its own namespace, or there is no parent.
    fn has_no_parent(&self) -> bool
        ensures { result ≡ has_no_parent self.now }
    {
        self.key != self.process.pid || self.process.ppid == 0 || self.process.ppid == self.key
    }

    // Who the process is.
    fn origin(&self, number: u32, parent: Option<usize>) -> Origin
        ensures { result ≡ origin_of number self.now parent }
    {
        Origin {
            number,
            key: self.key,
            ppid: Some(self.process.ppid),
            parent,
        }
    }
}

// Whether a parent is known and another one.
fn differs(before: Option<u32>, ppid: u32) -> bool
    ensures { result ≡ differs before ppid }
{
    match before {
        None => false,
        Some(before) => before != ppid,
    }
}

// The request of a manual transition.
fn manual_request(alloc: Global, domain: DomainName) -> Result<Request, NoMemory>
    ensures { IfOk result (λ request. request ≡ manual_request domain) }
{
    Request::new(alloc, Args::Manual(domain), 0, Attributes::none(alloc))
}

// Whether a word ends like this.
fn ends(word: &[u8], end: &[u8]) -> bool
    ensures { result ≡ ends word.now end.now }
{
    word.len() >= end.len() && bytes_equal(&word[word.len() - end.len()..], end)
}

// Whether the first name of a request is that of TOMOYO's `self_domain`.
fn names_own_domain(request: &Request) -> bool
    ensures { result ≡ name_ends (argument_words request.now.args) }
{
    match request.name(0) {
        Some(name) => ends(name.bytes(), b"/tomoyo/self_domain"),
        None => false,
    }
}

// Whether a request writes or appends to TOMOYO's `self_domain`.
fn writes_own_domain(request: &Request) -> bool
    ensures { result ≡ writes_own_domain request.now }
{
    match request.args() {
        Args::Path(_) => {
            (request.perm() == 2 || request.perm() == 3) && names_own_domain(request)
        }
        Args::Execute(_, _)
        | Args::PathNumber(_, _)
        | Args::Device(_, _, _, _)
        | Args::Path2(_, _)
        | Args::Mount(_, _, _, _)
        | Args::Inet(_, _, _)
        | Args::Unix(_, _)
        | Args::Env(_)
        | Args::Manual(_) => false,
    }
}

impl Model for Maker {
    ghost use Rattle.tm_log_trace.specs.Making.{Making};

    ghost Value = { Making };

    ghost view = { λ s. record {
      forest = s.forest;
      list = s.list;
      places = s.places;
      table = s.table.entries;
      firsts = s.firsts.entries;
      invented = s.invented;
      source = s.source;
      warnings = s.warnings;
    } };
}

impl Maker {
    /// No line yet.
    pub(crate) fn new(alloc: Global) -> Maker
        ensures { result ≡ nothing_made }
    {
        Maker {
            forest: Forest::new(alloc),
            list: ProcessList::new(alloc),
            places: Places::new(alloc),
            table: BTreeMap::new(alloc),
            firsts: BTreeMap::new(alloc),
            invented: LAST_PID,
            source: Source { number: 0, line: 0 },
            warnings: Seq::new(alloc),
        }
    }

    /// Whether a record of this size has room in the trace.
    pub(crate) fn has_room(&self, size: usize) -> bool
        ensures { result ≡ has_room self.now.forest size }
    {
        self.forest.has_room(size)
    }

    /// How many trees and processes there are.
    pub(crate) fn counts(&self) -> (usize, usize)
        ensures { result ≡ (length self.now.forest.trees, length self.now.list.processes) }
    {
        (self.forest.trees(), self.list.len())
    }

    /// The trace and the warnings.
    pub(crate) fn into_trace(self) -> Result<(Trace, Seq<Note>), NoMemory>
        ensures { IfOk result (λ x. x ≡ (in_trees self.forest.trees self.forest.lines, self.warnings)) }
    {
        let Maker {
            forest,
            warnings,
            ..
        } = self;
        Ok((forest.into_trace()?, warnings))
    }

    /// Notes the domain of a record that is the first with its pid, where the pid is the global
    /// one.
    #[tactic(auto, unfolding(crate::specs::Making::seen))]
    pub(crate) fn see(&mut self, alloc: Global, one: &Record) -> Result<(), NoMemory>
        ensures { OnOk result (self.new ≡ seen self.old one.now) }
    {
        let pid = one.process.pid;
        if one.global_pid != pid {
            return Ok(());
        }
        if self.firsts.contains_key(&pid) {
            return Ok(());
        }
        self.firsts.insert(pid, one.domain.copy(alloc)?)?;
        Ok(())
    }

    fn warn(&mut self, warning: Warning) -> Result<(), NoMemory>
        ensures { OnOk result (self.new ≡ warned self.old warning) }
    {
        let source = self.source;
        self.warnings.push(Note { source, warning })
    }

    // A child that a process makes in this domain, in which both are then.
    #[tactic(auto, unfolding(crate::specs::Making::forked))]
    fn fork(
        &mut self,
        alloc: Global,
        p: usize,
        origin: Origin,
        domain: DomainName,
    ) -> Result<usize, NoMemory>
        ensures { IfOk result (λ q. forked self.old p origin domain ≡ (self.new, q)) }
    {
        let parent = self.list.at(p);
        let line = Item::Fork(parent.origin.number, origin.number);
        self.forest.add(alloc, parent.tree, line, 0)?;
        self.list.put(
            p,
            Process {
                is_open: false,
                ..parent
            },
        );
        self.list.put_domain(p, domain.copy(alloc)?);
        self.list
            .enter(born(origin, parent.tree, parent.ids), domain)
    }

    // A child that was made just before an execute in this domain.
    #[tactic(auto, unfolding(crate::specs::Making::forked_at))]
    fn fork_at(
        &mut self,
        place: Place,
        origin: Origin,
        domain: DomainName,
    ) -> Result<usize, NoMemory>
        ensures { IfOk result (λ q. forked_at self.old place origin domain ≡ (self.new, q)) }
    {
        self.forest.fork_before(place.line, origin.number)?;
        self.list.enter(born(origin, place.tree, place.ids), domain)
    }

    // A tree starts in this domain, which every policy has if it is `<kernel>`.
    fn warn_of_tree(
        &mut self,
        alloc: Global,
        origin: Origin,
        domain: &DomainName,
    ) -> Result<(), NoMemory>
        ensures { OnOk result (self.new ≡ warned_of_tree self.old origin domain.now) }
    {
        if bytes_equal(domain.bytes(), b"<kernel>") {
            return Ok(());
        }
        self.warn(Warning::Tree(origin.number, domain.copy(alloc)?))
    }

    // A tree that starts in this domain.
    #[tactic(auto, unfolding(crate::specs::Making::tree_planted))]
    fn plant(
        &mut self,
        alloc: Global,
        origin: Origin,
        domain: DomainName,
    ) -> Result<usize, NoMemory>
        ensures { IfOk result (λ q. tree_planted self.old origin domain ≡ (self.new, q)) }
    {
        let start = domain.copy(alloc)?;
        let tree = self.forest.plant(alloc, start, origin.number)?;
        self.warn_of_tree(alloc, origin, &domain)?;
        self.list.enter(born(origin, tree, no_ids()), domain)
    }

    // The place of the first execute in this domain.
    fn first_left(&self, domain: &DomainName) -> Option<Place>
        ensures { result ≡ first_left self.now.places domain.now }
    {
        self.places.at(self.places.first_in(domain)?)
    }

    // A process in a domain to which no execute leads: a child of one that is there, or once was,
    // or else a tree.
    #[tactic(auto, unfolding(crate::specs::Making::put))]
    fn put(&mut self, alloc: Global, origin: Origin, domain: DomainName) -> Result<usize, NoMemory>
        ensures { IfOk result (λ q. put self.old origin domain ≡ (self.new, q)) }
    {
        if let Some(p) = self.list.settled_in(&domain) {
            return self.fork(alloc, p, origin, domain);
        }
        if let Some(place) = self.first_left(&domain) {
            return self.fork_at(place, origin, domain);
        }
        self.plant(alloc, origin, domain)
    }

    // A process goes to this domain by a manual transition.
    #[tactic(auto, unfolding(crate::specs::Making::gone_manually))]
    fn go_manually(&mut self, alloc: Global, p: usize, domain: &DomainName) -> Result<(), NoMemory>
        ensures { OnOk result (self.new ≡ gone_manually self.old p domain.now) }
    {
        let process = self.list.at(p);
        let number = process.origin.number;
        let request = manual_request(alloc, domain.copy(alloc)?)?;
        let size = domain.len().saturating_add(30);
        self.forest
            .add(alloc, process.tree, Item::Do(number, request), size)?;
        self.list.put(
            p,
            Process {
                is_open: false,
                is_writer: false,
                ..process
            },
        );
        self.list.put_domain(p, domain.copy(alloc)?);
        self.warn(Warning::Manual(number, domain.copy(alloc)?))
    }

    // A new number.
    fn invent(&mut self) -> u32
        ensures next { result ≡ next_number self.old.invented }
        ensures made { self.new ≡ with_invented self.old }
    {
        self.invented = self.invented.saturating_add(1);
        self.invented
    }

    // The process that a key means.
    fn process_with(&self, key: u32) -> Option<usize>
        ensures { result ≡ process_with self.now key }
    {
        match self.table.get(&key) {
            Some(p) => Some(*p),
            None => None,
        }
    }

    // A key means this process from now on.
    fn name(&mut self, key: u32, p: usize) -> Result<(), NoMemory>
        ensures { OnOk result (self.new ≡ named self.old key p) }
    {
        self.table.insert(key, p)?;
        Ok(())
    }

    // The domain in which the parent of a record's process is made: that of its own first record,
    // or else the record's.
    fn start_of(&self, alloc: Global, told: &Told) -> Result<DomainName, NoMemory>
        ensures { IfOk result (λ start. start ≡ start_of self.now told.now) }
    {
        match self.firsts.get(&told.process.ppid) {
            Some(first) => first.copy(alloc),
            None => told.domain.copy(alloc),
        }
    }

    // The parent of a record's process, which is made where no record was of it yet.
    #[tactic(auto, unfolding(crate::specs::Making::parent_of))]
    fn parent_of(&mut self, alloc: Global, told: &Told) -> Result<usize, NoMemory>
        ensures { IfOk result (λ q. parent_of self.old told.now ≡ (self.new, q)) }
    {
        let ppid = told.process.ppid;
        if let Some(q) = self.process_with(ppid) {
            return Ok(q);
        }
        let start = self.start_of(alloc, told)?;
        self.warn(Warning::Parent(ppid, start.copy(alloc)?))?;
        let origin = Origin {
            number: ppid,
            key: ppid,
            ppid: None,
            parent: None,
        };
        let q = self.put(alloc, origin, start)?;
        self.name(ppid, q)?;
        Ok(q)
    }

    // The place of the last execute of a process, where it was in this domain.
    fn left_by(&self, q: usize, domain: &DomainName) -> Option<Place>
        ensures { result ≡ left_by self.now q domain.now }
    {
        match self.list.at(q).last_execute {
            None => None,
            Some(place) => {
                if self.places.is_in(place, domain) {
                    self.places.at(place)
                } else {
                    None
                }
            }
        }
    }

    // A child of a process that isn't in its domain now.
    fn late_child(
        &mut self,
        alloc: Global,
        q: usize,
        origin: Origin,
        domain: DomainName,
    ) -> Result<usize, NoMemory>
        ensures { IfOk result (λ p. child_last (left_by self.old q domain) self.old q origin domain ≡ (self.new, p)) }
    {
        if let Some(place) = self.left_by(q, &domain) {
            return self.fork_at(place, origin, domain);
        }
        if self.list.at(q).is_writer {
            self.go_manually(alloc, q, &domain)?;
            return self.fork(alloc, q, origin, domain);
        }
        self.warn(Warning::Start(origin.number, domain.copy(alloc)?))?;
        self.put(alloc, origin, domain)
    }

    // A child of a process, which is in this domain.
    #[tactic(auto, unfolding(crate::specs::Making::child))]
    fn child(
        &mut self,
        alloc: Global,
        q: usize,
        origin: Origin,
        domain: DomainName,
    ) -> Result<usize, NoMemory>
        ensures { IfOk result (λ p. child self.old q origin domain ≡ (self.new, p)) }
    {
        if !self.list.at(q).is_open && self.list.is_in(q, &domain) {
            return self.fork(alloc, q, origin, domain);
        }
        if self.list.moved(alloc, q, &domain)? {
            return self.fork(alloc, q, origin, domain);
        }
        self.late_child(alloc, q, origin, domain)
    }

    // A process with this number, not yet under its key.
    #[tactic(auto, unfolding(crate::specs::Making::made_as))]
    fn make_as(&mut self, alloc: Global, number: u32, told: &Told) -> Result<usize, NoMemory>
        ensures { IfOk result (λ p. made_as self.old number told.now ≡ (self.new, p)) }
    {
        let domain = told.domain.copy(alloc)?;
        if told.has_no_parent() {
            return self.put(alloc, told.origin(number, None), domain);
        }
        let q = self.parent_of(alloc, told)?;
        self.child(alloc, q, told.origin(number, Some(q)), domain)
    }

    // A process with this number, which its record names by the key.
    #[tactic(auto, unfolding(crate::specs::Making::made))]
    fn make(&mut self, alloc: Global, number: u32, told: &Told) -> Result<usize, NoMemory>
        ensures { IfOk result (λ p. made self.old number told.now ≡ (self.new, p)) }
    {
        let p = self.make_as(alloc, number, told)?;
        self.name(told.key, p)?;
        Ok(p)
    }

    // Another process goes on for one.
    #[tactic(auto, unfolding(crate::specs::Making::moved_on))]
    fn move_on(&mut self, alloc: Global, p: usize, told: &Told) -> Result<usize, NoMemory>
        ensures { IfOk result (λ q. moved_on self.old p told.now ≡ (self.new, q)) }
    {
        let process = self.list.at(p);
        let number = self.invent();
        let warning = Warning::Move(
            process.origin.number,
            told.domain.copy(alloc)?,
            number,
            process.was_refused,
        );
        self.warn(warning)?;
        let origin = Origin {
            number,
            ..process.origin
        };
        let next = self.put(alloc, origin, told.domain.copy(alloc)?)?;
        self.name(told.key, next)?;
        Ok(next)
    }

    // A process goes on in the domain of its record: it is there, or goes there, or another one
    // goes on for it.
    #[tactic(auto, unfolding(crate::specs::Making::settled))]
    fn settle(&mut self, alloc: Global, p: usize, told: &Told) -> Result<usize, NoMemory>
        ensures { IfOk result (λ q. settled self.old p told.now ≡ (self.new, q)) }
    {
        if self.list.fits(alloc, p, &told.domain)? {
            let process = self.list.at(p);
            let domain = told.domain.copy(alloc)?;
            self.list.put(
                p,
                Process {
                    is_open: false,
                    ..process
                },
            );
            self.list.put_domain(p, domain);
            return Ok(p);
        }
        if self.list.at(p).is_writer {
            self.go_manually(alloc, p, &told.domain)?;
            return Ok(p);
        }
        self.move_on(alloc, p, told)
    }

    // The parent of a process is this one from now on.
    fn hand(&mut self, p: usize, ppid: u32)
        ensures { self.new ≡ handed self.old p ppid }
    {
        let process = self.list.at(p);
        let origin = Origin {
            ppid: Some(ppid),
            ..process.origin
        };
        self.list.put(p, Process { origin, ..process });
    }

    // The pid of a record is used again.
    #[tactic(auto, unfolding(crate::specs::Making::again))]
    fn use_again(&mut self, alloc: Global, told: &Told) -> Result<usize, NoMemory>
        ensures { IfOk result (λ q. again self.old told.now ≡ (self.new, q)) }
    {
        let number = self.invent();
        self.warn(Warning::Again(told.key, number))?;
        self.make(alloc, number, told)
    }

    // The process of a record whose key is known.
    #[tactic(auto, unfolding(crate::specs::Making::known))]
    fn known(&mut self, alloc: Global, p: usize, told: &Told) -> Result<usize, NoMemory>
        ensures { IfOk result (λ q. known self.old p told.now ≡ (self.new, q)) }
    {
        if told.key != told.global_pid {
            return self.settle(alloc, p, told);
        }
        let ppid = told.process.ppid;
        let origin = self.list.at(p).origin;
        if !differs(origin.ppid, ppid) {
            self.hand(p, ppid);
            return self.settle(alloc, p, told);
        }
        if ppid != 1 && !self.list.comes_from(p, ppid) {
            return self.use_again(alloc, told);
        }
        self.warn(Warning::Handed(origin.number, ppid))?;
        self.hand(p, ppid);
        self.settle(alloc, p, told)
    }

    // A thread of a process that wasn't seen, or a process of another pid namespace.
    fn warn_of_thread(&mut self, told: &Told) -> Result<(), NoMemory>
        ensures { OnOk result (self.new ≡ warned_of_thread self.old told.now) }
    {
        let pid = told.process.pid;
        if told.key == pid {
            return Ok(());
        }
        self.warn(Warning::Thread(told.global_pid, pid, told.key))
    }

    // The process of a record.
    #[tactic(auto, unfolding(crate::specs::Making::process_of))]
    fn process_of(&mut self, alloc: Global, told: &Told) -> Result<usize, NoMemory>
        ensures { IfOk result (λ q. process_of self.old told.now ≡ (self.new, q)) }
    {
        if let Some(p) = self.process_with(told.key) {
            return self.known(alloc, p, told);
        }
        self.warn_of_thread(told)?;
        self.make(alloc, told.key, told)
    }

    // The key of a record: its pid, or its global pid where the pid is one of another pid namespace
    // or of a process that wasn't seen.
    #[tactic(auto, unfolding(crate::specs::Making::key_of))]
    fn key_of(&self, alloc: Global, one: &Record) -> Result<u32, NoMemory>
        ensures { IfOk result (λ key. key ≡ key_of self.now one.now) }
    {
        let pid = one.process.pid;
        if pid == one.global_pid {
            return Ok(pid);
        }
        match self.process_with(pid) {
            None => Ok(one.global_pid),
            Some(p) => {
                if self.list.fits(alloc, p, &one.domain)? {
                    Ok(pid)
                } else {
                    Ok(one.global_pid)
                }
            }
        }
    }

    // The ids of a record, where its process has others.
    #[tactic(auto, unfolding(crate::specs::Making::with_ids))]
    fn set_ids(&mut self, alloc: Global, p: usize, told: &Told) -> Result<(), NoMemory>
        ensures { OnOk result (self.new ≡ with_ids self.old p told.now) }
    {
        let process = self.list.at(p);
        let ids = told.process.ids;
        if same_ids(process.ids, ids) {
            return Ok(());
        }
        let line = Item::Ids(process.origin.number, ids);
        self.forest.add(alloc, process.tree, line, 0)?;
        self.list.put(p, Process { ids, ..process });
        Ok(())
    }

    // An execute of a process is its last one, and was its last move unless it was refused.
    #[tactic(auto, unfolding(crate::specs::Making::executed))]
    fn execute(
        &mut self,
        alloc: Global,
        p: usize,
        line: usize,
        refused: bool,
        domain: &DomainName,
    ) -> Result<(), NoMemory>
        ensures { OnOk result (self.new ≡ executed self.old p line refused domain.now) }
    {
        let process = self.list.at(p);
        let last_execute = Some(self.places.len());
        let place = Place {
            line,
            tree: process.tree,
            ids: process.ids,
        };
        self.places.push(place, domain.copy(alloc)?)?;
        self.list.put(
            p,
            Process {
                last_execute,
                was_refused: refused,
                is_open: process.is_open || !refused,
                is_writer: process.is_writer && refused,
                ..process
            },
        );
        Ok(())
    }

    // A process wrote to `self_domain`.
    fn write(&mut self, p: usize)
        ensures { self.new ≡ writing self.old p }
    {
        let process = self.list.at(p);
        self.list.put(
            p,
            Process {
                is_writer: true,
                ..process
            },
        );
    }

    // The request of a record, and what it does to its process.
    #[tactic(auto, unfolding(crate::specs::Making::asked))]
    fn ask(
        &mut self,
        alloc: Global,
        p: usize,
        told: &Told,
        request: Request,
        size: usize,
        refused: bool,
    ) -> Result<(), NoMemory>
        ensures { OnOk result (self.new ≡ asked self.old p told.now request size refused) }
    {
        let process = self.list.at(p);
        let executes = is_execute(&request);
        let writes = writes_own_domain(&request);
        let line = self.forest.lines();
        let item = Item::Do(process.origin.number, request);
        self.forest.add(alloc, process.tree, item, size)?;
        if executes {
            return self.execute(alloc, p, line, refused, &told.domain);
        }
        if writes && !refused {
            self.write(p);
        }
        Ok(())
    }

    fn warn_of_cut(&mut self, cut: bool) -> Result<(), NoMemory>
        ensures { OnOk result (self.new ≡ warned_of_cut self.old cut) }
    {
        if cut {
            self.warn(Warning::Arguments)
        } else {
            Ok(())
        }
    }

    // What a record tells, under this key.
    fn take_record(
        &mut self,
        alloc: Global,
        key: u32,
        one: Record,
        size: usize,
    ) -> Result<(), NoMemory>
        ensures { OnOk result (self.new ≡ taken_as self.old key one size) }
    {
        let Record {
            global_pid,
            process,
            domain,
            request,
            refused,
            cut,
        } = one;
        let told = Told {
            key,
            global_pid,
            process,
            domain,
        };
        let p = self.process_of(alloc, &told)?;
        self.set_ids(alloc, p, &told)?;
        self.ask(alloc, p, &told, request, size, refused)?;
        self.warn_of_cut(cut)
    }

    // The record that is taken is this one.
    fn begin(&mut self, source: Source)
        ensures { self.new ≡ at_source self.old source }
    {
        self.source = source;
    }

    /// One record more.
    #[tactic(auto, unfolding(crate::specs::Making::taken))]
    pub(crate) fn take(&mut self, alloc: Global, used: Used) -> Result<(), NoMemory>
        ensures { OnOk result (self.new ≡ taken self.old used) }
    {
        let Used {
            source,
            record,
            size,
        } = used;
        self.begin(source);
        let key = self.key_of(alloc, &record)?;
        self.take_record(alloc, key, record, size)
    }
}
