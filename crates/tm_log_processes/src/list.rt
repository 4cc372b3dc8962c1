//! The processes in the order of their making, and the domain of each.
ghost use Rattle.std.specs.Prelude.{◌≡◌, [], length, IfOk};
ghost use Rattle.tm_log_processes.specs.Lists.{at, with_process, with_domain, is_in, moved, fits, entered, is_settled, settled_in, comes_from, none_listed};

use crate::domains::leads;
use crate::process::{Process, nobody};
use std::alloc::Global;
use std::marker::Model;
use tm_list::NoMemory;
use tm_types::unions::DomainName;
use tm_word::texts_equal;

/// The processes in the order of their making, each with the domain that it is in.
#[derive(Drop)]
pub struct ProcessList {
    list: Vec<Process>,
    domains: Vec<DomainName>,
}

impl Model for ProcessList {
    ghost use Rattle.tm_log_processes.specs.Lists.{Listed};

    ghost Value = { Listed };

    ghost view = { λ s. record { processes = s.list.items; domains = s.domains.items } };
}

impl ProcessList {
    /// No process.
    pub fn new(alloc: Global) -> ProcessList
        ensures { result ≡ none_listed }
    {
        ProcessList {
            list: Vec::new(alloc),
            domains: Vec::new(alloc),
        }
    }

    /// How many there are.
    pub fn len(&self) -> usize
        ensures { result ≡ length self.now.processes }
    {
        self.list.len()
    }

    /// The process at a place.
    pub fn at(&self, p: usize) -> Process
        ensures { result ≡ at self.now p }
    {
        match self.list.get(p) {
            Some(process) => *process,
            None => nobody(),
        }
    }

    /// Puts another process in the place of one.
    pub fn put(&mut self, p: usize, process: Process)
        ensures { self.new ≡ with_process self.old p process }
    {
        if p < self.list.len() {
            self.list[p] = process;
        }
    }

    /// A process is in this domain from now on.
    pub fn put_domain(&mut self, p: usize, domain: DomainName)
        ensures { self.new ≡ with_domain self.old p domain }
    {
        if p < self.domains.len() {
            self.domains[p] = domain;
        }
    }

    /// Whether a process is in this domain.
    pub fn is_in(&self, p: usize, domain: &DomainName) -> bool
        ensures { result ≡ is_in self.now p domain.now }
    {
        match self.domains.get(p) {
            Some(own) => texts_equal(own, domain),
            None => false,
        }
    }

    /// Whether this domain is one transition further than a process whose last move was an execute.
    #[tactic(auto, unfolding(crate::specs::Lists::moved))]
    pub fn moved(&self, alloc: Global, p: usize, domain: &DomainName) -> Result<bool, NoMemory>
        ensures { IfOk result (λ found. found ≡ moved self.now p domain.now) }
    {
        match self.domains.get(p) {
            None => Ok(false),
            Some(own) => {
                if !self.at(p).is_open {
                    return Ok(false);
                }
                if texts_equal(own, domain) {
                    return Ok(false);
                }
                leads(alloc, own, domain)
            }
        }
    }

    /// Whether a process may be in this domain now.
    #[tactic(auto, unfolding(crate::specs::Lists::fits))]
    pub fn fits(&self, alloc: Global, p: usize, domain: &DomainName) -> Result<bool, NoMemory>
        ensures { IfOk result (λ found. found ≡ fits self.now p domain.now) }
    {
        if self.is_in(p, domain) {
            return Ok(true);
        }
        self.moved(alloc, p, domain)
    }

    /// One process more, which is last; its place is the answer.
    pub fn enter(&mut self, process: Process, domain: DomainName) -> Result<usize, NoMemory>
        ensures { IfOk result (λ p. entered self.old process domain ≡ (self.new, p)) }
    {
        let place = self.list.len();
        self.list.push(process)?;
        self.domains.push(domain)?;
        Ok(place)
    }

    // Whether a process is in this domain and stays there.
    fn is_settled(&self, p: usize, domain: &DomainName) -> bool
        ensures { result ≡ is_settled self.now domain.now p }
    {
        !self.at(p).is_open && self.is_in(p, domain)
    }

    /// The first process that is in this domain and stays there, its last move being no execute.
    #[tactic(auto, using(crate::proofs::Firsts::first_next, crate::proofs::Firsts::first_here), unfolding(crate::specs::Lists::settled_in))]
    pub fn settled_in(&self, domain: &DomainName) -> Option<usize>
        ensures { result ≡ settled_in self.now domain.now }
    {
        for p in 0..self.list.len() {
            if self.is_settled(p, domain) {
                return Some(p);
            }
        }
        None
    }

    /// Whether a pid is the key of the parent of a process, of that one's parent, and so on.
    #[tactic(auto, using(crate::proofs::Firsts::turn_next, crate::proofs::Firsts::turn_here, crate::proofs::Firsts::turn_none), unfolding(crate::specs::Lists::comes_from))]
    pub fn comes_from(&self, p: usize, pid: u32) -> bool
        ensures { result ≡ comes_from self.now p pid }
    {
        let mut next = self.at(p).origin.parent;
        for turn in 0..self.list.len() {
            let _ = turn;
            match next {
                None => return false,
                Some(q) => {
                    let origin = self.at(q).origin;
                    if origin.key == pid {
                        return true;
                    }
                    next = origin.parent;
                }
            }
        }
        false
    }
}
