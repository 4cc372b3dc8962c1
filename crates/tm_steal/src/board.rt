//! What the workers share: the processes, the requests, and who can be asked for a process.
ghost use Rattle.std.specs.Prelude.{◌≡◌, ◌<◌, length, IfOk};

use crate::processes::{TreeProcesses, processes_of};
use crossbeam_deque::{Steal, Stealer, Worker};
use crossbeam_utils::sync::EventCount;
use std::alloc::{AllocError, Global};
use std::sync::Wait;
use std::sync::atomic::{AtomicU64, Ordering};
use std::thread::Threads;
use tm_list::NoMemory;
use tm_replay::seat::lost;
use tm_take::ProcessSituation;
use tm_types::request::{Request, Tree};

/// A process that can be played: the place of its tree, its own among the tree's processes, and
/// where it stands at its start.
#[derive(Clone, Copy, Drop)]
pub(crate) struct Job {
    pub(crate) tree: usize,
    pub(crate) process: u32,
    pub(crate) now: ProcessSituation,
}

/// What a worker has for itself: its number, from 0, the processes that it plays next, first in
/// first out, from which others steal, and the list in which it drops a request.
#[derive(Drop)]
pub(crate) struct Hand {
    pub(crate) number: u32,
    pub(crate) own: Worker<Job>,
    pub(crate) spent: Vec<Request>,
}

/// What all workers share: the trace with the processes of each tree, how many trees and how many
/// processes it has, a handle to steal from each worker, how many processes have ended, whether
/// somebody has given up, and what a worker waits for that finds no process: that there is one
/// more, that all have ended, or that somebody has given up.
#[derive(Drop)]
pub(crate) struct Board<'a> {
    pub(crate) trace: &'a [Tree],
    pub(crate) tree_processes: Vec<TreeProcesses>,
    pub(crate) trees: u32,
    pub(crate) processes: u64,
    pub(crate) stealers: Vec<Stealer<Job>>,
    pub(crate) ended: AtomicU64,
    pub(crate) given_up: AtomicU64,
    pub(crate) news: EventCount,
}

impl Board<'_> {
    /// Whether all processes have ended.
    pub(crate) fn all_ended(&self) -> bool {
        self.ended.load(Ordering::SeqCst) >= self.processes
    }

    /// A process more has ended. Who waits is told where it was the last one.
    pub(crate) fn end_one(&self) {
        self.ended.fetch_add(1, Ordering::SeqCst);
        if self.all_ended() {
            self.news.notify_all();
        }
    }

    /// Whether somebody has given up.
    pub(crate) fn is_given_up(&self) -> bool {
        self.given_up.load(Ordering::SeqCst) != 0
    }

    /// Tells the others that somebody has given up.
    pub(crate) fn give_up(&self) {
        self.given_up.store(1, Ordering::SeqCst);
        self.news.notify_all();
    }

    // A process that another worker has waiting, if one is found; whether to try again, if one may
    // have been missed.
    fn steal(&self) -> Steal<Job> {
        let mut found = Steal::Empty;
        for stealer in self.stealers.as_slice() {
            match stealer.steal() {
                Steal::Success(job) => return Steal::Success(job),
                Steal::Retry => found = Steal::Retry,
                Steal::Empty => {}
            }
        }
        found
    }

    // A process of another worker. Where none is waiting it waits for news; what has come since it
    // was announced to wait is news too.
    fn steal_or_wait<W: Wait>(&self, rt: &W) -> Option<Job> {
        let waiting = self.news.prepare_wait();
        match self.steal() {
            Steal::Success(job) => Some(job),
            Steal::Retry => None,
            Steal::Empty => {
                if !self.all_ended() && !self.is_given_up() {
                    waiting.wait(rt);
                }
                None
            }
        }
    }
}

impl Hand {
    /// The next process: the worker's own first one, or one of another. Where there is none it waits
    /// until there may be one, or all have ended, or somebody has given up.
    pub(crate) fn next_job<W: Wait>(&mut self, rt: &W, board: &Board<'_>) -> Option<Job> {
        match self.own.pop() {
            Some(job) => Some(job),
            None => board.steal_or_wait(rt),
        }
    }

    // A process more that can be played.
    fn put(&mut self, job: Job) -> Result<(), NoMemory> {
        match self.own.push(job) {
            Ok(()) => Ok(()),
            Err(_) => Err(AllocError),
        }
    }

    /// A process more that can be played, by a worker that waits for one too.
    pub(crate) fn add(&mut self, board: &Board<'_>, job: Job) -> Result<(), NoMemory> {
        self.put(job)?;
        board.news.notify_one();
        Ok(())
    }
}

// So many empty hands.
fn empty_hands(alloc: Global, workers: u32) -> Result<Vec<Hand>, NoMemory> {
    let mut hands = Vec::new(alloc);
    for number in 0..workers {
        let own = Worker::new_fifo(alloc, 64)?;
        let spent = Vec::new(alloc);
        hands.push(Hand { number, own, spent })?;
    }
    Ok(hands)
}

// A handle to steal from each of these hands.
fn stealers_of(alloc: Global, hands: &[Hand]) -> Result<Vec<Stealer<Job>>, NoMemory> {
    let mut stealers = Vec::new(alloc);
    for hand in hands {
        stealers.push(hand.own.stealer()?)?;
    }
    Ok(stealers)
}

// Deals the first process of each tree, which starts in this domain: that of the tree of number t
// goes to the worker, from 0, whose number is what t less 1 leaves, divided by the number of
// workers.
fn deal_firsts(
    trace: &[Tree],
    homes: &[Option<u32>],
    hands: &mut Vec<Hand>,
) -> Result<(), NoMemory> {
    let workers = hands.len();
    if workers == 0 {
        return Err(lost());
    }
    let mut place: usize = 0;
    for tree in trace {
        let Some(home) = homes.get(place) else {
            return Err(lost());
        };
        let job = Job {
            tree: place,
            process: 0,
            now: ProcessSituation::first(*home, tree.pid),
        };
        hands[place % workers].put(job)?;
        place += 1;
    }
    Ok(())
}

/// The board of a trace and of so many workers, whose trees start in these domains, and the
/// workers' hands, each with the first processes that are dealt to it.
///
/// Errors: want of memory.
pub(crate) fn board_of<'a, W: Threads + Sync>(
    rt: &W,
    alloc: Global,
    trace: &'a [Tree],
    homes: &[Option<u32>],
    workers: u32,
) -> Result<(Board<'a>, Vec<Hand>), NoMemory>
    requires workers { 0 < workers }
    ensures trace { IfOk result (λ r. r.0.trace.now ≡ trace.now) }
    ensures trees { IfOk result (λ r. r.0.trees ≡ length trace.now) }
{
    let Ok(trees) = u32::try_from(trace.len()) else {
        return Err(lost());
    };
    let (tree_processes, processes) = processes_of(rt, alloc, trace, workers)?;
    let mut hands = empty_hands(alloc, workers)?;
    deal_firsts(trace, homes, &mut hands)?;
    let stealers = stealers_of(alloc, hands.as_slice())?;
    let board = Board {
        trace,
        tree_processes,
        trees,
        processes: processes as u64,
        stealers,
        ended: AtomicU64::new(0),
        given_up: AtomicU64::new(0),
        news: EventCount::new(),
    };
    Ok((board, hands))
}
