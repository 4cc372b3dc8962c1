//! A worker: its own processes, and those that it steals, until all have ended.
ghost use Rattle.std.specs.Prelude.{◌≡◌, [], true, Some, IfOk, OnOk};
ghost use Rattle.tm_rules.specs.Types.{Start};
ghost use Rattle.tm_rules.specs.Prelude.{is_request};
ghost use Rattle.tm_replay.specs.Tomoyo.{tomoyo_grammar};
ghost use Rattle.tm_steal_rows.specs.Records.{request_at};
ghost use Rattle.tm_replay.specs.SeatSeats.{Begins};
ghost use Rattle.tm_replay.specs.Parts.{CanBegin};
ghost use Rattle.tm_steal.specs.Boards.{IsBoard, GoesOn, GoesOnWith};

use crate::board::{Board, Hand, Job};
use crate::processes::{Process, TreeProcesses};
use std::alloc::{AllocError, Global};
use std::sync::Wait;
use tm_list::{Copied, NoMemory};
use tm_replay::seat::{Seat, Work, lost};
use tm_steal_rows::{
    Played, PlayedProcess, PlayedTake, RecordPlace, end_trees, play_at, record_at,
    records_can_be_asked, workers_steal_on,
};
use tm_take::ProcessSituation;
use tm_types::request::{Item, Request};

// The request at a place, which the trace and whoever plays it have together, since any worker may
// need it.
fn request_of(
    board: &Board<'_>,
    alloc: Global,
    place: RecordPlace,
    request: &Request,
) -> Result<Request, NoMemory>
    requires board { (start : Start) × IsBoard start board.now }
    requires there { request_at board.now.trace.now place ≡ Some request.now }
    ensures same { IfOk result (λ copied. copied ≡ request.now) }
    ensures asked { IfOk result (λ copied. is_request tomoyo_grammar.is_path copied ≡ true) }
{
    records_can_be_asked();
    request.copy(alloc)
}

// The request at a place, whose process stands here: its take, and the domain after it.
fn play_request<S: Seat>(
    board: &Board<'_>,
    seat: &mut S,
    alloc: Global,
    place: RecordPlace,
    request: &Request,
    now: ProcessSituation,
    spent: &mut Vec<Request>,
    takes: &mut Vec<PlayedTake>,
) -> Result<u32, NoMemory>
    requires can { CanBegin (S.opening seat.old) }
    requires board { IsBoard (S.opening seat.old) board.now }
    requires there { request_at board.now.trace.now place ≡ Some request.now }
    ensures steals { OnOk result (GoesOnWith (S.opening seat.old) board.now.trace.now now.process.pid
        (S.at seat.old) (S.own seat.old) takes.old.items (S.at seat.new) (S.own seat.new) takes.new.items) }
    ensures opening { S.opening seat.new ≡ S.opening seat.old }
    ensures grows { Begins (S.at seat.old) (S.at seat.new) }
{
    let Some(domain) = now.domain else {
        return Err(lost());
    };
    let request = request_of(board, alloc, place, request)?;
    let Some(taken) = play_at(seat, alloc, place, now, domain, request, spent)? else {
        return Err(lost());
    };
    let after = taken.take.after();
    takes.push(taken)?;
    Ok(after)
}

// The record at a place, whose process stands here, and where it stands afterwards. Where the record
// is a fork, the child's process is the one at this place among those of the tree.
fn pass_record<S: Seat>(
    board: &Board<'_>,
    seat: &mut S,
    alloc: Global,
    hand: &mut Hand,
    tree: usize,
    place: RecordPlace,
    child: u32,
    now: ProcessSituation,
    takes: &mut Vec<PlayedTake>,
) -> Result<ProcessSituation, NoMemory>
    requires can { CanBegin (S.opening seat.old) }
    requires board { IsBoard (S.opening seat.old) board.now }
    ensures steals { OnOk result (GoesOnWith (S.opening seat.old) board.now.trace.now now.process.pid
        (S.at seat.old) (S.own seat.old) takes.old.items (S.at seat.new) (S.own seat.new) takes.new.items) }
    ensures pid { IfOk result (λ after. after.process.pid ≡ now.process.pid) }
    ensures opening { S.opening seat.new ≡ S.opening seat.old }
    ensures grows { Begins (S.at seat.old) (S.at seat.new) }
{
    let Some(item) = record_at(board.trace, place) else {
        return Err(lost());
    };
    match item {
        Item::Ids(_, ids) => Ok(now.with_ids(*ids)),
        Item::Fork(_, pid) => {
            let child = Job {
                tree,
                process: child,
                now: now.forked(*pid),
            };
            hand.add(board, child)?;
            Ok(now)
        }
        Item::Do(_, request) => {
            let spent = &mut hand.spent;
            let after = play_request(board, seat, alloc, place, request, now, spent, takes)?;
            let ProcessSituation { process, floor, .. } = now;
            Ok(ProcessSituation {
                process,
                domain: Some(after),
                floor,
            })
        }
    }
}

// The takes of a process, which is one of the tree at this place: its records, one after another.
// Each child can be played as soon as it is forked.
fn play_records<S: Seat>(
    board: &Board<'_>,
    seat: &mut S,
    alloc: Global,
    hand: &mut Hand,
    job: Job,
    tree: &TreeProcesses,
    process: Process,
) -> Result<Vec<PlayedTake>, NoMemory>
    requires can { CanBegin (S.opening seat.old) }
    requires board { IsBoard (S.opening seat.old) board.now }
    ensures steals { IfOk result (λ takes. GoesOnWith (S.opening seat.old) board.now.trace.now
        job.now.process.pid (S.at seat.old) (S.own seat.old) [] (S.at seat.new) (S.own seat.new) takes.items) }
    ensures opening { S.opening seat.new ≡ S.opening seat.old }
    ensures grows { Begins (S.at seat.old) (S.at seat.new) }
{
    let Ok(before) = u32::try_from(job.tree) else {
        return Err(lost());
    };
    let number = before.saturating_add(1);
    let mut now = job.now;
    let mut takes = Vec::with_capacity(alloc, process.records as usize)?;
    let mut item = process.first;
    for _line in 0..process.records {
        let Some(link) = tree.link_of(item) else {
            return Err(lost());
        };
        let place = RecordPlace { tree: number, item };
        let child = link.child;
        now = pass_record(
            board, seat, alloc, hand, job.tree, place, child, now, &mut takes,
        )?;
        item = link.next;
    }
    Ok(takes)
}

// A process, from its first record to its last.
fn play_process<S: Seat>(
    board: &Board<'_>,
    seat: &mut S,
    alloc: Global,
    hand: &mut Hand,
    job: Job,
    played: &mut Vec<Played>,
) -> Result<(), NoMemory>
    requires can { CanBegin (S.opening seat.old) }
    requires board { IsBoard (S.opening seat.old) board.now }
    ensures steals { OnOk result (GoesOn (S.opening seat.old) board.now.trace.now
        (S.at seat.old) (S.own seat.old) played.old.items (S.at seat.new) (S.own seat.new) played.new.items) }
    ensures opening { S.opening seat.new ≡ S.opening seat.old }
    ensures grows { Begins (S.at seat.old) (S.at seat.new) }
{
    let Some(tree) = board.tree_processes.get(job.tree) else {
        return Err(lost());
    };
    let Some(process) = tree.all.get(job.process as usize) else {
        return Err(lost());
    };
    let takes = play_records(board, seat, alloc, hand, job, tree, *process)?;
    played.push(Played::Process(PlayedProcess {
        place: tree.before.saturating_add(job.process as usize),
        pid: job.now.process.pid,
        takes,
    }))?;
    Ok(())
}

// The next process, if there is one, now or when this has waited for it.
fn play_next<S: Seat, W: Wait>(
    board: &Board<'_>,
    rt: &W,
    seat: &mut S,
    alloc: Global,
    hand: &mut Hand,
    played: &mut Vec<Played>,
) -> Result<(), NoMemory>
    requires can { CanBegin (S.opening seat.old) }
    requires board { IsBoard (S.opening seat.old) board.now }
    ensures steals { OnOk result (GoesOn (S.opening seat.old) board.now.trace.now
        (S.at seat.old) (S.own seat.old) played.old.items (S.at seat.new) (S.own seat.new) played.new.items) }
    ensures opening { S.opening seat.new ≡ S.opening seat.old }
    ensures grows { Begins (S.at seat.old) (S.at seat.new) }
{
    if let Some(job) = hand.next_job(rt, board) {
        play_process(board, seat, alloc, hand, job, played)?;
        board.end_one();
    }
    Ok(())
}

// Processes, until all have ended, or somebody has given up.
fn play_all<S: Seat, W: Wait>(
    board: &Board<'_>,
    rt: &W,
    seat: &mut S,
    alloc: Global,
    hand: &mut Hand,
    played: &mut Vec<Played>,
) -> Result<(), NoMemory>
    requires can { CanBegin (S.opening seat.old) }
    requires board { IsBoard (S.opening seat.old) board.now }
    ensures steals { OnOk result (GoesOn (S.opening seat.old) board.now.trace.now
        (S.at seat.old) (S.own seat.old) played.old.items (S.at seat.new) (S.own seat.new) played.new.items) }
    ensures opening { S.opening seat.new ≡ S.opening seat.old }
    ensures grows { Begins (S.at seat.old) (S.at seat.new) }
{
    for _ in rt.forever() {
        if board.all_ended() {
            return Ok(());
        }
        if board.is_given_up() {
            return Err(AllocError);
        }
        play_next(board, rt, seat, alloc, hand, played)?;
    }
    unreachable!()
}

// All that a worker does; the first one ends the trees.
fn play_hand<S: Seat, W: Wait>(
    board: &Board<'_>,
    rt: &W,
    seat: &mut S,
    alloc: Global,
    hand: &mut Hand,
    supervised: bool,
    played: &mut Vec<Played>,
) -> Result<(), NoMemory>
    requires can { CanBegin (S.opening seat.old) }
    requires board { IsBoard (S.opening seat.old) board.now }
    ensures steals { OnOk result (GoesOn (S.opening seat.old) board.now.trace.now
        (S.at seat.old) (S.own seat.old) played.old.items (S.at seat.new) (S.own seat.new) played.new.items) }
    ensures opening { S.opening seat.new ≡ S.opening seat.old }
    ensures grows { Begins (S.at seat.old) (S.at seat.new) }
{
    play_all(board, rt, seat, alloc, hand, played)?;
    if hand.number == 0 {
        end_trees(seat, alloc, board.trees, supervised, played)?;
    }
    Ok(())
}

impl Work<Hand, Played> for Board<'_> {
    ghost use Rattle.tm_steal_rows.specs.Playing.{HandDid};
    ghost use Rattle.tm_steal.specs.Boards.{IsBoard};

    ghost ready = { λ board start _. IsBoard start board };

    ghost did = { λ board start floor hand done. HandDid board.trace.now start floor hand done };

    fn work<S: Seat, W: Wait>(
        &self,
        rt: &W,
        seat: &mut S,
        alloc: Global,
        hand: Hand,
        supervised: bool,
    ) -> Result<Vec<Played>, NoMemory> {
        workers_steal_on();
        let mut hand = hand;
        let mut played = Vec::new(alloc);
        match play_hand(self, rt, seat, alloc, &mut hand, supervised, &mut played) {
            Ok(()) => Ok(played),
            Err(fault) => {
                self.give_up();
                drop(played);
                Err(fault)
            }
        }
    }
}
