//! Whose each process was.
ghost use Rattle.std.specs.Prelude.{◌≡◌, ℕ, Option, Some, OnOk};
ghost use Rattle.std.specs.List.{AllByRecursion};
ghost use Rattle.std.specs.Ordering.{nat_cmp};
ghost use Rattle.std.specs.BTreeMap.{get};
ghost use Rattle.tm_steal_rows.specs.Gathering.{IsOwned, EachOwned, AreKept};

use crate::played::Played;
use std::alloc::Global;
use std::collections::BTreeMap;
use tm_list::{NoMemory, Seq};
use tm_seat::lost;

// A process is this worker's, where it isn't another's.
fn own_process(owners: &mut BTreeMap<u32, u32>, worker: u32, pid: u32) -> Result<(), NoMemory>
    ensures mine { OnOk result (get nat_cmp owners.new pid ≡ Some worker) }
    ensures kept { OnOk result (AreKept (get nat_cmp owners.old) (get nat_cmp owners.new)) }
{
    match owners.get(&pid) {
        Some(other) => {
            if *other == worker {
                return Ok(());
            }
            Err(lost())
        }
        None => {
            owners.insert(pid, worker)?;
            Ok(())
        }
    }
}

// What a worker has played is this worker's. The first worker alone ends trees.
fn own_one(owners: &mut BTreeMap<u32, u32>, worker: u32, played: &Played) -> Result<(), NoMemory>
    ensures mine { OnOk result (IsOwned (get nat_cmp owners.new) worker played.now) }
    ensures kept { OnOk result (AreKept (get nat_cmp owners.old) (get nat_cmp owners.new)) }
{
    match played {
        Played::Process(process) => own_process(owners, worker, process.pid),
        Played::End(_, _) => {
            if worker == 0 {
                return Ok(());
            }
            Err(lost())
        }
    }
}

// All that a worker has played.
fn own_all(owners: &mut BTreeMap<u32, u32>, worker: u32, all: &[Played]) -> Result<(), NoMemory>
    ensures mine { OnOk result (AllByRecursion (IsOwned (get nat_cmp owners.new) worker) all.now) }
    ensures kept { OnOk result (AreKept (get nat_cmp owners.old) (get nat_cmp owners.new)) }
{
    for played in all {
        own_one(owners, worker, played)?;
    }
    Ok(())
}

/// Each process is the worker's that has played it.
///
/// Errors: want of memory; that two workers have played a process, or that another worker than the
/// first has ended a tree.
pub(crate) fn check_owners(alloc: Global, given: &[Seq<Played>]) -> Result<(), NoMemory>
    ensures { OnOk result ((owner : ℕ → Option ℕ) × EachOwned owner 0 given.now) }
{
    let mut owners = BTreeMap::new(alloc);
    let mut worker: u32 = 0;
    for all in given {
        own_all(&mut owners, worker, all.as_slice())?;
        let Some(next) = worker.checked_add(1) else {
            return Err(lost());
        };
        worker = next;
    }
    Ok(())
}
