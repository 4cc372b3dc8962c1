//! Takes and `do` lines, and the versions of looks.
ghost use Rattle.std.specs.Prelude.{◌≡◌, ◌++◌, length, IfOk, OnOk};
ghost use Rattle.tm_legal.specs.Prelude.{all_do_pids, do_pids};
ghost use Rattle.tm_verify_laws.specs.Scans.{do_belong, pairs_fault, do_rise};

use std::alloc::Global;
use tm_list::NoMemory;
use tm_take::raised_by;
use tm_types::request::{Item, Tree};
use tm_types::step::{Look, Take};

/// Appends the pids of the `do` lines of a tree, in order.
pub fn push_do_pids(items: &[Item], pids: &mut Vec<u32>) -> Result<(), NoMemory>
    ensures { OnOk result (pids.new.items ≡ pids.old.items ++ do_pids items.now) }
{
    for item in items {
        match item {
            Item::Do(pid, _) => pids.push(*pid)?,
            Item::Ids(_, _) => {}
            Item::Fork(_, _) => {}
        }
    }
    Ok(())
}

/// The pids of all `do` lines, tree by tree.
pub fn all_do_pids(alloc: Global, trace: &[Tree]) -> Result<Vec<u32>, NoMemory>
    ensures { IfOk result (λ pids. pids.items ≡ all_do_pids trace.now) }
{
    let mut pids = Vec::new(alloc);
    for tree in trace {
        push_do_pids(tree.records.as_slice(), &mut pids)?;
    }
    Ok(pids)
}

fn do_belong(take: &Take, pid: u32) -> bool
    ensures { result ≡ do_belong take.now pid }
{
    take.pid == pid && !take.looks.is_empty()
}

/// The first number, from 1, at which a take and a `do` line don't belong together, or only one of
/// the two is there.
pub fn pairs_fault(takes: &[Take], pids: &[u32]) -> Option<u64>
    ensures { result ≡ pairs_fault 1 takes.now pids.now }
{
    let mut number = 1;
    let mut rest = pids;
    for take in takes {
        match rest {
            [] => return Some(number),
            [pid, after @ ..] => {
                if !do_belong(take, *pid) {
                    return Some(number);
                }
                rest = after;
                number += 1;
            }
        }
    }
    match rest {
        [] => None,
        [_, ..] => Some(number),
    }
}

/// Whether no look is below the floor that those before it have raised, or above the last version.
pub fn do_rise(count: u64, floor: u64, looks: &[Look]) -> bool
    ensures { result ≡ do_rise count floor looks.now }
{
    let mut low = floor;
    for look in looks {
        if look.version < low || count < look.version {
            return false;
        }
        low = raised_by(low, look);
    }
    true
}
