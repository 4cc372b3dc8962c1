//! Processes as a log tells them.
ghost use Rattle.std.specs.Prelude.{◌≡◌, ◌≤◌};
ghost use Rattle.tm_log_processes.specs.Processes.{nobody, born, same_ids, digits};
ghost use Rattle.tm_rules.specs.Prelude.{no_ids};

use tm_types::request::Ids;

/// Who a process is: its number in the trace, the key by which records name it, its parent's pid,
/// and its parent, where they are known.
#[derive(Clone, Copy)]
pub struct Origin {
    pub number: u32,
    pub key: u32,
    pub ppid: Option<u32>,
    pub parent: Option<usize>,
}

/// A process: who it is, its tree, its ids, whether an execute was its last move, whether it wrote
/// to `self_domain` since its last execute, the place of its last execute, and whether that was
/// refused.
#[derive(Clone, Copy)]
pub struct Process {
    pub origin: Origin,
    pub tree: usize,
    pub ids: Ids,
    pub is_open: bool,
    pub is_writer: bool,
    pub last_execute: Option<usize>,
    pub was_refused: bool,
}

/// A place in the trace just before the line of an execute: the line, the tree, and the ids of the
/// process there.
#[derive(Clone, Copy)]
pub struct Place {
    pub line: usize,
    pub tree: usize,
    pub ids: Ids,
}

/// The ids of a tree's first process.
pub fn no_ids() -> Ids
    ensures { result ≡ no_ids }
{
    Ids {
        uid: 0,
        euid: 0,
        suid: 0,
        fsuid: 0,
        gid: 0,
        egid: 0,
        sgid: 0,
        fsgid: 0,
    }
}

/// A new process.
pub fn born(origin: Origin, tree: usize, ids: Ids) -> Process
    ensures { result ≡ born origin tree ids }
{
    Process {
        origin,
        tree,
        ids,
        is_open: false,
        is_writer: false,
        last_execute: None,
        was_refused: false,
    }
}

/// What stands for a process that isn't there.
pub fn nobody() -> Process
    ensures { result ≡ nobody }
{
    let origin = Origin {
        number: 0,
        key: 0,
        ppid: None,
        parent: None,
    };
    born(origin, 0, no_ids())
}

/// Whether all eight ids are equal.
pub fn same_ids(left: Ids, right: Ids) -> bool
    ensures { result ≡ same_ids left right }
{
    left.uid == right.uid
        && left.euid == right.euid
        && left.suid == right.suid
        && left.fsuid == right.fsuid
        && left.gid == right.gid
        && left.egid == right.egid
        && left.sgid == right.sgid
        && left.fsgid == right.fsgid
}

/// How many digits a number has.
pub fn digits(n: u32) -> usize
    ensures exact { result ≡ digits n }
    ensures few { result ≤ 10 }
{
    match n {
        0..=9 => 1,
        10..=99 => 2,
        100..=999 => 3,
        1_000..=9_999 => 4,
        10_000..=99_999 => 5,
        100_000..=999_999 => 6,
        1_000_000..=9_999_999 => 7,
        10_000_000..=99_999_999 => 8,
        100_000_000..=999_999_999 => 9,
        _ => 10,
    }
}
