//! Rows that are gathered of what two workers give back, and what is refused.
use std::alloc::Global;
use std::thread::Threads;
use tm_list::{NoMemory, Seq};
use tm_steal_rows::{
    Played, PlayedProcess, PlayedTake, RecordPlace, SeenTake, TreeRecords, gather, record_at,
};
use tm_take::ProcessSituation;
use tm_types::brief::Brief;
use tm_types::entry::Args;
use tm_types::request::{Attributes, Ids, Item, Proc, Request, Tree};
use tm_types::step::{Look, Take};
use tm_types::verdict::{Move, Reason};

/// A take: the worker that has played it, its line among all, its process with its parent, the
/// domain that the process was in, how many steps were known, the version of its look, the domain after, and
/// the user of the process.
type Row = [u32; 9];

/// An End: the worker that has made it, the tree, and its number.
type End = [u32; 3];

// The first worker plays process 5, the second one its child 6 and process 7 of the other tree.
const TAKES: [Row; 4] = [
    [0, 0, 5, 0, 0, 0, 3, 1, 0],
    [1, 3, 7, 0, 2, 0, 2, 2, 0],
    [0, 2, 5, 0, 1, 3, 5, 1, 0],
    [1, 1, 6, 5, 1, 4, 4, 1, 0],
];

const ENDS: [End; 2] = [[0, 1, 9], [0, 2, 10]];

fn ids_of(uid: u32) -> Ids {
    Ids {
        uid,
        euid: 0,
        suid: 0,
        fsuid: 0,
        gid: 0,
        egid: 0,
        sgid: 0,
        fsgid: 0,
    }
}

/// A request of this permission.
fn request(alloc: Global, perm: u8) -> Result<Request, NoMemory> {
    let attributes = Attributes::none(alloc);
    let domain = Seq::from_bytes(alloc, b"<kernel>")?;
    Request::new(alloc, Args::Manual(domain), perm, attributes)
}

/// A tree whose first process forks a child where there is one; each request is of another
/// permission.
fn tree(alloc: Global, pid: u32, child: Option<u32>, perm: u8) -> Result<Tree, NoMemory> {
    let mut records = Seq::new(alloc);
    records.push(Item::Do(pid, request(alloc, perm)?))?;
    if let Some(child) = child {
        records.push(Item::Fork(pid, child))?;
        records.push(Item::Do(child, request(alloc, 1)?))?;
        records.push(Item::Do(pid, request(alloc, 2)?))?;
    }
    Ok(Tree {
        start: Seq::from_bytes(alloc, b"<kernel>")?,
        pid,
        records,
    })
}

/// Two trees: process 5 with its child 6, and process 7.
fn trace(alloc: Global) -> Result<Vec<Tree>, NoMemory> {
    let mut trees = Vec::new(alloc);
    trees.push(tree(alloc, 5, Some(6), 0)?)?;
    trees.push(tree(alloc, 7, None, 3)?)?;
    Ok(trees)
}

fn take(alloc: Global, row: &Row) -> Result<Take, NoMemory> {
    let mut looks = Seq::new(alloc);
    looks.push(Look {
        version: u64::from(row[6]),
        mode: None,
        reason: Reason::Disabled,
        step: Move::Stay,
        own: Brief::new(alloc),
        heard: None,
    })?;
    Ok(Take {
        pid: row[2],
        before: row[4],
        after: row[7],
        granted: true,
        looks,
        audit: None,
    })
}

/// Where a line stands, from 0 among all; one that isn't there stands past the first tree.
fn place_of_line(line: u32) -> RecordPlace {
    let (tree, item) = match line {
        0 => (1, 1),
        1 => (1, 3),
        2 => (1, 4),
        3 => (2, 1),
        _ => (1, 5),
    };
    RecordPlace { tree, item }
}

fn played(alloc: Global, row: &Row) -> Result<PlayedTake, NoMemory> {
    let process = Proc {
        pid: row[2],
        ppid: row[3],
        ids: ids_of(row[8]),
    };
    Ok(PlayedTake {
        place: place_of_line(row[1]),
        stood: ProcessSituation {
            process,
            domain: Some(row[4]),
            floor: 0,
        },
        since: u64::from(row[5]),
        take: SeenTake::new(take(alloc, row)?),
    })
}

/// The place of a process among those of the trace.
fn place_of(pid: u32) -> usize {
    match pid {
        5 => 0,
        6 => 1,
        _ => 2,
    }
}

/// What a worker gives back of a process; nothing where it has no take of it.
fn given_of(
    alloc: Global,
    worker: u32,
    pid: u32,
    takes: &[Row],
) -> Result<Option<Played>, NoMemory> {
    let mut its = Vec::new(alloc);
    for row in takes {
        if row[0] == worker && row[2] == pid {
            its.push(played(alloc, row)?)?;
        }
    }
    if its.is_empty() {
        return Ok(None);
    }
    let place = place_of(pid);
    Ok(Some(Played::Process(PlayedProcess {
        place,
        pid,
        takes: its,
    })))
}

/// What a worker gives back.
fn given_by(
    alloc: Global,
    worker: u32,
    takes: &[Row],
    ends: &[End],
) -> Result<Seq<Played>, NoMemory> {
    let mut all = Seq::new(alloc);
    for pid in 5u32..8 {
        if let Some(process) = given_of(alloc, worker, pid, takes)? {
            all.push(process)?;
        }
    }
    for end in ends {
        if end[0] == worker {
            all.push(Played::End(end[1], u64::from(end[2])))?;
        }
    }
    Ok(all)
}

/// What is known of the records of the two trees: how many processes the first one has, the place
/// of the process of its third record, and that of the second tree's only one.
type Known = [u32; 3];

const KNOWN: Known = [2, 1, 0];

fn records(alloc: Global, known: Known) -> Result<Vec<TreeRecords>, NoMemory> {
    let mut first = Vec::new(alloc);
    for process in [0, 0, known[1], 0] {
        first.push(process)?;
    }
    let mut second = Vec::new(alloc);
    second.push(known[2])?;
    let mut all = Vec::new(alloc);
    all.push(TreeRecords {
        processes: known[0] as usize,
        process_places: first,
    })?;
    all.push(TreeRecords {
        processes: 1,
        process_places: second,
    })?;
    Ok(all)
}

/// What both workers give back.
fn given_by_both(alloc: Global, takes: &[Row], ends: &[End]) -> Result<Vec<Seq<Played>>, NoMemory> {
    let mut given = Vec::new(alloc);
    given.push(given_by(alloc, 0, takes, ends)?)?;
    given.push(given_by(alloc, 1, takes, ends)?)?;
    Ok(given)
}

/// The pids of all rows' takes and the Ends, in order; None where the rows are refused.
fn rows_of<W: Threads + Sync>(
    rt: &W,
    alloc: Global,
    given: Vec<Seq<Played>>,
    known: Known,
    supervised: bool,
) -> Result<Option<Vec<u64>>, NoMemory> {
    let trees = trace(alloc)?;
    let mut homes = Vec::new(alloc);
    homes.push(Some(0))?;
    homes.push(Some(2))?;
    let records = records(alloc, known)?;
    let Ok(rows) = gather(
        rt,
        alloc,
        trees.as_slice(),
        homes,
        records,
        supervised,
        given,
    ) else {
        return Ok(None);
    };
    let mut told = Vec::new(alloc);
    for row in rows.as_slice() {
        told.push(u64::from(row.number))?;
        for take in row.takes.as_slice() {
            told.push(u64::from(take.pid))?;
        }
        told.push(row.end.unwrap_or(0))?;
    }
    Ok(Some(told))
}

/// The same of these takes and Ends.
fn gathered<W: Threads + Sync>(
    rt: &W,
    alloc: Global,
    takes: &[Row],
    ends: &[End],
    supervised: bool,
) -> Result<Option<Vec<u64>>, NoMemory> {
    let given = given_by_both(alloc, takes, ends)?;
    rows_of(rt, alloc, given, KNOWN, supervised)
}

#[test]
fn a_row_for_each_tree_where_all_agrees(rt: HostRuntime) -> Result<(), NoMemory> {
    let alloc = rt.alloc();
    let told = gathered(&rt, alloc, TAKES.as_slice(), ENDS.as_slice(), true)?;
    let told = told.unwrap_or(Vec::new(alloc));
    assert_eq!(rt; told.as_slice(), [1u64, 5, 6, 5, 9, 2, 7, 10].as_slice());
    let alone = gathered(&rt, alloc, TAKES.as_slice(), &[], false)?;
    let alone = alone.unwrap_or(Vec::new(alloc));
    assert_eq!(rt; alone.as_slice(), [1u64, 5, 6, 5, 0, 2, 7, 0].as_slice());
    Ok(())
}

// A take, its number, and another number in its place.
const WRONG_TAKES: [(usize, usize, u32); 9] = [
    (3, 3, 4),
    (3, 4, 0),
    (3, 5, 2),
    (2, 0, 1),
    (2, 1, 1),
    (2, 1, 7),
    (1, 2, 6),
    (2, 6, 9),
    (0, 7, 2),
];

#[test]
fn takes_that_do_not_agree_are_refused(rt: HostRuntime) -> Result<(), NoMemory> {
    for (row, place, number) in WRONG_TAKES {
        let mut takes = TAKES;
        takes[row][place] = number;
        let told = gathered(&rt, rt.alloc(), takes.as_slice(), ENDS.as_slice(), true)?;
        assert!(rt; told.is_none(), "{row} {place}");
    }
    let few = gathered(&rt, rt.alloc(), &TAKES[1..], ENDS.as_slice(), true)?;
    assert!(rt; few.is_none());
    let mut other_user = TAKES;
    other_user[3][8] = 1;
    let told = gathered(
        &rt,
        rt.alloc(),
        other_user.as_slice(),
        ENDS.as_slice(),
        true,
    )?;
    assert!(rt; told.is_none());
    Ok(())
}

#[test]
fn a_process_that_was_played_twice_is_refused(rt: HostRuntime) -> Result<(), NoMemory> {
    let alloc = rt.alloc();
    let mut given = Vec::new(alloc);
    let mut first = given_by(alloc, 0, &TAKES[..1], ENDS.as_slice())?;
    if let Some(again) = given_of(alloc, 0, 5, &TAKES[2..3])? {
        first.push(again)?;
    }
    given.push(first)?;
    given.push(given_by(alloc, 1, TAKES.as_slice(), &[])?)?;
    let told = rows_of(&rt, alloc, given, KNOWN, true)?;
    assert!(rt; told.is_none());
    Ok(())
}

#[test]
fn records_that_do_not_agree_are_refused(rt: HostRuntime) -> Result<(), NoMemory> {
    for (place, number) in [(0, 1), (0, 3), (1, 0), (1, 2), (2, 1)] {
        let mut known = KNOWN;
        known[place] = number;
        let given = given_by_both(rt.alloc(), TAKES.as_slice(), ENDS.as_slice())?;
        let told = rows_of(&rt, rt.alloc(), given, known, true)?;
        assert!(rt; told.is_none(), "{place} {number}");
    }
    Ok(())
}

// The same of an End.
const WRONG_ENDS: [(usize, usize, u32); 4] = [(0, 2, 5), (0, 0, 1), (0, 1, 2), (1, 1, 1)];

#[test]
fn ends_that_do_not_agree_are_refused(rt: HostRuntime) -> Result<(), NoMemory> {
    for (end, place, number) in WRONG_ENDS {
        let mut ends = ENDS;
        ends[end][place] = number;
        let told = gathered(&rt, rt.alloc(), TAKES.as_slice(), ends.as_slice(), true)?;
        assert!(rt; told.is_none(), "{end} {place}");
    }
    let few = gathered(&rt, rt.alloc(), TAKES.as_slice(), &ENDS[..1], true)?;
    let many = gathered(&rt, rt.alloc(), TAKES.as_slice(), &ENDS[..1], false)?;
    assert!(rt; few.is_none() && many.is_none());
    Ok(())
}

// The trees of the trace with their records, from 0 to one that isn't there, and what each asks.
const ASKED: [[Option<u8>; 6]; 4] = [
    [None, None, None, None, None, None],
    [None, Some(0), None, Some(1), Some(2), None],
    [None, Some(3), None, None, None, None],
    [None, None, None, None, None, None],
];

#[test]
fn each_record_stands_at_its_place(rt: HostRuntime) -> Result<(), NoMemory> {
    let trees = trace(rt.alloc())?;
    for tree in 0u32..4 {
        for item in 0u32..6 {
            let found = record_at(trees.as_slice(), RecordPlace { tree, item });
            let asked = match found {
                Some(Item::Do(_, request)) => Some(request.perm()),
                Some(Item::Ids(_, _)) | Some(Item::Fork(_, _)) | None => None,
            };
            assert_eq!(rt; asked, ASKED[tree as usize][item as usize], "{tree} {item}");
        }
    }
    let forked = record_at(trees.as_slice(), RecordPlace { tree: 1, item: 2 });
    assert!(rt; matches!(forked, Some(Item::Fork(5, 6))));
    Ok(())
}
