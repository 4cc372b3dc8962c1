//! Trees, editors and a supervisor beside each other.
use crate::calls::{PROFILE, files, replay};
use crate::gates::{Counting, EditsFirst, Meeting};
use std::alloc::Global;
use std::process::Abort;
use std::sync::Wait;
use std::test::Fail;
use std::thread::Threads;
use tm_engine::gate::{Gate, NoGate};
use tm_io::FileName;
use tomoyo::Status;

// Plays these files with these words through a gate, and expects that the call is done and that
// what it has put begins so.
fn expect<W: Threads + Wait + Abort + Sync, G: Gate>(
    rt: &W,
    alloc: Global,
    words: &[&str],
    texts: &[(FileName, &str)],
    gate: &G,
    line: &str,
) -> Result<(), Fail> {
    let left = replay(rt, alloc, words, files(alloc, texts)?, gate)?;
    assert!(rt; matches!(left.status, Status::Done));
    assert!(rt; left.out.bytes().starts_with(line.as_bytes()));
    Ok(())
}

const LEARNING: &str = "<kernel>\nuse_profile 2\n";

const ENFORCING: &str = "<kernel>\nuse_profile 1\n";

const MANAGER: &str = "/usr/sbin/admin\n";

#[test]
fn two_trees_look_beside_each_other(rt: HostRuntime) -> Result<(), Fail> {
    let gate = Meeting::new((1, 1), (2, 1));
    expect(
        &rt,
        rt.alloc(),
        &["2"],
        &[
            (FileName::Profile, PROFILE),
            (FileName::DomainPolicy, LEARNING),
            (
                FileName::Trace,
                "tree 1 <kernel>\ndo 1 file read /a\ntree 2 <kernel>\ndo 2 file read /b\n",
            ),
        ],
        &gate,
        "requests 2 granted 2 denied 0 learned 2 steps 2 domains 1 clean yes plain yes\n",
    )?;
    assert!(&rt; gate.took_place());
    Ok(())
}

#[test]
fn a_child_looks_beside_its_parent(rt: HostRuntime) -> Result<(), Fail> {
    let gate = Meeting::new((1, 3), (1, 4));
    expect(
        &rt,
        rt.alloc(),
        &["2", "steal"],
        &[
            (FileName::Profile, PROFILE),
            (FileName::DomainPolicy, LEARNING),
            (
                FileName::Trace,
                "tree 1 <kernel>\ndo 1 file read /a\nfork 1 11\ndo 1 file read /b\ndo 11 file read /c\n",
            ),
        ],
        &gate,
        "requests 3 granted 3 denied 0 learned 3 steps 3 domains 1 clean yes plain yes\n",
    )?;
    assert!(&rt; gate.took_place());
    Ok(())
}

#[test]
fn a_tree_looks_beside_an_editors_line(rt: HostRuntime) -> Result<(), Fail> {
    let gate = Meeting::new((1, 1), (0, 1));
    expect(
        &rt,
        rt.alloc(),
        &["1"],
        &[
            (FileName::Profile, PROFILE),
            (FileName::DomainPolicy, LEARNING),
            (FileName::Manager, MANAGER),
            (FileName::Trace, "tree 1 <kernel>\ndo 1 file read /a\n"),
            (
                FileName::Edits,
                "editor 0 0 /usr/sbin/admin <kernel>\ndomain_policy select <kernel>\n",
            ),
        ],
        &gate,
        "requests 1 granted 1 denied 0 learned 1 steps 2 domains 1 clean yes plain yes\n",
    )?;
    assert!(&rt; gate.took_place());
    Ok(())
}

#[test]
fn the_gate_is_called_before_each_request_and_each_line(rt: HostRuntime) -> Result<(), Fail> {
    let gate = Counting::new();
    expect(
        &rt,
        rt.alloc(),
        &["3", "rerun"],
        &[
            (FileName::Profile, PROFILE),
            (FileName::DomainPolicy, LEARNING),
            (FileName::Manager, MANAGER),
            (
                FileName::Trace,
                "tree 1 <kernel>\ndo 1 file read /a\nfork 1 11\ndo 11 file read /b\ntree 2 <kernel>\ndo 2 file read /c\n",
            ),
            (
                FileName::Edits,
                "editor 0 0 /usr/sbin/admin <kernel>\ndomain_policy select <kernel>\ndomain_policy file write /d\n",
            ),
        ],
        &gate,
        "requests 3 granted 3 denied 0 learned 3 steps 5 domains 1 clean yes plain yes\n\
        rerun requests 3 granted 3 denied 0 steps 0 same yes\n",
    )?;
    // The rerun plays the requests again, and nobody edits in it.
    assert_eq!(&rt; gate.counted(), (6, 2));
    Ok(())
}

#[test]
fn a_tree_begins_in_a_domain_that_was_deleted_meanwhile(rt: HostRuntime) -> Result<(), Fail> {
    let gate = EditsFirst::new(2);
    expect(
        &rt,
        rt.alloc(),
        &["1"],
        &[
            (FileName::Profile, PROFILE),
            (
                FileName::DomainPolicy,
                "<kernel>\nuse_profile 0\n\n<kernel> /a\nuse_profile 1\nfile read /x\n",
            ),
            (FileName::Manager, MANAGER),
            (
                FileName::Trace,
                "tree 1 <kernel> /a\ndo 1 file read /x\ndo 1 file read /y\n",
            ),
            (
                FileName::Edits,
                "editor 0 0 /usr/sbin/admin <kernel>\ndomain_policy delete <kernel> /a\ndomain_policy select <kernel>\n",
            ),
        ],
        &gate,
        "requests 2 granted 1 denied 1 learned 0 steps 2 domains 1 clean no plain yes\n",
    )?;
    assert!(&rt; !gate.was_in_vain());
    Ok(())
}

const LEAVING: [(FileName, &str); 4] = [
    (FileName::Profile, PROFILE),
    (FileName::DomainPolicy, ENFORCING),
    (
        FileName::Trace,
        "tree 7 <kernel>\nfork 7 9\ndo 7 file read /x\ndo 9 file read /z\ntree 8 <kernel>\ndo 8 file read /y\n",
    ),
    (FileName::Answers, "rule yes : any : any\ndetach 0\n"),
];

#[test]
fn a_supervisor_that_leaves_at_once_leaves_all_denied(rt: HostRuntime) -> Result<(), Fail> {
    let calls: [&[&str]; 2] = [&["2"], &["2", "steal"]];
    for words in calls {
        for _ in 0..10 {
            expect(
                &rt,
                rt.alloc(),
                words,
                &LEAVING,
                &NoGate,
                "requests 3 granted 0 denied 3 learned 0 ",
            )?;
        }
    }
    Ok(())
}
