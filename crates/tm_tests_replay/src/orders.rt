//! Calls whose steps depend on the order of threads: what holds in every order.
use crate::calls::{PROFILE, files, replay};
use std::alloc::Global;
use std::process::Abort;
use std::sync::Wait;
use std::test::Fail;
use std::thread::Threads;
use tm_engine::gate::NoGate;
use tm_io::FileName;
use tomoyo::Status;

// Plays these files so often, and wants each time that the call is done, and that what it has put
// begins and ends so.
fn expect_each_time<W: Threads + Wait + Abort + Sync>(
    rt: &W,
    alloc: Global,
    times: u32,
    words: &[&str],
    texts: &[(FileName, &str)],
    begins: &str,
    ends: &str,
) -> Result<(), Fail> {
    for _ in 0..times {
        let left = replay(rt, alloc, words, files(alloc, texts)?, &NoGate)?;
        assert!(rt; matches!(left.status, Status::Done));
        assert!(rt; left.out.bytes().starts_with(begins.as_bytes()));
        assert!(rt; left.out.bytes().ends_with(ends.as_bytes()));
    }
    Ok(())
}

const BOOT: [(FileName, &str); 5] = [
    (
        FileName::Profile,
        "PROFILE_VERSION=20150505\n\
        0-PREFERENCE={ max_audit_log=1024 max_learning_entry=2048 }\n\
        0-CONFIG={ mode=disabled grant_log=no reject_log=yes }\n\
        1-PREFERENCE={ max_audit_log=1024 max_learning_entry=2048 }\n\
        1-CONFIG={ mode=learning grant_log=no reject_log=yes }\n\
        2-PREFERENCE={ max_audit_log=1024 max_learning_entry=2048 }\n\
        2-CONFIG={ mode=permissive grant_log=no reject_log=yes }\n\
        3-PREFERENCE={ max_audit_log=1024 max_learning_entry=2048 }\n\
        3-CONFIG={ mode=enforcing grant_log=no reject_log=yes }\n",
    ),
    (
        FileName::ExceptionPolicy,
        "path_group TTY /dev/tty\\$\n\
        initialize_domain /usr/sbin/sshd from any\n\
        keep_domain any from <kernel> /usr/sbin/sshd /bin/bash\n\
        acl_group 0 file read /etc/ld.so.cache\n\
        acl_group 0 file read/write @TTY\n",
    ),
    (
        FileName::DomainPolicy,
        "<kernel>\nuse_profile 1\nuse_group 0\n",
    ),
    (FileName::Manager, "/usr/sbin/tomoyo-loadpolicy\n"),
    (
        FileName::Trace,
        "tree 1 <kernel>\n\
        do 1 file execute /sbin/init exec.realpath=\"/lib/systemd/systemd\" exec.argv=\"init\"\n\
        do 1 file read /etc/ld.so.cache\n\
        do 1 file read /etc/inittab\n\
        tree 2 <kernel>\n\
        do 2 file execute /usr/sbin/sshd exec.realpath=\"/usr/sbin/sshd\" exec.argv=\"sshd\"\n\
        do 2 network inet stream bind 0.0.0.0 22\n\
        do 2 network inet stream listen 0.0.0.0 22\n\
        fork 2 21\n\
        do 21 file execute /bin/bash exec.realpath=\"/bin/bash\" exec.argv=\"-bash\"\n\
        do 21 misc env HOME\n\
        do 21 file execute /bin/ls exec.realpath=\"/bin/ls\" exec.argv=\"ls\" exec.argv=\"-l\"\n\
        do 21 file getattr /home/\n\
        tree 3 <kernel>\n\
        do 3 file execute /usr/sbin/sshd exec.realpath=\"/usr/sbin/sshd\" exec.argv=\"sshd\"\n\
        do 3 file execute /bin/bash exec.realpath=\"/bin/bash\" exec.argv=\"-bash\"\n\
        do 3 file write /dev/tty1\n",
    ),
];

#[test]
fn a_boot_is_learned_in_every_order_and_then_granted(rt: HostRuntime) -> Result<(), Fail> {
    expect_each_time(
        &rt,
        rt.alloc(),
        5,
        &["3", "rerun"],
        &BOOT,
        "requests 13 granted 13 denied 0 learned 9 steps ",
        " domains 4 clean yes plain yes\n\
        rerun requests 13 granted 13 denied 0 steps 0 same yes\n",
    )
}

#[test]
fn a_boot_is_learned_whoever_plays_which_process(rt: HostRuntime) -> Result<(), Fail> {
    expect_each_time(
        &rt,
        rt.alloc(),
        10,
        &["3", "steal"],
        &BOOT,
        "requests 13 granted 13 denied 0 learned 9 steps ",
        " domains 4 clean yes plain yes\n",
    )
}

const RETRY: [(FileName, &str); 6] = [
    (FileName::Profile, PROFILE),
    (FileName::DomainPolicy, "<kernel>\nuse_profile 1\n"),
    (FileName::Manager, "/usr/sbin/admin\n"),
    (
        FileName::Trace,
        "tree 7 <kernel>\nfork 7 9\ndo 9 file read /x\n",
    ),
    (
        FileName::Edits,
        "editor 0 0 /usr/sbin/admin <kernel>\n\
        domain_policy select <kernel>\n\
        domain_policy file read /x\n",
    ),
    (FileName::Answers, "rule retry 1 no : any : any\n"),
];

#[test]
fn a_supervisor_that_says_retry_comes_to_an_end(rt: HostRuntime) -> Result<(), Fail> {
    let calls: [&[&str]; 2] = [&["1"], &["2", "steal"]];
    for words in calls {
        expect_each_time(
            &rt,
            rt.alloc(),
            10,
            words,
            &RETRY,
            "requests 1 granted ",
            " domains 1 clean no plain yes\n",
        )?;
    }
    Ok(())
}

const EDITORS: [(FileName, &str); 5] = [
    (FileName::Profile, PROFILE),
    (
        FileName::DomainPolicy,
        "<kernel>\nuse_profile 2\n\n<kernel> /s\nuse_profile 1\n",
    ),
    (FileName::Manager, "/usr/sbin/admin\n"),
    (FileName::Trace, ""),
    (
        FileName::Edits,
        "editor 0 0 /usr/sbin/admin <kernel>\n\
        domain_policy select <kernel> /s\n\
        domain_policy file read /x\n\
        editor 0 0 /usr/sbin/admin <kernel>\n\
        domain_policy delete <kernel> /s\n\
        domain_policy <kernel> /s\n",
    ),
];

#[test]
fn two_editors_select_delete_and_make_one_domain(rt: HostRuntime) -> Result<(), Fail> {
    expect_each_time(
        &rt,
        rt.alloc(),
        10,
        &["1"],
        &EDITORS,
        "requests 0 granted 0 denied 0 learned 0 steps 4 domains 2 clean ",
        " plain yes\n",
    )
}
