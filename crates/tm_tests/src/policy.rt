//! Calls of `tm_policy`.
ghost use Rattle.std.specs.Prelude.{IfOk};
ghost use Rattle.tm_rules.specs.Prelude.{IsFew};

use crate::samples::{entry, files, policy};
use std::alloc::{AllocError, Global};
use std::test::Fail;
use tm_change_domains::{domain_at, profile_of};
use tm_entry::print_entry;
use tm_list::{Copied, NoMemory, Seq};
use tm_policy::{Plain, PolicyCalls, apply_learn, apply_make, is_few};
use tm_rep::Rep;
use tm_types::entry::Entry;
use tm_types::policy::Policy;
use tm_types::step::{LearnReply, MakeReply};
use tm_word::bytes_equal;

/// Profile 1 learns three permissions, and profile 2 enforces.
const PROFILES: &[u8] = b"1-CONFIG={ mode=learning }
1-PREFERENCE={ max_learning_entry=3 }
2-CONFIG={ mode=enforcing }
";

/// The reply to a line that the first domain learns; the domain and its profile are there.
fn learn(alloc: Global, policy: &mut Policy, line: &Entry) -> Result<LearnReply, NoMemory> {
    let Some(domain) = domain_at(policy, 0) else {
        return Err(AllocError);
    };
    let Some(_profile) = profile_of(policy, domain) else {
        return Err(AllocError);
    };
    if !is_few(policy) {
        return Err(AllocError);
    }
    apply_learn(alloc, policy, 0, line)
}

/// The reply to a domain of this name that is made from the first domain; that one and its profile
/// are there.
fn make(alloc: Global, policy: &mut Policy, name: &[u8]) -> Result<MakeReply, NoMemory> {
    let Some(domain) = domain_at(policy, 0) else {
        return Err(AllocError);
    };
    let Some(_profile) = profile_of(policy, domain) else {
        return Err(AllocError);
    };
    if !is_few(policy) {
        return Err(AllocError);
    }
    let name = Seq::from_bytes(alloc, name)?;
    apply_make(alloc, policy, 0, name)
}

/// The lines of the first domain, as they are printed, each with a newline behind it.
fn lines(alloc: Global, policy: &Policy) -> Result<Vec<u8>, NoMemory> {
    let mut text = Vec::new(alloc);
    if let Some(domain) = domain_at(policy, 0) {
        for entry in domain.entries.as_slice() {
            print_entry(alloc, entry, &mut text)?;
            text.push(b'\n')?;
        }
    }
    Ok(text)
}

/// The plain representation of a policy that is few.
fn plain(policy: Policy) -> Result<Plain, NoMemory>
    ensures { IfOk result (λ made. IsFew made) }
{
    if is_few(&policy) {
        Ok(Plain::new(policy))
    } else {
        drop(policy);
        Err(AllocError)
    }
}

#[test]
fn a_policy_begins_with_one_domain(rt: HostRuntime) -> Result<(), Fail> {
    let policy = Policy::new(rt.alloc())?;
    assert_eq!(rt; policy.domains.len(), 1);
    assert_eq!(rt; policy.namespaces.len(), 0);
    assert!(rt; !policy.opened);
    match domain_at(&policy, 0) {
        Some(domain) => {
            assert!(rt; bytes_equal(domain.name.bytes(), b"<kernel>"));
            assert!(rt; domain.live);
            assert_eq!(rt; domain.profile, 0);
            assert_eq!(rt; domain.entries.len(), 0);
        }
        None => assert!(rt; false),
    }
    Ok(())
}

/// A domain that learns, with one line.
fn learning(alloc: Global) -> Result<Policy, NoMemory> {
    policy(
        alloc,
        &files(alloc, PROFILES, b"<kernel>\nuse_profile 1\nfile read /a\n")?,
    )
}

/// A domain that enforces, with another one.
fn enforcing(alloc: Global) -> Result<Policy, NoMemory> {
    policy(
        alloc,
        &files(
            alloc,
            PROFILES,
            b"<kernel>\nuse_profile 2\n<kernel> /x\nuse_profile 2\n",
        )?,
    )
}

/// The reply to this line, which the first domain learns.
fn reply(alloc: Global, policy: &mut Policy, line: &str) -> Result<LearnReply, NoMemory> {
    let line = entry(alloc, line.as_bytes())?;
    learn(alloc, policy, &line)
}

/// The lines that are there in the end.
const LEARNED: &[u8] = b"file read /a
file read /b
file read /c
";

#[test]
fn lines_are_learned_up_to_the_quota(rt: HostRuntime) -> Result<(), Fail> {
    let mut learned = learning(rt.alloc())?;
    for (line, wanted) in [
        ("file read /a", LearnReply::There),
        ("file read /b", LearnReply::Added),
        ("file read /b", LearnReply::There),
        ("file read /c", LearnReply::Added),
        ("file read /d", LearnReply::Quota),
        ("file read /d", LearnReply::Quota),
    ] {
        let found = reply(rt.alloc(), &mut learned, line)?;
        assert!(rt; found as u8 == wanted as u8, "at {line}");
    }
    assert_eq!(rt; lines(rt.alloc(), &learned)?.as_slice(), LEARNED);
    let copied = plain(learned)?.copy(rt.alloc())?;
    assert_eq!(rt; lines(rt.alloc(), copied.policy())?.as_slice(), LEARNED);
    Ok(())
}

#[test]
fn a_domain_that_enforces_learns_nothing(rt: HostRuntime) -> Result<(), Fail> {
    let mut enforced = enforcing(rt.alloc())?;
    let found = reply(rt.alloc(), &mut enforced, "file read /b")?;
    assert!(rt; matches!(found, LearnReply::Mode));
    Ok(())
}

#[test]
fn a_domain_is_made_once(rt: HostRuntime) -> Result<(), Fail> {
    let alloc = rt.alloc();
    let mut grown = enforcing(alloc)?;
    assert!(rt; matches!(make(alloc, &mut grown, b"<kernel> /y")?, MakeReply::New(2)));
    assert!(rt; matches!(make(alloc, &mut grown, b"<kernel> /y")?, MakeReply::Old(2)));
    assert!(rt; matches!(make(alloc, &mut grown, b"<kernel> /x")?, MakeReply::Old(1)));
    assert_eq!(rt; grown.domains.len(), 3);
    match domain_at(&grown, 2) {
        Some(domain) => {
            assert!(rt; bytes_equal(domain.name.bytes(), b"<kernel> /y"));
            assert!(rt; domain.live);
            assert_eq!(rt; domain.profile, 2);
            assert_eq!(rt; domain.entries.len(), 0);
        }
        None => assert!(rt; false),
    }
    Ok(())
}
