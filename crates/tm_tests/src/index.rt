//! Calls of `tm_indexed`.
ghost use Rattle.std.specs.Prelude.{IfOk};
ghost use Rattle.tm_rules.specs.Prelude.{IsFew};

use crate::samples::{entry, files, process, read, request};
use std::alloc::{AllocError, Global};
use std::test::Fail;
use tm_change_domains::{domain_at, profile_of};
use tm_indexed::{Indexed, load_indexed};
use tm_list::NoMemory;
use tm_number::{Addr, AddrRange, Base, Number, Range, write_number};
use tm_policy::{Plain, is_few, load};
use tm_rep::Rep;
use tm_types::entry::{Args, Entry, InetKind};
use tm_types::request::Request;
use tm_types::step::{EditReply, FileKind, LearnReply, PolicyFiles};
use tm_types::unions::{AddrUnion, NumberUnion};
use tm_types::verdict::{EntryPlace, Found};
use tm_word::Word;

/// The profile file of a policy that learns.
const LEARNS: &[u8] = b"PROFILE_VERSION=20150505
0-CONFIG={ mode=learning grant_log=no reject_log=no }
";

/// The name of this number.
fn name(alloc: Global, number: u32) -> Result<Vec<u8>, NoMemory> {
    let number = Number {
        value: u64::from(number),
        base: Base::Decimal,
    };
    let mut name = Vec::new(alloc);
    name.extend_from_slice(b"/var/lib/")?;
    write_number(alloc, &number, &mut name)?;
    Ok(name)
}

/// Policy files with these lines in the first domain.
fn files_of(alloc: Global, lines: &[u8]) -> Result<PolicyFiles, NoMemory> {
    let mut domain = Vec::new(alloc);
    domain.extend_from_slice(b"<kernel>\nuse_profile 0\n")?;
    domain.extend_from_slice(lines)?;
    files(alloc, LEARNS, &domain)
}

/// So many lines, each of a name of its own.
fn lines(alloc: Global, count: u32) -> Result<Vec<u8>, NoMemory> {
    let mut lines = Vec::new(alloc);
    for number in 0..count {
        lines.extend_from_slice(b"file read ")?;
        lines.extend_from_slice(&name(alloc, number)?)?;
        lines.push(b'\n')?;
    }
    Ok(lines)
}

/// Lines of which none has a literal name.
const NAMELESS: &[u8] = b"network inet stream connect 10.0.0.2 81
network inet stream connect 10.0.0.1 80
network inet stream connect 10.0.0.4-10.0.0.5 80
network inet stream connect ::1 80-81
network inet dgram send 10.0.0.6 80
file read /var/lib/\\*.\\$
file read /var/\\{\\*\\}/a
file read /usr/\\(lib\\)/b
file read \\*/c
file read \\@
";

/// A connect of a stream to port 80 of this address.
fn connect(alloc: Global, addr: Addr) -> Result<Request, NoMemory> {
    let port = Number {
        value: 80,
        base: Base::Decimal,
    };
    let addr = AddrUnion::One(AddrRange {
        low: addr,
        high: addr,
    });
    let port = NumberUnion::One(Range {
        low: port,
        high: port,
    });
    request(alloc, Args::inet(alloc, InetKind::Stream, addr, port)?, 2)
}

/// The policy of these files, with an index.
fn indexed(alloc: Global, files: &PolicyFiles) -> Result<Indexed, NoMemory>
    ensures { IfOk result IsFew }
{
    match load_indexed(alloc, files) {
        Ok(rep) => Ok(rep),
        Err(_) => Err(AllocError),
    }
}

/// The policy of these files as it is.
fn plain(alloc: Global, files: &PolicyFiles) -> Result<Plain, NoMemory>
    ensures { IfOk result IsFew }
{
    match load(alloc, files) {
        Ok(policy) => Ok(Plain::new(policy)),
        Err(_) => Err(AllocError),
    }
}

/// The place of a domain's own entry that was found.
fn place(found: Option<Found>) -> Option<u32> {
    match found {
        Some(found) => match found.place {
            EntryPlace::Own(place) => Some(place),
            EntryPlace::Acl(_, _) => None,
        },
        None => None,
    }
}

/// The reply to a line that the first domain learns; the domain and its profile are there.
fn learn(alloc: Global, rep: &mut Indexed, line: &Entry) -> Result<LearnReply, NoMemory> {
    let Some(domain) = domain_at(rep.policy(), 0) else {
        return Err(AllocError);
    };
    let Some(_profile) = profile_of(rep.policy(), domain) else {
        return Err(AllocError);
    };
    if !is_few(rep.policy()) {
        return Err(AllocError);
    }
    rep.apply_learn(alloc, 0, line)
}

/// The reply to a line of the domain file, with the first domain chosen.
fn edit(alloc: Global, rep: &mut Indexed, line: &[u8]) -> Result<EditReply, NoMemory> {
    if !is_few(rep.policy()) {
        return Err(AllocError);
    }
    let mut cursor = Some(0);
    rep.apply_line(alloc, FileKind::Domain, &mut cursor, line)
}

/// Whether a walk and the index find the same for a read of this file, and find it or not as is
/// wanted.
fn agree(walked: &Plain, found: &Indexed, request: &Request, wanted: bool) -> bool
    requires walked { IsFew walked.now }
    requires found { IsFew found.now }
{
    let by_walk = place(walked.search(0, &process(), request));
    let by_index = place(found.search(0, &process(), request));
    by_walk == by_index && by_index.is_some() == wanted
}

/// Whether they agree on reads of all names below this number, which are there, and on that of the
/// name of the number.
fn all_agree(alloc: Global, walked: &Plain, found: &Indexed, count: u32) -> Result<bool, NoMemory>
    requires walked { IsFew walked.now }
    requires found { IsFew found.now }
{
    for number in 0..count {
        let request = read(alloc, &name(alloc, number)?)?;
        if !agree(walked, found, &request, true) {
            return Ok(false);
        }
    }
    let request = read(alloc, &name(alloc, count)?)?;
    Ok(agree(walked, found, &request, false))
}

/// Whether they agree on connects to addresses, some of which are there.
fn connects_agree(alloc: Global, walked: &Plain, found: &Indexed) -> Result<bool, NoMemory>
    requires walked { IsFew walked.now }
    requires found { IsFew found.now }
{
    let wanted = [
        (Addr::V4(0x0a00_0001), true),
        (Addr::V4(0x0a00_0002), false),
        (Addr::V4(0x0a00_0003), false),
        (Addr::V4(0x0a00_0004), true),
        (Addr::V4(0x0a00_0005), true),
        (Addr::V4(0x0a00_0006), false),
        (Addr::V6(1), true),
        (Addr::V6(0x0a00_0001), false),
        (Addr::V4(1), false),
    ];
    for (addr, there) in wanted.iter() {
        if !agree(walked, found, &connect(alloc, *addr)?, *there) {
            return Ok(false);
        }
    }
    Ok(true)
}

/// Whether they agree on reads of names, some of which a pattern matches.
fn reads_agree(alloc: Global, walked: &Plain, found: &Indexed) -> Result<bool, NoMemory>
    requires walked { IsFew walked.now }
    requires found { IsFew found.now }
{
    let wanted: [(&[u8], bool); 13] = [
        (b"/var/lib/x.1", true),
        (b"/var/lib/x.y", false),
        (b"/var/lib/x/y.1", false),
        (b"/var/lib", false),
        (b"/var/a/b/a", true),
        (b"/var/a", false),
        (b"/usr/b", true),
        (b"/usr/lib/lib/b", true),
        (b"/usr/lib/c", false),
        (b"a/c", true),
        (b"abc", true),
        (b"a.c", false),
        (b"", true),
    ];
    for (name, there) in wanted.iter() {
        if !agree(walked, found, &read(alloc, name)?, *there) {
            return Ok(false);
        }
    }
    Ok(true)
}

/// Appends the places of a name, a 99, the other places, and a 99.
fn tell(rep: &Indexed, name: &Word, told: &mut Vec<u32>) -> Result<(), NoMemory> {
    told.extend_from_slice(rep.literal_places(0, None, name))?;
    told.push(99)?;
    told.extend_from_slice(rep.other_places(0, None))?;
    told.push(99)?;
    Ok(())
}

/// Tells as the domain is loaded, after the line is learned, and after `file read /\*` is deleted.
fn tell_thrice(
    alloc: Global,
    rep: &mut Indexed,
    name: &Word,
    line: &Entry,
    told: &mut Vec<u32>,
) -> Result<(), NoMemory> {
    tell(rep, name, told)?;
    learn(alloc, rep, line)?;
    tell(rep, name, told)?;
    edit(alloc, rep, b"delete file read /\\*")?;
    tell(rep, name, told)
}

/// What is told of `/c`, which is learned.
fn follow(alloc: Global, rep: &mut Indexed, told: &mut Vec<u32>) -> Result<(), NoMemory> {
    let name = Word::from_bytes(alloc, b"/c")?;
    let line = entry(alloc, b"file read /c")?;
    tell_thrice(alloc, rep, &name, &line, told)
}

/// A domain of three lines, with an index.
fn three_lines(alloc: Global) -> Result<Indexed, NoMemory> {
    let lines = b"file read /a\nfile read /\\*\nnetwork inet stream connect 10.0.0.1 80\n";
    indexed(alloc, &files_of(alloc, lines)?)
}

#[test]
fn literal_lines_are_found_as_by_a_walk(rt: HostRuntime) -> Result<(), Fail> {
    let files = files_of(rt.alloc(), &lines(rt.alloc(), 1000)?)?;
    let walked = plain(rt.alloc(), &files)?;
    let found = indexed(rt.alloc(), &files)?;
    assert!(rt; all_agree(rt.alloc(), &walked, &found, 1000)?);
    Ok(())
}

#[test]
fn lines_without_a_literal_name_are_found_as_by_a_walk(rt: HostRuntime) -> Result<(), Fail> {
    let files = files_of(rt.alloc(), NAMELESS)?;
    let walked = plain(rt.alloc(), &files)?;
    let found = indexed(rt.alloc(), &files)?;
    assert!(rt; connects_agree(rt.alloc(), &walked, &found)?);
    assert!(rt; reads_agree(rt.alloc(), &walked, &found)?);
    Ok(())
}

#[test]
fn places_follow_what_is_learned_and_deleted(rt: HostRuntime) -> Result<(), Fail> {
    let mut rep = three_lines(rt.alloc())?;
    let mut told = Vec::new(rt.alloc());
    follow(rt.alloc(), &mut rep, &mut told)?;
    let wanted = [99, 1, 2, 99, 3, 99, 1, 2, 99, 2, 99, 1, 99];
    assert_eq!(rt; told.as_slice(), wanted.as_slice());
    Ok(())
}
