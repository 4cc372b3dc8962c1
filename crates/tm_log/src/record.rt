//! Reading a record: who asked for what in which domain, and whether it was refused.
ghost use Rattle.std.specs.Prelude.{◌≡◌, ◌++◌, [], IfOk, OnOk};
ghost use Rattle.tm_word.specs.Prelude.{Gives, GivesNow, words_of};
ghost use Rattle.tm_line.specs.Lines.{line_cause};
ghost use Rattle.tm_log.specs.Reasons.{record_cause};
ghost use Rattle.tm_log.specs.Records.{is_flag, is_task, whole, whole_request, first_stats, second_stats, stats_of, attributes_of, executed, linked, no_words, with_attributes, asked, told, header_in, domain_in, with_domain, three_lines, record_of, is_cut_execute};

use crate::blocks::{Found, push_found};
use crate::exec::{environment_of, is_cut};
use crate::faults::{Reason, RecordFault, as_reason};
use crate::header::{Header, read_header};
use std::alloc::Global;
use tm_line::domain_to_end;
use tm_list::{Copied, NoMemory, Seq};
use tm_trace::request_line;
use tm_types::entry::{Args, LineKind, StatPlace};
use tm_types::request::{Attributes, Proc, Request, Stat};
use tm_types::step::LineFault;
use tm_types::unions::DomainName;
use tm_word::{Text, bytes_equal, normal_words};

/// A record that can be used: the process that asked, by the pid of its task in the first namespace
/// and by what it is in its own; the domain that it was in; what it asked; whether that was
/// refused; and whether the kernel cut the arguments of an execute.
#[derive(Drop)]
pub struct Record {
    pub global_pid: u32,
    pub process: Proc,
    pub domain: DomainName,
    pub request: Request,
    pub refused: bool,
    pub cut: bool,
}

// Whether a line tells of a flag of the domain.
fn is_flag(words: &[Text]) -> bool
    ensures { result ≡ is_flag words.now }
{
    match words {
        [] => false,
        [word, ..] => {
            bytes_equal(word.bytes(), b"use_profile")
                || bytes_equal(word.bytes(), b"use_group")
                || bytes_equal(word.bytes(), b"quota_exceeded")
                || bytes_equal(word.bytes(), b"transition_failed")
        }
    }
}

// Whether a request is one that no record is of.
fn is_task(words: &[Text]) -> bool
    ensures { result ≡ is_task words.now }
{
    match words {
        [] => false,
        [word, ..] => bytes_equal(word.bytes(), b"task"),
    }
}

// A request after which no word is left.
fn whole(args: Args, perm: u8, rest: &[Text]) -> Result<(Args, u8), LineFault>
    ensures { GivesNow line_cause (λ x. x) result (whole args perm rest.now) }
{
    if rest.is_empty() {
        Ok((args, perm))
    } else {
        Err(LineFault::Kind(LineKind::Arity))
    }
}

// The request of all words of a line: its arguments and the place of its permission.
#[tactic(auto, unfolding(crate::specs::Records::whole_request))]
fn whole_request(alloc: Global, words: &[Text]) -> Result<(Args, u8), LineFault>
    ensures { Gives line_cause (λ x. x) result (whole_request words.now) }
{
    if is_task(words) {
        return Err(LineFault::Kind(LineKind::Keyword));
    }
    match request_line(alloc, words) {
        Ok((args, perm, rest)) => whole(args, perm, rest),
        Err(fault) => Err(fault),
    }
}

// Appends the attributes of the first name.
fn push_first(found: Found, out: &mut Vec<Stat>) -> Result<(), NoMemory>
    ensures { OnOk result (out.new.items ≡ out.old.items ++ first_stats found) }
{
    push_found(StatPlace::Path1, StatPlace::Path1Parent, found, out)
}

// Appends the attributes of the second name.
fn push_second(found: Found, out: &mut Vec<Stat>) -> Result<(), NoMemory>
    ensures { OnOk result (out.new.items ≡ out.old.items ++ second_stats found) }
{
    push_found(StatPlace::Path2, StatPlace::Path2Parent, found, out)
}

// The attributes of files that a request has: none of network and environment requests, those of
// the second name where there is one.
#[tactic(auto, unfolding(crate::specs::Records::stats_of))]
fn stats_of(alloc: Global, args: &Args, header: &Header) -> Result<Seq<Stat>, NoMemory>
    ensures { IfOk result (λ stats. stats ≡ stats_of args.now header.now) }
{
    let mut stats = Vec::new(alloc);
    match args {
        Args::Inet(_, _, _) | Args::Unix(_, _) | Args::Env(_) | Args::Manual(_) => {}
        Args::Path2(_, _) => {
            push_first(header.first, &mut stats)?;
            push_second(header.second, &mut stats)?;
        }
        _ => push_first(header.first, &mut stats)?,
    }
    Ok(Seq::from_vec(stats))
}

// The attributes of an execute.
#[tactic(auto, unfolding(crate::specs::Records::executed))]
fn executed(alloc: Global, header: &Header, stats: Seq<Stat>) -> Result<Attributes, RecordFault>
    ensures { Gives record_cause (λ at. at) result (executed header.now stats) }
{
    let Some(exec) = &header.exec else {
        return Err(RecordFault::Reason(Reason::Arguments));
    };
    if exec.argv.is_empty() {
        return Err(RecordFault::Reason(Reason::Arguments));
    }
    Ok(Attributes {
        real_path: Some(exec.real_path.copy(alloc)?),
        argv: exec.argv.copy(alloc)?,
        envp: environment_of(alloc, exec.envp.as_slice())?,
        target: None,
        stats,
    })
}

// The attributes of a request for a symlink.
#[tactic(auto, unfolding(crate::specs::Records::linked))]
fn linked(alloc: Global, header: &Header, stats: Seq<Stat>) -> Result<Attributes, RecordFault>
    ensures { Gives record_cause (λ at. at) result (linked header.now stats) }
{
    let Some(target) = &header.target else {
        return Err(RecordFault::Reason(Reason::Arguments));
    };
    Ok(Attributes {
        real_path: None,
        argv: Seq::new(alloc),
        envp: Seq::new(alloc),
        target: Some(target.copy(alloc)?),
        stats,
    })
}

// The attributes of any other request.
fn plain(alloc: Global, stats: Seq<Stat>) -> Attributes
    ensures { result ≡ no_words stats }
{
    Attributes {
        real_path: None,
        argv: Seq::new(alloc),
        envp: Seq::new(alloc),
        target: None,
        stats,
    }
}

// The attributes of a request with these arguments and the permission at this place.
#[tactic(auto, unfolding(crate::specs::Records::attributes_of))]
fn attributes_of(
    alloc: Global,
    args: &Args,
    perm: u8,
    header: &Header,
) -> Result<Attributes, RecordFault>
    ensures { Gives record_cause (λ at. at) result (attributes_of args.now perm header.now) }
{
    let stats = stats_of(alloc, args, header)?;
    match args {
        Args::Path(_) => match perm {
            0 => executed(alloc, header, stats),
            8 => linked(alloc, header, stats),
            _ => Ok(plain(alloc, stats)),
        },
        _ => Ok(plain(alloc, stats)),
    }
}

// Whether it is an execute of which the kernel left words out.
fn is_cut_execute(request: &Request, header: &Header) -> bool
    ensures { result ≡ is_cut_execute request.now.attributes header.now }
{
    match &header.exec {
        None => false,
        Some(exec) => request.real_path().is_some() && is_cut(exec),
    }
}

// A request with what the header tells of it.
#[tactic(auto, unfolding(crate::specs::Records::with_attributes))]
fn with_attributes(
    alloc: Global,
    header: &Header,
    args: Args,
    perm: u8,
) -> Result<Request, RecordFault>
    ensures { Gives record_cause (λ request. request) result
        (with_attributes header.now args perm) }
{
    let attributes = attributes_of(alloc, &args, perm, header)?;
    Ok(Request::new(alloc, args, perm, attributes)?)
}

// The request of a line, with what the header tells of it.
#[tactic(auto, unfolding(crate::specs::Records::asked))]
fn asked(alloc: Global, header: &Header, words: &[Text]) -> Result<Request, RecordFault>
    ensures { Gives record_cause (λ request. request) result (asked header.now words.now) }
{
    if is_flag(words) {
        return Err(RecordFault::Reason(Reason::Flag));
    }
    match as_reason(Reason::Request, whole_request(alloc, words)) {
        Ok((args, perm)) => with_attributes(alloc, header, args, perm),
        Err(fault) => Err(fault),
    }
}

// What a header, a domain and a request tell together.
fn told(header: Header, domain: DomainName, request: Request) -> Record
    ensures { result ≡ told header domain request }
{
    let cut = is_cut_execute(&request, &header);
    Record {
        global_pid: header.global_pid,
        process: header.process,
        domain,
        request,
        refused: header.refused,
        cut,
    }
}

// The header of a line.
#[tactic(auto, unfolding(crate::specs::Records::header_in))]
fn header_in(alloc: Global, line: &[u8]) -> Result<Header, RecordFault>
    ensures { Gives record_cause (λ header. header) result (header_in line.now) }
{
    let words = normal_words(alloc, line)?;
    as_reason(Reason::Header, read_header(alloc, &words))
}

// The domain of a line.
#[tactic(auto, unfolding(crate::specs::Records::domain_in))]
fn domain_in(alloc: Global, line: &[u8]) -> Result<DomainName, RecordFault>
    ensures { Gives record_cause (λ name. name) result (domain_in line.now) }
{
    let words = normal_words(alloc, line)?;
    as_reason(Reason::Domain, domain_to_end(alloc, &words))
}

// The record of a header, a domain and the line of a request.
#[tactic(auto, unfolding(crate::specs::Records::with_domain))]
fn with_domain(
    alloc: Global,
    header: Header,
    domain: DomainName,
    request: &[u8],
) -> Result<Record, RecordFault>
    ensures { Gives record_cause (λ made. made) result (with_domain header domain request.now) }
{
    let words = normal_words(alloc, request)?;
    match asked(alloc, &header, &words) {
        Ok(request) => Ok(told(header, domain, request)),
        Err(fault) => Err(fault),
    }
}

// The record of its three lines.
#[tactic(auto, unfolding(crate::specs::Records::three_lines))]
fn three_lines(
    alloc: Global,
    header: &[u8],
    domain: &[u8],
    request: &[u8],
) -> Result<Record, RecordFault>
    ensures { Gives record_cause (λ made. made) result
        (three_lines header.now domain.now request.now) }
{
    let header = header_in(alloc, header)?;
    let domain = domain_in(alloc, domain)?;
    with_domain(alloc, header, domain, request)
}

/// Reads the lines of a record: a header, a domain and a request. Of a record with more than three
/// lines four are enough.
///
/// Errors: the first reason that fits, in the order in which they are listed, or want of memory.
pub fn read_record(alloc: Global, lines: &[Text]) -> Result<Record, RecordFault>
    ensures { Gives record_cause (λ made. made) result (record_of lines.now) }
{
    match lines {
        [] | [_] | [_, _] => Err(RecordFault::Reason(Reason::Cut)),
        [header, domain, request] => {
            three_lines(alloc, header.bytes(), domain.bytes(), request.bytes())
        }
        [_, _, _, _, ..] => Err(RecordFault::Reason(Reason::Long)),
    }
}
