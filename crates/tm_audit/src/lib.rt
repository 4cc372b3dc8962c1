//! Audit texts: what is written of a request once it is decided.
//! Stands on tm_change_domains for where a look stands, on tm_profile, and on tm_trace's printing.
//! Of its own, so that verdicts (tm_verdict) don't stand on audit texts, nor these on verdicts.
//! Promises that the text is the defined one, and that no memory is taken where there is none.
#![tactic(auto)]

ghost use Rattle.std.specs.Prelude.{◌≡◌, ◌++◌, Ok, None, IfOk, OnOk, decimal};
ghost use Rattle.std.specs.Option.{option_copied};
ghost use Rattle.tm_rules.specs.Types.{Policy};
ghost use Rattle.tm_change_domains.specs.Standing.{StandsIn};
ghost use Rattle.tm_grammar.specs.Tomoyo.{tomoyo_grammar};
ghost use Rattle.tm_rules.specs.Prelude.{audit_text, grant_logged, granted_text, ids_text, is_logged, reason_text};
ghost use Rattle.tm_audit.specs.Parts.{is_audited, logged, header, lines};

use std::alloc::Global;
use tm_change_domains::profile::config_of;
use tm_change_domains::{Standing, entry_at, standing_at};
use tm_grammar::trace::{print_attributes, print_request};
use tm_list::{NoMemory, Seq};
use tm_number::write_decimal;
use tm_types::entry::Entry;
use tm_types::function_at;
use tm_types::policy::{Domain, Logs, Mode, Namespace, Policy};
use tm_types::request::{Proc, Request};
use tm_types::verdict::{Reason, Verdict};
use tm_word::Text;

/// Whether a grant by an entry is logged: its own `grant_log` decides, without one the profile's.
fn grant_logged(logs: Logs, entry: Option<&Entry>) -> bool
    ensures { result ≡ grant_logged logs (option_copied entry.entry) }
{
    match entry {
        Some(entry) => entry.cond.grant_log.unwrap_or(logs.grant),
        None => logs.grant,
    }
}

/// Whether this reason is logged: a grant by an entry by the grant log, everything else by the
/// reject log.
fn is_logged(namespace: &Namespace, domain: &Domain, logs: Logs, reason: Reason) -> bool
    ensures { result ≡ is_logged namespace.now domain.now logs reason }
{
    match reason {
        Reason::Entry(place) => grant_logged(logs, entry_at(namespace, domain, place)),
        _ => logs.reject,
    }
}

/// Whether a text is made in this mode: not in mode disabled.
fn is_audited(mode: Mode) -> bool
    ensures { result ≡ is_audited mode }
{
    !matches!(mode, Mode::Disabled)
}

fn granted_text(reason: Reason) -> &'static [u8]
    ensures { result.now ≡ granted_text reason }
{
    match reason {
        Reason::Entry(_) => b"yes",
        _ => b"no",
    }
}

fn reason_text(reason: Reason) -> &'static [u8]
    ensures { result.now ≡ reason_text reason }
{
    match reason {
        Reason::Entry(_) => b"entry",
        Reason::Disabled => b"disabled",
        Reason::Permissive => b"permissive",
        Reason::Quota => b"quota",
        Reason::Learn => b"learn",
        Reason::Ask => b"ask",
        Reason::NoEntry => b"no_entry",
        Reason::NotReady => b"not_ready",
        Reason::NoManual => b"no_manual",
    }
}

/// Room for most texts, so that they are made without moving. What is kept of a text is made
/// anew, without the room that is left.
const TEXT_ROOM: usize = 1024;

/// Appends a key and a number, or a part of it.
fn push_id(alloc: Global, key: &[u8], id: u32, out: &mut Vec<u8>) -> Result<(), NoMemory>
    ensures { OnOk result (out.new.items ≡ out.old.items ++ key.now ++ decimal id) }
{
    out.extend_from_slice(key)?;
    write_decimal(alloc, u64::from(id), out)
}

/// Appends the process and its ids, or a part of them.
fn push_ids(alloc: Global, process: &Proc, out: &mut Vec<u8>) -> Result<(), NoMemory>
    ensures { OnOk result (out.new.items ≡ out.old.items ++ ids_text process.now) }
{
    push_id(alloc, b" pid=", process.pid, out)?;
    push_id(alloc, b" ppid=", process.ppid, out)?;
    push_id(alloc, b" uid=", process.ids.uid, out)?;
    push_id(alloc, b" euid=", process.ids.euid, out)?;
    push_id(alloc, b" suid=", process.ids.suid, out)?;
    push_id(alloc, b" fsuid=", process.ids.fsuid, out)?;
    push_id(alloc, b" gid=", process.ids.gid, out)?;
    push_id(alloc, b" egid=", process.ids.egid, out)?;
    push_id(alloc, b" sgid=", process.ids.sgid, out)?;
    push_id(alloc, b" fsgid=", process.ids.fsgid, out)?;
    Ok(())
}

/// The header without the attributes.
fn header(
    alloc: Global,
    domain: &Domain,
    mode: Mode,
    process: &Proc,
    reason: Reason,
) -> Result<Vec<u8>, NoMemory>
    ensures { IfOk result (λ text. text.items ≡ header domain.now mode process.now reason) }
{
    let mut text = Vec::with_capacity(alloc, TEXT_ROOM)?;
    text.extend_from_slice(b"profile=")?;
    write_decimal(alloc, u64::from(domain.profile), &mut text)?;
    text.extend_from_slice(b" mode=")?;
    text.extend_from_slice(mode.text().as_bytes())?;
    text.extend_from_slice(b" granted=")?;
    text.extend_from_slice(granted_text(reason))?;
    text.extend_from_slice(b" verdict=")?;
    text.extend_from_slice(reason_text(reason))?;
    push_ids(alloc, process, &mut text)?;
    Ok(text)
}

/// The header with the attributes, the domain, the request's line, and an empty line.
fn lines(
    alloc: Global,
    domain: &Domain,
    mode: Mode,
    process: &Proc,
    request: &Request,
    reason: Reason,
) -> Result<Text, NoMemory>
    ensures { IfOk result (λ text. text ≡ lines domain.now mode process.now request.now reason) }
{
    let mut text = header(alloc, domain, mode, process, reason)?;
    print_attributes(alloc, request, &mut text)?;
    text.push(b'\n')?;
    text.extend_from_slice(domain.name.bytes())?;
    text.push(b'\n')?;
    print_request(alloc, request, &mut text)?;
    text.extend_from_slice(b"\n\n")?;
    Seq::from_bytes(alloc, text.as_slice())
}

/// The mode of the text of this verdict, where one is made. Takes no memory.
#[tactic(auto, unfolding(crate::specs::Parts::logged))]
fn logged(standing: &Standing<'_>, request: &Request, verdict: &Verdict) -> Option<Mode>
    ensures { result ≡ logged standing.now request.now verdict.now }
{
    let function = function_at(request.args(), request.perm())?;
    let mode = verdict.mode?;
    let logs = config_of(standing.profile, function).logs;
    let reason = verdict.reason;
    if is_audited(mode) && is_logged(standing.namespace, standing.domain, logs, reason) {
        Some(mode)
    } else {
        None
    }
}

/// The audit text of a request of this process where the look's standing is known, by which nothing
/// is looked for again: as `audit_text` in the domain of its number.
pub fn audit_in(
    alloc: Global,
    standing: &Standing<'_>,
    process: &Proc,
    request: &Request,
    verdict: &Verdict,
) -> Result<Option<Text>, NoMemory>
    ensures exact { (policy : Policy) → StandsIn policy standing.now → IfOk result (λ text. text
        ≡ audit_text tomoyo_grammar policy standing.now.number process.now request.now
        verdict.now) }
    ensures none { (policy : Policy) → StandsIn policy standing.now →
        audit_text tomoyo_grammar policy standing.now.number process.now request.now verdict.now
        ≡ None → result ≡ Ok None }
{
    match logged(standing, request, verdict) {
        None => Ok(None),
        Some(mode) => {
            let text = lines(
                alloc,
                standing.domain,
                mode,
                process,
                request,
                verdict.reason,
            )?;
            Ok(Some(text))
        }
    }
}

/// The audit text of a request of this process in the domain of this number, on which this is the
/// verdict of this policy: the header with the attributes, the domain's name, the request's line,
/// and an empty line. None where the domain or its profile isn't there, for a manual transition, in
/// mode disabled, and where the log of the verdict's reason is off: for a grant by an entry its own
/// `grant_log` or else the profile's grant log, for every other reason the profile's reject log.
/// Takes no memory where there is no text. Errors: want of memory.
#[tactic(auto, using(crate::proofs::AuditLaws::audit_nowhere))]
pub fn audit_text(
    alloc: Global,
    policy: &Policy,
    domain: u32,
    process: &Proc,
    request: &Request,
    verdict: &Verdict,
) -> Result<Option<Text>, NoMemory>
    ensures exact { IfOk result (λ text. text
        ≡ audit_text tomoyo_grammar policy.now domain process.now request.now verdict.now) }
    ensures none { audit_text tomoyo_grammar policy.now domain process.now request.now verdict.now
        ≡ None → result ≡ Ok None }
{
    match standing_at(policy, domain) {
        Some(standing) => audit_in(alloc, &standing, process, request, verdict),
        None => Ok(None),
    }
}

pub use tm_change_domains as change_domains;
