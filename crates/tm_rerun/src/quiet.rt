//! Quiet edits: those that can't change where an execute leads or what a mode is.
ghost use Rattle.std.specs.Prelude.{◌≡◌, ◌==◌, [], ◌∷◌, codes};
ghost use Rattle.std.specs.List.{slice_split};
ghost use Rattle.tm_word.specs.Prelude.{words_of};
ghost use Rattle.tm_rules.specs.Prelude.{is_one_of, is_quiet, is_quiet_acl, is_quiet_group, is_quiet_line, without_namespace};

use tm_types::step::FileKind;
use tm_word::{begins_with, bytes_equal, cut_word};

// Whether `execute` is among the permissions of a line.
fn has_execute(permissions: &[u8]) -> bool
    ensures { result ≡ is_one_of (codes "execute") (slice_split (λ b. b == 47) permissions.now) }
{
    let mut found = false;
    for piece in permissions.split(|byte| *byte == b'/') {
        if bytes_equal(b"execute", piece) {
            found = true;
        }
    }
    found
}

// Whether an ACL line begins with this word.
fn begins_acl(word: &[u8]) -> bool
    ensures { result
        ≡ is_one_of word.now (codes "file" ∷ codes "network" ∷ codes "misc" ∷ codes "task" ∷ []) }
{
    bytes_equal(word, b"file")
        || bytes_equal(word, b"network")
        || bytes_equal(word, b"misc")
        || bytes_equal(word, b"task")
}

fn is_quiet_acl(line: &[u8]) -> bool
    ensures { result ≡ is_quiet_acl (words_of line.now) }
{
    match cut_word(line) {
        None => false,
        Some((kind, rest)) => match cut_word(rest) {
            None => begins_acl(kind),
            Some((permissions, _)) => begins_acl(kind) && !has_execute(permissions),
        },
    }
}

fn is_quiet_group(line: &[u8]) -> bool
    ensures { result ≡ is_quiet_group (words_of line.now) }
{
    match cut_word(line) {
        None => false,
        Some((word, rest)) => match cut_word(rest) {
            None => false,
            Some((_, rest)) => bytes_equal(word, b"acl_group") && is_quiet_acl(rest),
        },
    }
}

fn is_quiet_exception(line: &[u8]) -> bool
    ensures { result ≡ is_quiet_group (without_namespace (words_of line.now)) }
{
    match cut_word(line) {
        None => false,
        Some((word, rest)) => {
            if begins_with(b'<', word) {
                is_quiet_group(rest)
            } else {
                is_quiet_group(line)
            }
        }
    }
}

fn is_quiet_domain(line: &[u8]) -> bool
    ensures { result ≡ is_quiet_line FileKind.Domain (words_of line.now) }
{
    match cut_word(line) {
        None => false,
        Some((word, _)) => bytes_equal(word, b"select") || is_quiet_acl(line),
    }
}

/// Whether an edit can't change where an execute leads or what a mode is, by the words of its line
/// alone: any line of the managers, a `select` or an ACL line without the permission execute in the
/// domains, and such an ACL line of an ACL group in the exceptions.
#[tactic(auto, unfolding(tm_rules::specs::Clean::is_quiet))]
pub(crate) fn is_quiet(file: FileKind, line: &[u8]) -> bool
    ensures { result ≡ is_quiet file line.now }
{
    match file {
        FileKind::Manager => true,
        FileKind::Domain => is_quiet_domain(line),
        FileKind::Exception => is_quiet_exception(line),
        FileKind::Profile => false,
    }
}
