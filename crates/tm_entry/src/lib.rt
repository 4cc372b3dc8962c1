//! The lines of access control entries: an ACL line of any row and its conditions.
//! Stands on `tm_line`, `tm_file`, `tm_net` and `tm_cond`, whose grammars and texts it joins.
//! Of its own, so that tm_trace, tm_run and tm_index have entries without the other policy lines.
//! Promises the grammar, one text that is read again, and that a quiet line executes nothing.
#![tactic(auto)]

ghost use Rattle.std.specs.Prelude.{◌≡◌, ◌++◌, true, false, List, Ok, IfOk, OnOk, OnErr};
ghost use Rattle.tm_word.specs.Prelude.{Gives, Text, Word, is_word, joined, words_of};
ghost use Rattle.std.specs.List.{list_all};
ghost use Rattle.tm_rules.specs.Types.{Entry, Request};
ghost use Rattle.tm_rules.specs.Prelude.{is_execute, is_path_word, is_quiet_acl, is_request, learned_line, lets_execute};
ghost use Rattle.tm_file.specs.Names.{is_path};
ghost use Rattle.tm_file.specs.Lines.{line_cause};
ghost use Rattle.tm_entry.specs.Entries.{acl_line, with_cond, entry_of, is_of_file, acl_words, entry_words, is_entry};

mod written;

use std::alloc::Global;
use tm_cond::{print_cond, read_cond};
use tm_file::{file_acl_at, print_file_acl};
use tm_list::NoMemory;
use tm_net::{net_acl_at, print_net_acl};
use tm_types::entry::{Args, Entry, LineKind, Perms};
use tm_types::step::LineFault;
use tm_word::{Text, begins, bytes_equal};
pub use written::is_written;

// A line of any row, and the words after it.
#[tactic(auto, unfolding(crate::specs::Entries::acl_line))]
fn acl_at(alloc: Global, words: &[Text]) -> Result<(Args, Perms, &[Text]), LineFault>
    ensures { Gives line_cause (λ x. (x.0, x.1, x.2.now)) result (acl_line words.now) }
{
    match words {
        [] => Err(LineFault::Kind(LineKind::Arity)),
        [word, rest @ ..] => {
            if bytes_equal(word.bytes(), b"file") {
                return file_acl_at(alloc, words);
            }
            if rest.is_empty() && begins(word.bytes(), b"file") {
                return Err(LineFault::Kind(LineKind::Arity));
            }
            net_acl_at(alloc, words)
        }
    }
}

// The entry of an ACL line with the conditions that these words are.
fn with_cond(alloc: Global, args: Args, perms: Perms, words: &[Text]) -> Result<Entry, LineFault>
    ensures { Gives line_cause (λ made. made) result (with_cond args perms words.now) }
{
    match read_cond(alloc, words) {
        Ok(cond) => Ok(Entry { args, perms, cond }),
        Err(fault) => Err(fault),
    }
}

/// Reads the line of an access control entry: an ACL line of any row, and its conditions, which are
/// all words after it.
///
/// Errors: the kind of the first word at which the line can't go on, which is `Condition` for each
/// wrong word after the arguments;
/// `Arity` where a word is missing or the last one is an unfinished keyword; or want of memory.
#[tactic(auto, unfolding(crate::specs::Entries::entry_of))]
pub fn read_entry(alloc: Global, words: &[Text]) -> Result<Entry, LineFault>
    ensures { Gives line_cause (λ entry. entry) result (entry_of words.now) }
{
    match acl_at(alloc, words) {
        Ok((args, perms, rest)) => with_cond(alloc, args, perms, rest),
        Err(fault) => Err(fault),
    }
}

fn is_of_file(args: &Args) -> bool
    ensures { result ≡ is_of_file args.now }
{
    !matches!(
        args,
        Args::Inet(_, _, _) | Args::Unix(_, _) | Args::Env(_) | Args::Manual(_)
    )
}

/// Appends the words of an ACL line, its arguments and these permissions, joined by single spaces.
/// After want of memory `out` is as before.
#[tactic(auto, unfolding(crate::specs::Entries::acl_words))]
pub fn print_acl(
    alloc: Global,
    args: &Args,
    perms: Perms,
    out: &mut Vec<u8>,
) -> Result<(), NoMemory>
    ensures ok { OnOk result (out.new.items ≡ out.old.items ++ joined (acl_words args.now perms)) }
    ensures err { OnErr result (out.new.items ≡ out.old.items) }
{
    if is_of_file(args) {
        print_file_acl(alloc, args, perms, out)
    } else {
        print_net_acl(alloc, args, perms, out)
    }
}

/// Appends the line of an entry, its words joined by single spaces: permissions in the row's order,
/// numbers in the base that they were written in, clauses in their order and `grant_log` last.
/// After want of memory `out` is as before.
#[tactic(auto, using(crate::proofs::TextLaws::entry_printed))]
pub fn print_entry(alloc: Global, entry: &Entry, out: &mut Vec<u8>) -> Result<(), NoMemory>
    ensures ok { OnOk result (out.new.items ≡ out.old.items ++ joined (entry_words entry.now)) }
    ensures err { OnErr result (out.new.items ≡ out.old.items) }
{
    let before = out.len();
    print_acl(alloc, &entry.args, entry.perms, out)?;
    match print_cond(alloc, &entry.cond, out) {
        Ok(()) => Ok(()),
        Err(refused) => {
            out.truncate(before);
            Err(refused)
        }
    }
}

/// Entries, as laws over all words: an entry that a line can write is read from its printed words
/// as the equal entry; what is read is one that a line can write, so that its printed words are its
/// normal form.
pub fn round_trip()
    ensures written { (entry : Entry) → is_entry entry ≡ true
        → entry_of (entry_words entry) ≡ Ok entry }
    // What is printed is made of words, which are found again in the line that joins them.
    ensures words { (entry : Entry) → is_entry entry ≡ true
        → list_all is_word (entry_words entry) ≡ true }
    ensures text { (entry : Entry) → is_entry entry ≡ true
        → words_of (joined (entry_words entry)) ≡ entry_words entry }
    ensures read { (words : List Text) (entry : Entry) → entry_of words ≡ Ok entry
        → is_entry entry ≡ true }
    ensures normal { (words : List Text) (entry : Entry) → entry_of words ≡ Ok entry →
        entry_of (entry_words entry) ≡ Ok entry }
{}

/// What is learned can be written, as a law over every request: the line that is learned for a
/// request that a trace can hold is one that a line of a policy can write, where the name that
/// stands for the path of an execute is a path of bytes.
pub fn learned_lines()
    ensures { (request : Request) (name : Word) → is_request is_path request ≡ true →
        (is_execute request ≡ true → is_path_word name ≡ true)
        → is_entry (learned_line request name) ≡ true }
{}

/// Quiet lines, as a law over all words: what is read from the words of an ACL line that doesn't
/// name `execute` among its permissions lets nothing be executed.
pub fn quiet_lines()
    ensures { (words : List Text) (entry : Entry) → is_quiet_acl words ≡ true
        → entry_of words ≡ Ok entry →
        lets_execute entry ≡ false }
{}

pub use tm_cond as cond;
pub use tm_file as file;
pub use tm_net as net;
