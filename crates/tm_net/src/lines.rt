//! Reading the lines of network, environment and task.
ghost use Rattle.std.specs.Prelude.{◌≡◌, ◌≤◌, ◌-◌, ℕ, true, List, map, Ok, length, drop, IfOk};
ghost use Rattle.std.specs.List.{list_all};
ghost use Rattle.tm_word.specs.Prelude.{Gives, GivesNow, Text, begins_row, is_word, joined, named, words_of};
ghost use Rattle.tm_rules.specs.Types.{Args, Perms};
ghost use Rattle.tm_line.specs.Lines.{line_cause, word_at};
ghost use Rattle.tm_net.specs.NetLines.{inet_kind, unix_kind, inet_permissions, unix_permissions, kind_at, perms_at, inet_line, unix_line, network_line, env_word, misc_line, task_line, starts_net, net_line, counted, net_words, is_net, perms, IsReadAgain};

use std::alloc::Global;
use tm_line::{
    Row, address_at, domain_at, keyword_at, keyword_kind, name_at, number_at, pattern_word,
    read_perms,
};
use tm_types::entry::{Args, InetKind, LineKind, Perms, UnixKind};
use tm_types::step::LineFault;
use tm_word::{Pattern, Text, begins, begins_in, bytes_equal, has_byte, value_of};

/// The kinds of internet sockets, by their names.
pub(crate) const INETS: [(&str, InetKind); 3] = [
    ("stream", InetKind::Stream),
    ("dgram", InetKind::Dgram),
    ("raw", InetKind::Raw),
];

/// The kinds of local sockets, by their names.
pub(crate) const UNIXES: [(&str, UnixKind); 3] = [
    ("stream", UnixKind::Stream),
    ("dgram", UnixKind::Dgram),
    ("seqpacket", UnixKind::Seqpacket),
];

/// The kind of internet socket with this name.
pub fn inet_kind(word: &[u8]) -> Option<InetKind>
    ensures { result ≡ inet_kind word.now }
{
    value_of(&INETS, word)
}

/// The kind of local socket with this name.
pub fn unix_kind(word: &[u8]) -> Option<UnixKind>
    ensures { result ≡ unix_kind word.now }
{
    value_of(&UNIXES, word)
}

/// Which permissions an internet socket of this kind has.
pub fn inet_permissions(kind: InetKind) -> Row
    ensures { result ≡ inet_permissions kind }
{
    match kind {
        InetKind::Stream => Row::Listening,
        InetKind::Dgram | InetKind::Raw => Row::Sending,
    }
}

/// Which permissions a local socket of this kind has.
pub fn unix_permissions(kind: UnixKind) -> Row
    ensures { result ≡ unix_permissions kind }
{
    match kind {
        UnixKind::Stream | UnixKind::Seqpacket => Row::Listening,
        UnixKind::Dgram => Row::Sending,
    }
}

// The value of the first word in a table, and the words after it.
fn kind_at<'a, V: Copy>(
    table: &[(&str, V)],
    words: &'a [Text],
) -> Result<(V, &'a [Text]), LineFault>
    ensures { GivesNow line_cause (λ x. (x.0, x.1.now)) result
        (kind_at (named (map (λ row. (row.0.now, row.1)) table.now))
        (begins_row (map (λ row. (row.0.now, row.1)) table.now)) words.now) }
{
    match words {
        [] => Err(LineFault::Kind(LineKind::Arity)),
        [word, rest @ ..] => match value_of(table, word.bytes()) {
            Some(kind) => Ok((kind, rest)),
            None => {
                let unfinished = rest.is_empty() && begins_in(table, word.bytes());
                Err(LineFault::Kind(keyword_kind(unfinished)))
            }
        },
    }
}

// The permissions of a row, and the words after them.
#[tactic(auto, unfolding(crate::specs::NetLines::perms_at))]
fn perms_at(alloc: Global, row: Row, words: &[Text]) -> Result<(u16, &[Text]), LineFault>
    ensures { Gives line_cause (λ x. (x.0, x.1.now)) result (perms_at row words.now) }
{
    match words {
        [] => Err(LineFault::Kind(LineKind::Arity)),
        [word, rest @ ..] => Ok((read_perms(alloc, row, word.bytes(), rest.is_empty())?, rest)),
    }
}

// What stands after `network inet`.
#[tactic(auto, unfolding(crate::specs::NetLines::inet_line))]
fn inet_line(alloc: Global, words: &[Text]) -> Result<(Args, Perms, &[Text]), LineFault>
    ensures { Gives line_cause (λ x. (x.0, x.1, x.2.now)) result (inet_line words.now) }
{
    let (kind, rest) = kind_at(&INETS, words)?;
    let (bits, rest) = perms_at(alloc, inet_permissions(kind), rest)?;
    let (address, rest) = address_at(alloc, rest)?;
    let (port, rest) = number_at(alloc, rest)?;
    Ok((
        Args::inet(alloc, kind, address, port)?,
        Perms { bits },
        rest,
    ))
}

// What stands after `network unix`.
#[tactic(auto, unfolding(crate::specs::NetLines::unix_line))]
fn unix_line(alloc: Global, words: &[Text]) -> Result<(Args, Perms, &[Text]), LineFault>
    ensures { Gives line_cause (λ x. (x.0, x.1, x.2.now)) result (unix_line words.now) }
{
    let (kind, rest) = kind_at(&UNIXES, words)?;
    let (bits, rest) = perms_at(alloc, unix_permissions(kind), rest)?;
    let (name, rest) = name_at(alloc, rest)?;
    Ok((Args::Unix(kind, name), Perms { bits }, rest))
}

// What stands after `network`.
#[tactic(auto, unfolding(crate::specs::NetLines::network_line))]
fn network_line(alloc: Global, words: &[Text]) -> Result<(Args, Perms, &[Text]), LineFault>
    ensures { Gives line_cause (λ x. (x.0, x.1, x.2.now)) result (network_line words.now) }
{
    match words {
        [] => Err(LineFault::Kind(LineKind::Arity)),
        [word, rest @ ..] => {
            if bytes_equal(word.bytes(), b"inet") {
                return inet_line(alloc, rest);
            }
            if bytes_equal(word.bytes(), b"unix") {
                return unix_line(alloc, rest);
            }
            if rest.is_empty() && (begins(word.bytes(), b"inet") || begins(word.bytes(), b"unix")) {
                return Err(LineFault::Kind(LineKind::Arity));
            }
            Err(LineFault::Kind(LineKind::Keyword))
        }
    }
}

// The name of an environment variable.
#[tactic(auto, unfolding(crate::specs::NetLines::env_word))]
fn env_word(alloc: Global, word: &[u8]) -> Result<Pattern, LineFault>
    ensures { Gives line_cause (λ x. x) result (env_word word.now) }
{
    match word {
        [] => Err(LineFault::Kind(LineKind::Name)),
        [_, ..] => {
            if has_byte(b'=', word) {
                Err(LineFault::Kind(LineKind::Name))
            } else {
                pattern_word(alloc, word)
            }
        }
    }
}

fn env_at(alloc: Global, words: &[Text]) -> Result<(Pattern, &[Text]), LineFault>
    ensures { Gives line_cause (λ x. (x.0, x.1.now)) result (word_at env_word words.now) }
{
    match words {
        [] => Err(LineFault::Kind(LineKind::Arity)),
        [word, rest @ ..] => Ok((env_word(alloc, word.bytes())?, rest)),
    }
}

// What stands after `misc`.
#[tactic(auto, unfolding(crate::specs::NetLines::misc_line))]
fn misc_line(alloc: Global, words: &[Text]) -> Result<(Args, Perms, &[Text]), LineFault>
    ensures { Gives line_cause (λ x. (x.0, x.1, x.2.now)) result (misc_line words.now) }
{
    let rest = keyword_at(b"env", words)?;
    let (name, rest) = env_at(alloc, rest)?;
    Ok((Args::Env(name), Perms { bits: 1 }, rest))
}

// What stands after `task`.
#[tactic(auto, unfolding(crate::specs::NetLines::task_line))]
fn task_line(alloc: Global, words: &[Text]) -> Result<(Args, Perms, &[Text]), LineFault>
    ensures { Gives line_cause (λ x. (x.0, x.1, x.2.now)) result (task_line words.now) }
{
    let rest = keyword_at(b"manual_domain_transition", words)?;
    let (domain, rest) = domain_at(alloc, rest)?;
    Ok((Args::Manual(domain), Perms { bits: 1 }, rest))
}

fn starts_net(word: &[u8]) -> bool
    ensures { result ≡ starts_net word.now }
{
    begins(word, b"network") || begins(word, b"misc") || begins(word, b"task")
}

/// Reads a `network`, `misc` or `task` line at the front of these words: its arguments and
/// permissions, and the words after them, which are its conditions.
///
/// Errors: the kind of the first word at which the line can't go on, and `Arity` where a word is
/// missing.
#[tactic(auto, unfolding(crate::specs::NetLines::net_line))]
pub fn net_acl_at(alloc: Global, words: &[Text]) -> Result<(Args, Perms, &[Text]), LineFault>
    ensures { Gives line_cause (λ x. (x.0, x.1, x.2.now)) result (net_line words.now) }
{
    match words {
        [] => Err(LineFault::Kind(LineKind::Arity)),
        [word, rest @ ..] => {
            if bytes_equal(word.bytes(), b"network") {
                return network_line(alloc, rest);
            }
            if bytes_equal(word.bytes(), b"misc") {
                return misc_line(alloc, rest);
            }
            if bytes_equal(word.bytes(), b"task") {
                return task_line(alloc, rest);
            }
            if rest.is_empty() && starts_net(word.bytes()) {
                return Err(LineFault::Kind(LineKind::Arity));
            }
            Err(LineFault::Kind(LineKind::Keyword))
        }
    }
}

/// Reads a `network`, `misc` or `task` line at the front of these words: its arguments and
/// permissions, and how many words they took.
///
/// Errors: the kind of the first word at which the line can't go on, and `Arity` where a word is
/// missing.
pub fn read_net_acl(alloc: Global, words: &[Text]) -> Result<(Args, Perms, usize), LineFault>
    ensures exact { Gives line_cause (λ x. x) result
        (counted (length words.now) (net_line words.now)) }
    ensures within { IfOk result (λ x. x.2 ≤ length words.now) }
{
    let (args, perms, rest) = net_acl_at(alloc, words)?;
    Ok((args, perms, words.len().saturating_sub(rest.len())))
}

/// Lines of network, environment and task, as laws over all words: arguments and permissions that a
/// line can write are read from their printed words, whatever conditions follow; what is read is
/// one that a line can write, and its printed words are read as the same. The first of the words
/// that follow doesn't begin with `/`.
pub fn round_trip()
    ensures written { (a : Args) (bits : ℕ) → is_net a bits ≡ true → IsReadAgain a (perms bits) }
    ensures read { (words rest : List Text) (a : Args) (p : Perms)
        → net_line words ≡ Ok (a, p, rest) → is_net a p.bits ≡ true }
    // How many words a line took tells which are left.
    ensures left { (words rest : List Text) (a : Args) (p : Perms)
        → net_line words ≡ Ok (a, p, rest) → rest ≡ drop (length words - length rest) words }
    // What is printed is made of words, which are found again in the line that joins them.
    ensures words { (a : Args) (bits : ℕ) → is_net a bits ≡ true
        → list_all is_word (net_words a bits) ≡ true }
    ensures text { (a : Args) (bits : ℕ) → is_net a bits ≡ true
        → words_of (joined (net_words a bits)) ≡ net_words a bits }
    ensures normal { (words rest : List Text) (a : Args) (p : Perms)
        → net_line words ≡ Ok (a, p, rest)
        → IsReadAgain a p }
{}
