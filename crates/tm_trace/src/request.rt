//! Reading requests: an ACL line with one permission, literal names, single numbers and a single
//! address.
ghost use Rattle.std.specs.Prelude.{◌≡◌, Some, None, IfSome, MatchOption};
ghost use Rattle.tm_word.specs.Prelude.{Gives, GivesNow, words_of};
ghost use Rattle.tm_line.specs.Lines.{line_cause, word_at};
ghost use Rattle.tm_entry.specs.FileLines.{row_of};
ghost use Rattle.tm_entry.specs.NetLines.{inet_kind, unix_kind};
ghost use Rattle.tm_trace.specs.Requests.{one_of, only_at, place_in, literal_name, path_name, single_number, single_address, env_name, args_at, mount_at, row_request, named_path, file_request, inet_request, unix_request, network_request, misc_request, task_request, request_line};

use std::alloc::Global;
use tm_addr::read_addr;
use tm_entry::net::{inet_kind, inet_permissions, unix_kind, unix_permissions};
use tm_line::{Row, domain_at, group_word, mask_in};
use tm_number::{AddrRange, Range, read_number};
use tm_types::entry::{Args, InetKind, LineKind, UnixKind};
use tm_types::step::LineFault;
use tm_types::unions::{AddrUnion, NameUnion, NumberUnion};
use tm_word::{Pattern, Text, bytes_equal, cut_word, has_byte};

/// The words after this one, which has to stand next. Errors: `Arity` where no word is left,
/// `Keyword`. Takes no memory.
pub fn only_at<'a>(keyword: &[u8], words: &'a [Text]) -> Result<&'a [Text], LineFault>
    ensures { GivesNow line_cause (λ rest. rest.now) result (only_at keyword.now words.now) }
{
    match words {
        [] => Err(LineFault::Kind(LineKind::Arity)),
        [word, rest @ ..] => {
            if bytes_equal(word.bytes(), keyword) {
                Ok(rest)
            } else {
                Err(LineFault::Kind(LineKind::Keyword))
            }
        }
    }
}

// A literal name, without `@` in front.
#[tactic(auto, unfolding(crate::specs::Requests::literal_name))]
fn literal_name(alloc: Global, text: &[u8]) -> Result<NameUnion, LineFault>
    ensures { Gives line_cause (λ name. name) result (literal_name text.now) }
{
    if let [b'@', ..] = text {
        return Err(LineFault::Kind(LineKind::Name));
    }
    let word = group_word(alloc, text)?;
    Ok(NameUnion::One(Pattern::literal(word)))
}

/// A literal name for the permission at this place of single paths, which begins with `/` for an
/// execute.
#[tactic(auto, unfolding(crate::specs::Requests::path_name))]
pub(crate) fn path_name(alloc: Global, perm: u8, text: &[u8]) -> Result<NameUnion, LineFault>
    ensures { Gives line_cause (λ name. name) result (path_name perm text.now) }
{
    if perm == 0 {
        match text {
            [b'/', ..] => literal_name(alloc, text),
            _ => Err(LineFault::Kind(LineKind::Name)),
        }
    } else {
        literal_name(alloc, text)
    }
}

#[tactic(auto, unfolding(crate::specs::Requests::single_number))]
fn single_number(text: &[u8]) -> Result<NumberUnion, LineFault>
    ensures { GivesNow line_cause (λ number. number) result (single_number text.now) }
{
    match read_number(text) {
        Ok(number) => Ok(NumberUnion::One(Range {
            low: number,
            high: number,
        })),
        Err(_) => Err(LineFault::Kind(LineKind::Number)),
    }
}

#[tactic(auto, unfolding(crate::specs::Requests::single_address))]
fn single_address(text: &[u8]) -> Result<AddrUnion, LineFault>
    ensures { GivesNow line_cause (λ address. address) result (single_address text.now) }
{
    match read_addr(text) {
        Ok(address) => Ok(AddrUnion::One(AddrRange {
            low: address,
            high: address,
        })),
        Err(_) => Err(LineFault::Kind(LineKind::Address)),
    }
}

// The name of an environment variable, which may begin with `@` and has no `=`.
#[tactic(auto, unfolding(crate::specs::Requests::env_name))]
fn env_name(alloc: Global, text: &[u8]) -> Result<Pattern, LineFault>
    ensures { Gives line_cause (λ name. name) result (env_name text.now) }
{
    if has_byte(b'=', text) {
        return Err(LineFault::Kind(LineKind::Name));
    }
    let word = group_word(alloc, text)?;
    Ok(Pattern::literal(word))
}

fn path_at(alloc: Global, perm: u8, words: &[Text]) -> Result<(NameUnion, &[Text]), LineFault>
    ensures { Gives line_cause (λ x. (x.0, x.1.now)) result (word_at (path_name perm) words.now) }
{
    match words {
        [] => Err(LineFault::Kind(LineKind::Arity)),
        [word, rest @ ..] => Ok((path_name(alloc, perm, word.bytes())?, rest)),
    }
}

fn literal_at(alloc: Global, words: &[Text]) -> Result<(NameUnion, &[Text]), LineFault>
    ensures { Gives line_cause (λ x. (x.0, x.1.now)) result (word_at literal_name words.now) }
{
    match words {
        [] => Err(LineFault::Kind(LineKind::Arity)),
        [word, rest @ ..] => Ok((literal_name(alloc, word.bytes())?, rest)),
    }
}

fn number_at(words: &[Text]) -> Result<(NumberUnion, &[Text]), LineFault>
    ensures { GivesNow line_cause (λ x. (x.0, x.1.now)) result (word_at single_number words.now) }
{
    match words {
        [] => Err(LineFault::Kind(LineKind::Arity)),
        [word, rest @ ..] => Ok((single_number(word.bytes())?, rest)),
    }
}

fn address_at(words: &[Text]) -> Result<(AddrUnion, &[Text]), LineFault>
    ensures { GivesNow line_cause (λ x. (x.0, x.1.now)) result (word_at single_address words.now) }
{
    match words {
        [] => Err(LineFault::Kind(LineKind::Arity)),
        [word, rest @ ..] => Ok((single_address(word.bytes())?, rest)),
    }
}

fn env_at(alloc: Global, words: &[Text]) -> Result<(Pattern, &[Text]), LineFault>
    ensures { Gives line_cause (λ x. (x.0, x.1.now)) result (word_at env_name words.now) }
{
    match words {
        [] => Err(LineFault::Kind(LineKind::Arity)),
        [word, rest @ ..] => Ok((env_name(alloc, word.bytes())?, rest)),
    }
}

// The arguments of a row with a name and a number.
#[inline(never)]
#[tactic(auto, unfolding(crate::specs::Requests::args_at))]
fn numbered_at(alloc: Global, words: &[Text]) -> Result<(Args, &[Text]), LineFault>
    ensures { Gives line_cause (λ x. (x.0, x.1.now)) result (args_at Row.PathNumber 0 words.now) }
{
    let (name, rest) = literal_at(alloc, words)?;
    let (number, rest) = number_at(rest)?;
    Ok((Args::PathNumber(name, number), rest))
}

// The arguments of a row of devices.
#[inline(never)]
#[tactic(auto, unfolding(crate::specs::Requests::args_at))]
fn device_at(alloc: Global, words: &[Text]) -> Result<(Args, &[Text]), LineFault>
    ensures { Gives line_cause (λ x. (x.0, x.1.now)) result (args_at Row.Device 0 words.now) }
{
    let (name, rest) = literal_at(alloc, words)?;
    let (mode, rest) = number_at(rest)?;
    let (major, rest) = number_at(rest)?;
    let (minor, rest) = number_at(rest)?;
    Ok((Args::device(alloc, name, mode, major, minor)?, rest))
}

// The arguments of a row with two names.
#[inline(never)]
#[tactic(auto, unfolding(crate::specs::Requests::args_at))]
fn pair_at(alloc: Global, words: &[Text]) -> Result<(Args, &[Text]), LineFault>
    ensures { Gives line_cause (λ x. (x.0, x.1.now)) result (args_at Row.Pair 0 words.now) }
{
    let (first, rest) = literal_at(alloc, words)?;
    let (second, rest) = literal_at(alloc, rest)?;
    Ok((Args::Path2(first, second), rest))
}

// The arguments of a row of files. Those of the rare rows are read by functions that aren't
// inlined, so that the frame stays small.
#[tactic(auto, unfolding(crate::specs::Requests::args_at))]
fn args_at(alloc: Global, row: Row, perm: u8, words: &[Text]) -> Result<(Args, &[Text]), LineFault>
    ensures { Gives line_cause (λ x. (x.0, x.1.now)) result (args_at row perm words.now) }
{
    match row {
        Row::Path => {
            let (name, rest) = path_at(alloc, perm, words)?;
            Ok((Args::Path(name), rest))
        }
        Row::PathNumber => numbered_at(alloc, words),
        Row::Device => device_at(alloc, words),
        Row::Pair => pair_at(alloc, words),
        Row::Listening | Row::Sending => Err(LineFault::Kind(LineKind::Keyword)),
    }
}

#[inline(never)]
#[tactic(auto, unfolding(crate::specs::Requests::mount_at))]
fn mount_at(alloc: Global, words: &[Text]) -> Result<(Args, &[Text]), LineFault>
    ensures { Gives line_cause (λ x. (x.0, x.1.now)) result (mount_at words.now) }
{
    let (device, rest) = literal_at(alloc, words)?;
    let (dir, rest) = literal_at(alloc, rest)?;
    let (kind, rest) = literal_at(alloc, rest)?;
    let (flags, rest) = number_at(rest)?;
    Ok((Args::mount(alloc, device, dir, kind, flags)?, rest))
}

// The place of a permission in its row, from 0.
fn place_in(row: Row, word: &[u8]) -> Option<u8>
    ensures { result ≡ place_in row word.now }
{
    match mask_in(row, word) {
        Some(mask) => Some(mask.trailing_zeros() as u8),
        None => None,
    }
}

// A permission of a row in front.
fn perm_at(row: Row, words: &[Text]) -> Result<(u8, &[Text]), LineFault>
    ensures { GivesNow line_cause (λ x. (x.0, x.1.now)) result (one_of (place_in row) words.now) }
{
    match words {
        [] => Err(LineFault::Kind(LineKind::Arity)),
        [word, rest @ ..] => match place_in(row, word.bytes()) {
            Some(perm) => Ok((perm, rest)),
            None => Err(LineFault::Kind(LineKind::Keyword)),
        },
    }
}

// The row that has this permission, and its place there.
#[tactic(auto, using(crate::proofs::PlaceLaws::row_by_place))]
fn row_and_place(word: &[u8]) -> Option<(Row, u8)>
    ensures { MatchOption result (row_of word.now ≡ None)
        (λ found. (row_of word.now ≡ Some found.0) × (place_in found.0 word.now ≡ Some found.1)) }
{
    if let Some(place) = place_in(Row::Path, word) {
        return Some((Row::Path, place));
    }
    if let Some(place) = place_in(Row::PathNumber, word) {
        return Some((Row::PathNumber, place));
    }
    if let Some(place) = place_in(Row::Device, word) {
        return Some((Row::Device, place));
    }
    if let Some(place) = place_in(Row::Pair, word) {
        return Some((Row::Pair, place));
    }
    None
}

// What stands after the permission of a row of files.
fn row_request<'a>(
    alloc: Global,
    word: &[u8],
    words: &'a [Text],
) -> Result<(Args, u8, &'a [Text]), LineFault>
    ensures { Gives line_cause (λ x. (x.0, x.1, x.2.now)) result
        (row_request (row_of word.now) word.now words.now) }
{
    match row_and_place(word) {
        None => Err(LineFault::Kind(LineKind::Keyword)),
        Some((row, perm)) => {
            let (args, rest) = args_at(alloc, row, perm, words)?;
            Ok((args, perm, rest))
        }
    }
}

// What stands after `file`.
#[tactic(auto, unfolding(crate::specs::Requests::file_request))]
fn file_request(alloc: Global, words: &[Text]) -> Result<(Args, u8, &[Text]), LineFault>
    ensures { Gives line_cause (λ x. (x.0, x.1, x.2.now)) result (file_request words.now) }
{
    match words {
        [] => Err(LineFault::Kind(LineKind::Arity)),
        [word, rest @ ..] => {
            if bytes_equal(word.bytes(), b"mount") {
                let (args, rest) = mount_at(alloc, rest)?;
                Ok((args, 0, rest))
            } else {
                row_request(alloc, word.bytes(), rest)
            }
        }
    }
}

fn inet_kind_at(words: &[Text]) -> Result<(InetKind, &[Text]), LineFault>
    ensures { GivesNow line_cause (λ x. (x.0, x.1.now)) result (one_of inet_kind words.now) }
{
    match words {
        [] => Err(LineFault::Kind(LineKind::Arity)),
        [word, rest @ ..] => match inet_kind(word.bytes()) {
            Some(kind) => Ok((kind, rest)),
            None => Err(LineFault::Kind(LineKind::Keyword)),
        },
    }
}

fn unix_kind_at(words: &[Text]) -> Result<(UnixKind, &[Text]), LineFault>
    ensures { GivesNow line_cause (λ x. (x.0, x.1.now)) result (one_of unix_kind words.now) }
{
    match words {
        [] => Err(LineFault::Kind(LineKind::Arity)),
        [word, rest @ ..] => match unix_kind(word.bytes()) {
            Some(kind) => Ok((kind, rest)),
            None => Err(LineFault::Kind(LineKind::Keyword)),
        },
    }
}

// What stands after `network inet`.
#[tactic(auto, unfolding(crate::specs::Requests::inet_request))]
fn inet_request(alloc: Global, words: &[Text]) -> Result<(Args, u8, &[Text]), LineFault>
    ensures { Gives line_cause (λ x. (x.0, x.1, x.2.now)) result (inet_request words.now) }
{
    let (kind, rest) = inet_kind_at(words)?;
    let (perm, rest) = perm_at(inet_permissions(kind), rest)?;
    let (address, rest) = address_at(rest)?;
    let (port, rest) = number_at(rest)?;
    Ok((Args::inet(alloc, kind, address, port)?, perm, rest))
}

// What stands after `network unix`.
#[tactic(auto, unfolding(crate::specs::Requests::unix_request))]
fn unix_request(alloc: Global, words: &[Text]) -> Result<(Args, u8, &[Text]), LineFault>
    ensures { Gives line_cause (λ x. (x.0, x.1, x.2.now)) result (unix_request words.now) }
{
    let (kind, rest) = unix_kind_at(words)?;
    let (perm, rest) = perm_at(unix_permissions(kind), rest)?;
    let (name, rest) = literal_at(alloc, rest)?;
    Ok((Args::Unix(kind, name), perm, rest))
}

// What stands after `network`.
#[inline(never)]
#[tactic(auto, unfolding(crate::specs::Requests::network_request))]
fn network_request(alloc: Global, words: &[Text]) -> Result<(Args, u8, &[Text]), LineFault>
    ensures { Gives line_cause (λ x. (x.0, x.1, x.2.now)) result (network_request words.now) }
{
    match words {
        [] => Err(LineFault::Kind(LineKind::Arity)),
        [word, rest @ ..] => {
            if bytes_equal(word.bytes(), b"inet") {
                return inet_request(alloc, rest);
            }
            if bytes_equal(word.bytes(), b"unix") {
                return unix_request(alloc, rest);
            }
            Err(LineFault::Kind(LineKind::Keyword))
        }
    }
}

// What stands after `misc`.
#[inline(never)]
#[tactic(auto, unfolding(crate::specs::Requests::misc_request))]
fn misc_request(alloc: Global, words: &[Text]) -> Result<(Args, u8, &[Text]), LineFault>
    ensures { Gives line_cause (λ x. (x.0, x.1, x.2.now)) result (misc_request words.now) }
{
    let rest = only_at(b"env", words)?;
    let (name, rest) = env_at(alloc, rest)?;
    Ok((Args::Env(name), 0, rest))
}

// What stands after `task`.
#[inline(never)]
#[tactic(auto, unfolding(crate::specs::Requests::task_request))]
fn task_request(alloc: Global, words: &[Text]) -> Result<(Args, u8, &[Text]), LineFault>
    ensures { Gives line_cause (λ x. (x.0, x.1, x.2.now)) result (task_request words.now) }
{
    let rest = only_at(b"manual_domain_transition", words)?;
    let (domain, rest) = domain_at(alloc, rest)?;
    Ok((Args::Manual(domain), 0, rest))
}

/// The place of the permission, the name's word and the text after it, where a text begins with a
/// request of a single path. Takes no memory.
#[tactic(auto, using(crate::proofs::PlaceLaws::path_is))]
pub(crate) fn path_request(text: &[u8]) -> Option<(u8, &[u8], &[u8])>
    ensures { IfSome result (λ found. request_line (words_of text.now)
        ≡ named_path found.0 found.1.now (words_of found.2.now)) }
{
    let (keyword, rest) = cut_word(text)?;
    if !bytes_equal(keyword, b"file") {
        return None;
    }
    let (word, rest) = cut_word(rest)?;
    if bytes_equal(word, b"mount") {
        return None;
    }
    let perm = place_in(Row::Path, word)?;
    let (name, rest) = cut_word(rest)?;
    Some((perm, name, rest))
}

/// Reads a request at the front of these words: its arguments, the place of its permission, and the
/// words after them, which are its attributes.
///
/// Errors: `Arity` where a word is missing, another kind at the first wrong word.
#[tactic(auto, unfolding(crate::specs::Requests::request_line))]
pub fn request_line(alloc: Global, words: &[Text]) -> Result<(Args, u8, &[Text]), LineFault>
    ensures { Gives line_cause (λ x. (x.0, x.1, x.2.now)) result (request_line words.now) }
{
    match words {
        [] => Err(LineFault::Kind(LineKind::Arity)),
        [word, rest @ ..] => {
            if bytes_equal(word.bytes(), b"file") {
                return file_request(alloc, rest);
            }
            if bytes_equal(word.bytes(), b"network") {
                return network_request(alloc, rest);
            }
            if bytes_equal(word.bytes(), b"misc") {
                return misc_request(alloc, rest);
            }
            if bytes_equal(word.bytes(), b"task") {
                return task_request(alloc, rest);
            }
            Err(LineFault::Kind(LineKind::Keyword))
        }
    }
}
