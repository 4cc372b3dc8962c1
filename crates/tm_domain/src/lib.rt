//! Domain names as text, and the names that transitions make from names.
//! Stands on the patterns of `tm_pattern` and on the rules of `tm_rules`, whose names it makes.
//! Of its own, below tm_line, so that tm_log_processes has names of domains without lines.
//! Promises the grammar with the first fault, and for each made name the one of its rule.
#![tactic(auto)]

ghost use Rattle.std.specs.Prelude.{◌≡◌, ◌+◌, ◌-◌, ◌<◌, ◌≤◌, ◌==◌, ℕ, List, [], ◌∷◌, ◌++◌, length, Bool, true, not, ◌&&◌, ◌||◌, ◌↔◌, codes, false, Some, None, Ok, Err, MatchOption, IfOk, IsTrue};
ghost use Rattle.std.specs.List.{position, slice_split, suffix_len, list_any};
ghost use Rattle.tm_pattern.specs.Words.{Text};
ghost use Rattle.tm_pattern.specs.Texts.{texts_equal, begins_with_byte};
ghost use Rattle.tm_rules.specs.Prelude.{child_name, initial_name, is_domain_name, is_namespace_word, last_word, namespace_word, root_name};
ghost use Rattle.tm_pattern.specs.Gives.{Gives, GivesNow};
ghost use Rattle.tm_domain.specs.Names.{HasNoBrackets, IsInBrackets, domain_cause, is_read, short_name, is_path, bad_path, domain_of, parent_of, preferred_name};
ghost use Rattle.tm_domain.specs.declared.DomainFault.TheVariants.{NoMemory};

use std::alloc::{AllocError, AllocFailed, Global};
use thiserror::Error;
use tm_pattern::is_pattern;
use tm_pattern::list::{NoMemory, Seq};
use tm_pattern::word::{begins_with, bytes_equal, cut_at, place_of};
use tm_rules::types::entry::Prefer;
use tm_rules::types::unions::DomainName;

/// Why a text is no domain name. The faults of the words come in their order, and the length last.
#[derive(Clone, Copy, PartialEq, Eq, Debug, Error)]
pub enum DomainFault {
    /// The first word is neither `<kernel>` nor a path in angle brackets.
    #[error("a domain name begins with <kernel> or a path in angle brackets")]
    NoNamespace,
    /// The word with this number, counted from 1 after the namespace word, is the first that is no
    /// path.
    #[error("word {0} after the namespace word is no path")]
    BadPath(usize),
    /// The name is over 4,085 bytes long.
    #[error("a domain name of over 4,085 bytes")]
    TooLong,
    /// Memory ran out.
    #[error("out of memory")]
    NoMemory,
}

impl From<AllocError> for DomainFault {
    ghost from_gives = { λ _ e. e ≡ NoMemory };

    fn from(_e: AllocError) -> DomainFault {
        DomainFault::NoMemory
    }
}

impl<T: Drop> From<AllocFailed<T>> for DomainFault {
    ghost from_gives = { λ _ e. e ≡ NoMemory };

    fn from(_e: AllocFailed<T>) -> DomainFault {
        DomainFault::NoMemory
    }
}

/// Whether a word is a path: a pattern that begins with `/`. Takes no memory.
#[tactic(auto, unfolding(crate::specs::Names::is_path))]
pub fn is_path(word: &[u8]) -> bool
    ensures { result ≡ is_path word.now }
{
    begins_with(b'/', word) && is_pattern(word)
}

/// What stands in angle brackets.
fn in_brackets(word: &[u8]) -> Option<&[u8]>
    ensures { MatchOption result (HasNoBrackets word.now)
        (λ inner. IsInBrackets word.now inner.now) }
{
    if word.len() >= 2 && word[0] == b'<' && word[word.len() - 1] == b'>' {
        Some(&word[1..word.len() - 1])
    } else {
        None
    }
}

/// Whether a word is `<kernel>` or a path in angle brackets.
fn is_namespace_word(word: &[u8]) -> bool
    ensures { result ≡ is_namespace_word is_path word.now }
{
    match in_brackets(word) {
        None => false,
        Some(inner) => is_path(inner) || bytes_equal(inner, b"kernel"),
    }
}

/// The number of the first word that is no path, counted from 1.
fn bad_path(text: &[u8]) -> Option<usize>
    ensures { result ≡ bad_path 1 (slice_split (λ b. b == 32) text.now) }
{
    let mut rest = text;
    let mut number = 1;
    while let Some((word, after)) = cut_at(b' ', rest) {
        if !is_path(word) {
            return Some(number);
        }
        rest = after;
        number += 1;
    }
    if is_path(rest) { None } else { Some(number) }
}

/// Refuses a name that is too long.
fn judge_length(text: &[u8]) -> Result<(), DomainFault>
    ensures { GivesNow domain_cause (λ nothing. text.now) result (short_name text.now) }
{
    if text.len() <= 4085 {
        Ok(())
    } else {
        Err(DomainFault::TooLong)
    }
}

/// Refuses a text that is no domain name.
#[tactic(auto, unfolding(crate::specs::Names::domain_of))]
fn judge(text: &[u8]) -> Result<(), DomainFault>
    ensures { GivesNow domain_cause (λ nothing. text.now) result (domain_of text.now) }
{
    match cut_at(b' ', text) {
        None => {
            if is_namespace_word(text) {
                judge_length(text)
            } else {
                Err(DomainFault::NoNamespace)
            }
        }
        Some((first, paths)) => {
            if !is_namespace_word(first) {
                return Err(DomainFault::NoNamespace);
            }
            match bad_path(paths) {
                Some(number) => Err(DomainFault::BadPath(number)),
                None => judge_length(text),
            }
        }
    }
}

/// Whether a text is a domain name, as `read_domain` reads it. Takes no memory.
#[tactic(auto, using(crate::proofs::NameLaws::right_name))]
pub fn is_domain_name(text: &[u8]) -> bool
    ensures { result ≡ is_domain_name is_path text.now }
{
    judge(text).is_ok()
}

/// The text as a domain name, unless it is none.
fn judged(text: Seq<u8>) -> Result<DomainName, DomainFault>
    ensures exact { Gives domain_cause (λ x. x) result (domain_of text) }
    ensures made { IfOk result (λ name. name ≡ text) }
{
    judge(text.bytes())?;
    Ok(text)
}

/// Reads a domain name: `<kernel>` or a path in angle brackets, and then paths, joined by single
/// spaces.
///
/// Errors: `NoNamespace` where the first word is no namespace word, else `BadPath(n)` where word n
/// after it is the first that is no path, else `TooLong` over 4,085 bytes.
pub fn read_domain(alloc: Global, text: &[u8]) -> Result<DomainName, DomainFault>
    ensures exact { Gives domain_cause (λ x. x) result (domain_of text.now) }
    ensures made { IfOk result (λ name. name ≡ text.now) }
{
    judge(text)?;
    Ok(Seq::from_bytes(alloc, text)?)
}

/// Where the last word begins.
fn last_start(text: &[u8]) -> usize
    ensures value { result ≡ length text.now - suffix_len (λ b. not (b == 32)) text.now }
    ensures within { result ≤ length text.now }
    ensures parent { (0 < result) ↔ IsTrue (list_any (λ b. b == 32) text.now) }
{
    let mut start = text.len();
    while start > 0 && text[start - 1] != b' ' {
        start -= 1;
    }
    start
}

/// The last word of a name: the program that a process of this domain runs, or the namespace word.
pub fn last_word(name: &DomainName) -> &[u8]
    ensures { result.now ≡ last_word name.now }
{
    let text = name.bytes();
    &text[last_start(text)..]
}

/// The first word of a name, which names its namespace.
pub fn namespace(name: &DomainName) -> &[u8]
    ensures { result.now ≡ namespace_word name.now }
{
    let text = name.bytes();
    match place_of(b' ', text) {
        Some(place) => &text[..place],
        None => text,
    }
}

/// A name, a space and a path.
fn joined(alloc: Global, front: &[u8], path: &[u8]) -> Result<Seq<u8>, NoMemory>
    ensures { IfOk result (λ made. made ≡ child_name front.now path.now) }
{
    let mut made = Vec::from_slice(alloc, front)?;
    made.push(b' ')?;
    made.extend_from_slice(path)?;
    Ok(Seq::from_vec(made))
}

/// A path in angle brackets.
fn bracketed(alloc: Global, path: &[u8]) -> Result<Seq<u8>, NoMemory>
    ensures { IfOk result (λ made. made ≡ root_name path.now) }
{
    let mut made = Vec::new(alloc);
    made.push(b'<')?;
    made.extend_from_slice(path)?;
    made.push(b'>')?;
    Ok(Seq::from_vec(made))
}

/// The name below a domain: where an execute of the path leads by itself. Refused as by
/// `read_domain`.
pub fn child(alloc: Global, name: &DomainName, path: &[u8]) -> Result<DomainName, DomainFault>
    ensures exact { Gives domain_cause (λ x. x) result (domain_of (child_name name.now path.now)) }
    ensures made { IfOk result (λ made. made ≡ child_name name.now path.now) }
{
    let made = joined(alloc, name.bytes(), path)?;
    judged(made)
}

/// The name directly below the namespace word of a domain: where initialize leads. Refused as by
/// `read_domain`.
pub fn initial(alloc: Global, name: &DomainName, path: &[u8]) -> Result<DomainName, DomainFault>
    ensures exact { Gives domain_cause (λ x. x) result
        (domain_of (initial_name name.now path.now)) }
    ensures made { IfOk result (λ made. made ≡ initial_name name.now path.now) }
{
    let made = joined(alloc, namespace(name), path)?;
    judged(made)
}

/// The namespace word of a path: where reset leads. Refused as by `read_domain`.
pub fn root(alloc: Global, path: &[u8]) -> Result<DomainName, DomainFault>
    ensures exact { Gives domain_cause (λ x. x) result (domain_of (root_name path.now)) }
    ensures made { IfOk result (λ made. made ≡ root_name path.now) }
{
    let made = bracketed(alloc, path)?;
    judged(made)
}

/// The name without its last word; `None` exactly for a namespace word alone.
pub fn parent(alloc: Global, name: &DomainName) -> Result<Option<DomainName>, NoMemory>
    ensures { IfOk result (λ parent. parent ≡ parent_of name.now) }
{
    let text = name.bytes();
    let start = last_start(text);
    if start == 0 {
        return Ok(None);
    }
    Ok(Some(Seq::from_bytes(alloc, &text[..start - 1])?))
}

/// Where a transition preference leads, for a domain and a candidate: keep to the domain itself,
/// child and initialize and reset as the calls of these names, parent to the name without its last
/// word (a namespace word alone is its own parent), a path to the name below the domain, a domain
/// name to that domain. Refused as by `read_domain`.
#[tactic(auto, unfolding(crate::specs::Names::preferred_name, tm_rules::specs::Transition::target_name))]
pub fn preferred(
    alloc: Global,
    name: &DomainName,
    candidate: &[u8],
    prefer: &Prefer,
) -> Result<DomainName, DomainFault>
    ensures exact { Gives domain_cause (λ x. x) result
        (domain_of (preferred_name name.now candidate.now prefer.now)) }
    ensures made { IfOk result (λ made. made ≡ preferred_name name.now candidate.now prefer.now) }
{
    match prefer {
        Prefer::Keep => read_domain(alloc, name.bytes()),
        Prefer::Child => child(alloc, name, candidate),
        Prefer::Initialize => initial(alloc, name, candidate),
        Prefer::Reset => root(alloc, candidate),
        Prefer::Parent => match parent(alloc, name)? {
            Some(made) => judged(made),
            None => read_domain(alloc, name.bytes()),
        },
        Prefer::Path(path) => child(alloc, name, path.bytes()),
        Prefer::Domain(domain) => read_domain(alloc, domain.bytes()),
    }
}

/// A law, nothing to run: what is read is the text itself, and a text is read exactly where it is a
/// right domain name.
pub fn grammar()
    ensures same { (text name : List ℕ) → domain_of text ≡ Ok name → name ≡ text }
    ensures right { (text : List ℕ) → is_domain_name is_path text ≡ is_read (domain_of text) }
{}

pub use tm_pattern as pattern;
pub use tm_rules::types;
