//! Domain names in lines.
ghost use Rattle.std.specs.Prelude.{◌≡◌, ◌≤◌, ◌∷◌, length};
ghost use Rattle.tm_word.specs.Prelude.{Gives, begins_with_byte};
ghost use Rattle.tm_line.specs.Lines.{line_cause};
ghost use Rattle.tm_line.specs.Domains.{domain_words, paths_in, domain_at, domain_to_end};

use crate::words::joined_after;
use std::alloc::Global;
use tm_domain::types::entry::LineKind;
use tm_domain::types::step::LineFault;
use tm_domain::types::unions::DomainName;
use tm_domain::{DomainFault, read_domain};
use tm_word::{Text, begins_with};

/// Reads these words as one domain name of at most 4,085 bytes. Errors: `Domain`.
#[tactic(auto, unfolding(crate::specs::Domains::domain_words))]
fn domain_of_words(alloc: Global, first: &[u8], rest: &[Text]) -> Result<DomainName, LineFault>
    ensures { Gives line_cause (λ name. name) result (domain_words (first.now ∷ rest.now)) }
{
    let text = joined_after(alloc, first, rest)?;
    match read_domain(alloc, &text) {
        Ok(name) => Ok(name),
        Err(DomainFault::NoMemory) => Err(LineFault::NoMemory),
        Err(_) => Err(LineFault::Kind(LineKind::Domain)),
    }
}

/// How many words in front begin with `/`.
fn paths_in(words: &[Text]) -> usize
    ensures value { result ≡ paths_in words.now }
    ensures within { result ≤ length words.now }
{
    let mut count = 0;
    while count < words.len() && begins_with(b'/', words[count].bytes()) {
        count += 1;
    }
    count
}

/// Reads a domain name at the front, which takes its namespace word and the words after it that
/// begin with `/`, and answers the words after it. Errors: `Arity` where no word is left, `Domain`.
#[tactic(auto, unfolding(crate::specs::Domains::domain_at))]
pub fn domain_at(alloc: Global, words: &[Text]) -> Result<(DomainName, &[Text]), LineFault>
    ensures { Gives line_cause (λ x. (x.0, x.1.now)) result (domain_at words.now) }
{
    match words {
        [] => Err(LineFault::Kind(LineKind::Arity)),
        [first, rest @ ..] => {
            let count = paths_in(rest);
            let name = domain_of_words(alloc, first.bytes(), &rest[..count])?;
            Ok((name, &rest[count..]))
        }
    }
}

/// Reads a domain name that runs to the line's end. Errors: `Arity` where no word is left,
/// `Domain`.
#[tactic(auto, unfolding(crate::specs::Domains::domain_to_end))]
pub fn domain_to_end(alloc: Global, words: &[Text]) -> Result<DomainName, LineFault>
    ensures { Gives line_cause (λ name. name) result (domain_to_end words.now) }
{
    match words {
        [] => Err(LineFault::Kind(LineKind::Arity)),
        [first, rest @ ..] => domain_of_words(alloc, first.bytes(), rest),
    }
}
