//! The namespace word that a policy line may begin with, by the grammar of names of tm_domain.
//! Promises that the namespace is that of its reading function, `<kernel>` where none is written,
//! and that a namespace word is read whatever follows it.

ghost use Rattle.std.specs.Prelude.{◌≡◌, ◌==◌, ◌∷◌, List, true, Ok};
ghost use Rattle.tm_word.specs.Prelude.{Gives, Text};
ghost use Rattle.tm_line.specs.Lines.{line_cause};
ghost use Rattle.tm_domain.specs.Policy.{kernel};
ghost use Rattle.tm_line.specs.Namespaces.{opens, namespace_of, namespace_at, IsNamespace};

use std::alloc::Global;
use tm_domain::types::entry::LineKind;
use tm_domain::types::step::LineFault;
use tm_domain::{DomainFault, read_domain};
use tm_word::list::Seq;
use tm_word::{Text, begins_with, has_byte};

/// Whether a word begins with `<`, as namespace words do and no other word of a line may.
pub fn opens(word: &[u8]) -> bool
    ensures { result ≡ opens word.now }
{
    begins_with(b'<', word)
}

/// The namespace of a word that names one.
#[tactic(auto, unfolding(crate::specs::Namespaces::namespace_of))]
fn namespace_of(alloc: Global, word: &[u8]) -> Result<Text, LineFault>
    ensures { Gives line_cause (λ x. x) result (namespace_of word.now) }
{
    if has_byte(b' ', word) {
        return Err(LineFault::Kind(LineKind::Domain));
    }
    match read_domain(alloc, word) {
        Ok(name) => Ok(name),
        Err(DomainFault::NoMemory) => Err(LineFault::NoMemory),
        Err(_) => Err(LineFault::Kind(LineKind::Domain)),
    }
}

/// Reads the namespace word that may stand at the front of a line's words: `<kernel>` or a path in
/// angle brackets. Answers the namespace, which is `<kernel>` where no such word stands there, and
/// the words after it.
///
/// Errors: kind `Domain` where the first word begins with `<` and is no namespace word, or want of
/// memory.
#[tactic(auto, unfolding(crate::specs::Namespaces::namespace_at))]
pub fn namespace_at(alloc: Global, words: &[Text]) -> Result<(Text, &[Text]), LineFault>
    ensures { Gives line_cause (λ x. (x.0, x.1.now)) result (namespace_at words.now) }
{
    match words {
        [] => Ok((Seq::from_bytes(alloc, b"<kernel>")?, words)),
        [word, rest @ ..] => {
            if opens(word.bytes()) {
                Ok((namespace_of(alloc, word.bytes())?, rest))
            } else {
                Ok((Seq::from_bytes(alloc, b"<kernel>")?, words))
            }
        }
    }
}

/// A law, nothing to run: a namespace word begins with `<` and is read whatever follows it,
/// `<kernel>` is one, and each namespace that is read is one.
pub fn namespaces()
    ensures named { (name : Text) (words : List Text) → IsNamespace name
        → namespace_at (name ∷ words) ≡ Ok (name, words) }
    ensures front { (name : Text) → IsNamespace name → opens name ≡ true }
    ensures kernel { IsNamespace kernel }
    ensures found { (words : List Text) (name : Text) (rest : List Text)
        → namespace_at words ≡ Ok (name, rest) → IsNamespace name }
{}
