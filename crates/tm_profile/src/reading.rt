//! Reading profile lines.
ghost use Rattle.std.specs.Prelude.{◌≡◌, ◌==◌, ◌∷◌, ◌++◌, ◌^◌, ℕ, Some, None, IfOk, is_some, codes};
ghost use Rattle.std.specs.List.{position};
ghost use Rattle.tm_word.specs.Prelude.{Gives, GivesNow, after, begins};
ghost use Rattle.tm_number.specs.Numbers.{plain_of};
ghost use Rattle.tm_line.specs.Lines.{line_cause, or_kind};
ghost use Rattle.tm_line.specs.Namespaces.{namespace_at};
ghost use Rattle.tm_profile.specs.Reading.{wrong, at_end, comment_of, log_key, key_of, unseen, with_key, begins_grant, begins_reject, begins_key, seen_by, seen_after, setting_by, closed, setting_after, unlimited, limit_of, once, begins_limit, learning_by, limits_by, limits_with, limits_after, preference, begins_line, begins_some_slot, begins_effect, slot_of, slot_by, comment_by, numbered, numbered_by, version_by, effect_by, effect_at, line_of};

use crate::slots::{begins_mode, begins_some_slot, slot_of, word_mode};
use std::alloc::Global;
use tm_line::{joined, joined_after, namespace_at};
use tm_list::{NoMemory, Seq};
use tm_number::plain_number;
use tm_types::entry::LineKind;
use tm_types::policy::{Mode, ProfileEffect, ProfileLine, Setting};
use tm_types::step::LineFault;
use tm_word::{Text, after, begins, begins_in, bytes_equal, place_of, value_of};

/// What one word of a setting says.
#[derive(Clone, Copy)]
enum Key {
    Mode(Mode),
    Grant(bool),
    Reject(bool),
}

/// What is said of the logs: of grants, and then of rejections.
const LOGS: [(&str, Key); 4] = [
    ("grant_log=yes", Key::Grant(true)),
    ("grant_log=no", Key::Grant(false)),
    ("reject_log=yes", Key::Reject(true)),
    ("reject_log=no", Key::Reject(false)),
];

/// What the words of a setting have said so far.
#[derive(Clone, Copy)]
struct Seen {
    mode: Option<Mode>,
    grant: Option<bool>,
    reject: Option<bool>,
}

/// What the words of a preference have said so far, in lines and in entries.
#[derive(Clone, Copy)]
struct Limits {
    audit: Option<u32>,
    learning: Option<u32>,
}

/// The kind of a wrong word: a missing one where it is unfinished.
fn wrong(unfinished: bool) -> LineKind
    ensures { result ≡ wrong unfinished }
{
    if unfinished {
        LineKind::Arity
    } else {
        LineKind::Profile
    }
}

/// Whether no word is left.
fn ends(words: &[Text]) -> Result<(), LineFault>
    ensures { GivesNow line_cause (λ x. x) result (at_end tt words.now) }
{
    match words {
        [] => Ok(()),
        [_, ..] => Err(LineFault::Kind(LineKind::Profile)),
    }
}

/// The number of a profile.
fn profile_number(text: &[u8]) -> Option<u8>
    ensures { result ≡ plain_of 256 text.now }
{
    match plain_number(256, text) {
        Some(number) => Some(number as u8),
        None => None,
    }
}

/// A number below 2^32.
fn amount(text: &[u8]) -> Option<u32>
    ensures { result ≡ plain_of (2 ^ 32) text.now }
{
    match plain_number(4_294_967_296, text) {
        Some(number) => Some(number as u32),
        None => None,
    }
}

/// The comment that begins so.
fn comment_of(alloc: Global, first: &[u8], words: &[Text]) -> Result<Text, NoMemory>
    ensures { IfOk result (λ text. text ≡ comment_of first.now words.now) }
{
    let text = match first {
        [] => joined(alloc, words)?,
        [_, ..] => joined_after(alloc, first, words)?,
    };
    Ok(Seq::from_vec(text))
}

/// What a word says of a log.
fn log_key(word: &[u8]) -> Option<Key>
    ensures { result ≡ log_key word.now }
{
    value_of(&LOGS, word)
}

/// What a word of a setting says.
#[tactic(auto, unfolding(crate::specs::Reading::key_of))]
fn key_of(word: &[u8]) -> Option<Key>
    ensures { result ≡ key_of word.now }
{
    match word_mode(word) {
        Some(mode) => Some(Key::Mode(mode)),
        None => log_key(word),
    }
}

/// What has been said with one key more; a key that was written already may not stand again.
fn with_key(seen: Seen, key: Key) -> Option<Seen>
    ensures { result ≡ with_key seen key }
{
    match key {
        Key::Mode(mode) => match seen.mode {
            None => Some(Seen {
                mode: Some(mode),
                ..seen
            }),
            Some(_) => None,
        },
        Key::Grant(log) => match seen.grant {
            None => Some(Seen {
                grant: Some(log),
                ..seen
            }),
            Some(_) => None,
        },
        Key::Reject(log) => match seen.reject {
            None => Some(Seen {
                reject: Some(log),
                ..seen
            }),
            Some(_) => None,
        },
    }
}

/// Whether a word of the grant log begins so.
fn begins_grant(word: &[u8]) -> bool
    ensures { result ≡ begins_grant word.now }
{
    begins_in(&LOGS[..2], word)
}

/// Whether a word of the reject log begins so.
fn begins_reject(word: &[u8]) -> bool
    ensures { result ≡ begins_reject word.now }
{
    begins_in(&LOGS[2..], word)
}

/// Whether a word that may stand here begins so.
fn begins_key(seen: Seen, word: &[u8]) -> bool
    ensures { result ≡ begins_key seen word.now }
{
    if seen.mode.is_none() && begins_mode(word) {
        return true;
    }
    if seen.grant.is_none() && begins_grant(word) {
        return true;
    }
    seen.reject.is_none() && begins_reject(word)
}

/// What has been said with one word more.
#[tactic(auto, unfolding(crate::specs::Reading::seen_after))]
fn seen_after(seen: Seen, word: &[u8], last: bool) -> Result<Seen, LineFault>
    ensures { GivesNow line_cause (λ x. x) result (seen_after seen word.now last) }
{
    match key_of(word) {
        Some(key) => match with_key(seen, key) {
            Some(more) => Ok(more),
            None => Err(LineFault::Kind(LineKind::Profile)),
        },
        None => Err(LineFault::Kind(wrong(last && begins_key(seen, word)))),
    }
}

/// The setting that was written, which has its mode and ends here.
#[tactic(auto, unfolding(crate::specs::Reading::closed))]
fn closed(seen: Seen, words: &[Text]) -> Result<Setting, LineFault>
    ensures { GivesNow line_cause (λ x. x) result (closed seen words.now) }
{
    match seen.mode {
        Some(mode) => {
            ends(words)?;
            Ok(Setting {
                mode,
                grant: seen.grant,
                reject: seen.reject,
            })
        }
        None => Err(LineFault::Kind(LineKind::Profile)),
    }
}

/// The setting that stands up to `}`.
#[tactic(auto, unfolding(crate::specs::Reading::setting_after))]
fn setting_after(seen: Seen, words: &[Text]) -> Result<Setting, LineFault>
    ensures { GivesNow line_cause (λ x. x) result (setting_after seen words.now) }
{
    match words {
        [] => Err(LineFault::Kind(LineKind::Arity)),
        [word, rest @ ..] => {
            if bytes_equal(word.bytes(), b"}") {
                closed(seen, rest)
            } else {
                let more = seen_after(seen, word.bytes(), rest.is_empty())?;
                setting_after(more, rest)
            }
        }
    }
}

/// A limit's number.
fn limit_of(text: &[u8], last: bool) -> Result<u32, LineFault>
    ensures { GivesNow line_cause (λ x. x) result (limit_of text.now last) }
{
    match text {
        [] => Err(LineFault::Kind(wrong(last))),
        [_, ..] => match amount(text) {
            Some(number) => Ok(number),
            None => Err(LineFault::Kind(LineKind::Profile)),
        },
    }
}

/// Whether a word that may stand here begins so.
fn begins_limit(limits: Limits, word: &[u8]) -> bool
    ensures { result ≡ begins_limit limits word.now }
{
    limits.audit.is_none() && begins(word, b"max_audit_log=")
        || limits.learning.is_none() && begins(word, b"max_learning_entry=")
}

/// The limits with that of audit logs.
fn with_audit(limits: Limits, text: &[u8], last: bool) -> Result<Limits, LineFault>
    ensures { GivesNow line_cause (λ x. x) result (limits_by (Some text.now) limits text.now last) }
{
    match limits.audit {
        None => {
            let number = limit_of(text, last)?;
            Ok(Limits {
                audit: Some(number),
                ..limits
            })
        }
        Some(_) => Err(LineFault::Kind(LineKind::Profile)),
    }
}

/// The limits with that of learned entries.
fn with_learning(limits: Limits, text: &[u8], last: bool) -> Result<Limits, LineFault>
    ensures { GivesNow line_cause (λ x. x) result
        (learning_by (Some text.now) limits text.now last) }
{
    match limits.learning {
        None => {
            let number = limit_of(text, last)?;
            Ok(Limits {
                learning: Some(number),
                ..limits
            })
        }
        Some(_) => Err(LineFault::Kind(LineKind::Profile)),
    }
}

/// The limits with one word more.
#[tactic(auto, unfolding(crate::specs::Reading::limits_with))]
fn limits_with(limits: Limits, word: &[u8], last: bool) -> Result<Limits, LineFault>
    ensures { GivesNow line_cause (λ x. x) result (limits_with limits word.now last) }
{
    match after(b"max_audit_log=", word) {
        Some(text) => with_audit(limits, text, last),
        None => match after(b"max_learning_entry=", word) {
            Some(text) => with_learning(limits, text, last),
            None => Err(LineFault::Kind(wrong(last && begins_limit(limits, word)))),
        },
    }
}

/// The limits that stand up to `}`.
#[tactic(auto, unfolding(crate::specs::Reading::limits_after))]
fn limits_after(limits: Limits, words: &[Text]) -> Result<Limits, LineFault>
    ensures { GivesNow line_cause (λ x. x) result (limits_after limits words.now) }
{
    match words {
        [] => Err(LineFault::Kind(LineKind::Arity)),
        [word, rest @ ..] => {
            if bytes_equal(word.bytes(), b"}") {
                ends(rest)?;
                Ok(limits)
            } else {
                let more = limits_with(limits, word.bytes(), rest.is_empty())?;
                limits_after(more, rest)
            }
        }
    }
}

/// Whether a word that may stand after `N-` begins so.
#[tactic(auto, unfolding(crate::specs::Reading::begins_effect))]
fn begins_effect(word: &[u8]) -> bool
    ensures { result ≡ begins_effect word.now }
{
    if begins(word, b"COMMENT=") {
        return true;
    }
    if begins(word, b"PREFERENCE={") {
        return true;
    }
    begins(word, b"CONFIG={") || begins_some_slot(word)
}

const NOTHING_SEEN: Seen = Seen {
    mode: None,
    grant: None,
    reject: None,
};

/// What a line says of a slot of this profile.
fn slot_line(number: u8, word: &[u8], words: &[Text]) -> Result<ProfileEffect, LineFault>
    ensures { GivesNow line_cause (λ x. x) result
        (slot_by number (slot_of word.now) word.now words.now) }
{
    match slot_of(word) {
        Some((slot, true)) => {
            let setting = setting_after(NOTHING_SEEN, words)?;
            Ok(ProfileEffect::Slot(number, slot, Some(setting)))
        }
        Some((slot, false)) => {
            ends(words)?;
            Ok(ProfileEffect::Slot(number, slot, None))
        }
        None => Err(LineFault::Kind(wrong(words.is_empty() && begins_effect(word)))),
    }
}

/// What a line says of the limits of this profile.
fn preference_line(number: u8, words: &[Text]) -> Result<ProfileEffect, LineFault>
    ensures { GivesNow line_cause (λ x. x) result (preference number words.now) }
{
    let none = Limits {
        audit: None,
        learning: None,
    };
    let limits = limits_after(none, words)?;
    Ok(ProfileEffect::Preference(number, limits.audit, limits.learning))
}

/// What a line says of this profile: the word after `N-`, and the words that follow.
#[tactic(auto, unfolding(crate::specs::Reading::numbered))]
fn numbered(
    alloc: Global,
    number: u8,
    word: &[u8],
    words: &[Text],
) -> Result<ProfileEffect, LineFault>
    ensures { Gives line_cause (λ x. x) result (numbered number word.now words.now) }
{
    match after(b"COMMENT=", word) {
        Some(first) => {
            let text = comment_of(alloc, first, words)?;
            Ok(ProfileEffect::Comment(number, text))
        }
        None => {
            if bytes_equal(word, b"PREFERENCE={") {
                preference_line(number, words)
            } else if bytes_equal(word, b"CONFIG={") {
                let setting = setting_after(NOTHING_SEEN, words)?;
                Ok(ProfileEffect::Config(number, setting))
            } else {
                slot_line(number, word, words)
            }
        }
    }
}

/// What a line says of the profile whose number its word begins with.
fn numbered_line(alloc: Global, word: &[u8], words: &[Text]) -> Result<ProfileEffect, LineFault>
    ensures { Gives line_cause (λ x. x) result
        (numbered_by (position (λ b. b == 45) word.now) word.now words.now) }
{
    match place_of(b'-', word) {
        Some(place) => match profile_number(&word[..place]) {
            Some(number) => numbered(alloc, number, &word[place + 1..], words),
            None => Err(LineFault::Kind(LineKind::Profile)),
        },
        None => Err(LineFault::Kind(wrong(words.is_empty() && begins_line(word)))),
    }
}

/// Whether the first word of a line may go on after this one, which has no `-`.
fn begins_line(word: &[u8]) -> bool
    ensures { result ≡ begins_line word.now }
{
    if begins(word, b"PROFILE_VERSION=") {
        return true;
    }
    match profile_number(word) {
        Some(_) => true,
        None => false,
    }
}

/// What stands after `PROFILE_VERSION=`.
fn version_of(text: &[u8], words: &[Text]) -> Result<ProfileEffect, LineFault>
    ensures { GivesNow line_cause (λ x. x) result (version_by text.now words.now) }
{
    match text {
        [] => {
            if words.is_empty() {
                Err(LineFault::Kind(LineKind::Arity))
            } else {
                Err(LineFault::Kind(LineKind::Version))
            }
        }
        [_, ..] => {
            if bytes_equal(text, b"20150505") || bytes_equal(text, b"20110903") {
                ends(words)?;
                Ok(ProfileEffect::Version)
            } else {
                Err(LineFault::Kind(LineKind::Version))
            }
        }
    }
}

/// What a line says, without its namespace word.
#[tactic(auto, unfolding(crate::specs::Reading::effect_at))]
fn effect_at(alloc: Global, words: &[Text]) -> Result<ProfileEffect, LineFault>
    ensures { Gives line_cause (λ x. x) result (effect_at words.now) }
{
    match words {
        [] => Err(LineFault::Kind(LineKind::Arity)),
        [word, rest @ ..] => match after(b"PROFILE_VERSION=", word.bytes()) {
            Some(text) => version_of(text, rest),
            None => numbered_line(alloc, word.bytes(), rest),
        },
    }
}

/// Reads a profile line, of which these are the words. It may begin with a namespace word, else it
/// is one of `<kernel>`; then comes `PROFILE_VERSION=20150505` or `PROFILE_VERSION=20110903`, or
/// with a number N from 0 to 255 one of `N-COMMENT=TEXT`, `N-PREFERENCE={ .. }`, `N-CONFIG={ .. }`,
/// the same for a category or a function, and `=use_default` for these.
///
/// Errors: the kind of the first word at which the line can't go on, or want of memory. `Domain` is
/// a wrong namespace word, `Version` another version, `Arity` a missing word or an unfinished one
/// at the end, `Profile` every other wrong word.
#[tactic(auto, unfolding(crate::specs::Reading::line_of))]
pub fn read_profile_line(alloc: Global, words: &[Text]) -> Result<ProfileLine, LineFault>
    ensures { Gives line_cause (λ x. x) result (line_of words.now) }
{
    let (namespace, rest) = namespace_at(alloc, words)?;
    let effect = effect_at(alloc, rest)?;
    Ok(ProfileLine { namespace, effect })
}
