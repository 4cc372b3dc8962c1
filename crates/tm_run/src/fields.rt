//! The fields of a line of a run, each one word.
ghost use Rattle.std.specs.Prelude.{◌≡◌, map, IfOk};
ghost use Rattle.tm_word.specs.Prelude.{pieces};
ghost use Rattle.tm_run.specs.Fields.{u8_of, u32_of, u64_of, case_of, reason_of, way_of, move_of, numbers_of, answer_of, heard_of, file_of};

use std::alloc::Global;
use tm_list::NoMemory;
use tm_number::plain_number;
use tm_types::brief::Brief;
use tm_types::step::{Answered, FileKind, Heard};
use tm_types::verdict::{EntryPlace, Move, Reason};
use tm_word::{bytes_equal, cut_at, of_word, value_of};

// A plain number of 8 bits, or 0.
#[tactic(auto, unfolding(crate::specs::Fields::number_of))]
fn u8_of(word: &[u8]) -> u8
    ensures { result ≡ u8_of word.now }
{
    match plain_number(256, word) {
        Some(number) => number as u8,
        None => 0,
    }
}

// A plain number of 32 bits, or 0.
#[tactic(auto, unfolding(crate::specs::Fields::number_of))]
pub(crate) fn u32_of(word: &[u8]) -> u32
    ensures { result ≡ u32_of word.now }
{
    match plain_number(1 << 32, word) {
        Some(number) => number as u32,
        None => 0,
    }
}

// A plain number of 64 bits, or 0.
#[tactic(auto, unfolding(crate::specs::Fields::number_of))]
pub(crate) fn u64_of(word: &[u8]) -> u64
    ensures { result ≡ u64_of word.now }
{
    match plain_number(1 << 64, word) {
        Some(number) => number,
        None => 0,
    }
}

/// The reasons that have no place, by their words.
const REASONS: [(&str, Reason); 8] = [
    ("disabled", Reason::Disabled),
    ("permissive", Reason::Permissive),
    ("quota", Reason::Quota),
    ("learn", Reason::Learn),
    ("ask", Reason::Ask),
    ("no_entry", Reason::NoEntry),
    ("not_ready", Reason::NotReady),
    ("no_manual", Reason::NoManual),
];

#[tactic(auto, unfolding(crate::specs::Fields::case_of))]
fn case_of(word: &[u8]) -> Reason
    ensures { result ≡ case_of word.now }
{
    value_of(&REASONS, word).unwrap_or(Reason::NoManual)
}

#[tactic(auto, using(crate::proofs::Pieces::reason_more), unfolding(crate::specs::Fields::reason_of))]
pub(crate) fn reason_of(word: &[u8]) -> Reason
    ensures { result ≡ reason_of word.now }
{
    let Some((_, rest)) = cut_at(b':', word) else {
        return case_of(word);
    };
    let Some((group, place)) = cut_at(b':', rest) else {
        return Reason::Entry(EntryPlace::Own(u32_of(rest)));
    };
    match cut_at(b':', place) {
        None => Reason::Entry(EntryPlace::Acl(u8_of(group), u32_of(place))),
        Some(_) => Reason::NoManual,
    }
}

#[tactic(auto, unfolding(crate::specs::Fields::way_of))]
fn way_of(word: &[u8]) -> Move
    ensures { result ≡ way_of word.now }
{
    if bytes_equal(word, b"stay") {
        return Move::Stay;
    }
    if bytes_equal(word, b"make") {
        return Move::Make;
    }
    Move::Fail
}

#[tactic(auto, using(crate::proofs::Pieces::move_more), unfolding(crate::specs::Fields::move_of))]
pub(crate) fn move_of(word: &[u8]) -> Move
    ensures { result ≡ move_of word.now }
{
    let Some((_, domain)) = cut_at(b':', word) else {
        return way_of(word);
    };
    match cut_at(b':', domain) {
        None => Move::Enter(u32_of(domain)),
        Some(_) => Move::Fail,
    }
}

// The numbers between the commas of a word.
fn listed(alloc: Global, word: &[u8]) -> Result<Brief<u64>, NoMemory>
    ensures { IfOk result (λ numbers. numbers ≡ map u64_of (pieces 44 word.now)) }
{
    let mut numbers = Brief::new(alloc);
    let mut rest = word;
    while let Some((piece, after)) = cut_at(b',', rest) {
        numbers.push(u64_of(piece))?;
        rest = after;
    }
    numbers.push(u64_of(rest))?;
    Ok(numbers)
}

#[tactic(auto, unfolding(crate::specs::Fields::numbers_of))]
pub(crate) fn numbers_of(alloc: Global, word: &[u8]) -> Result<Brief<u64>, NoMemory>
    ensures { IfOk result (λ numbers. numbers ≡ numbers_of word.now) }
{
    if bytes_equal(word, b"-") {
        return Ok(Brief::new(alloc));
    }
    listed(alloc, word)
}

/// What may become of a query, by its words.
pub(crate) const ANSWERS: [(&str, Answered); 4] = [
    ("yes", Answered::Yes),
    ("no", Answered::No),
    ("retry", Answered::Retry),
    ("detached", Answered::Detached),
];

#[tactic(auto, unfolding(crate::specs::Fields::answer_of))]
fn answer_of(word: &[u8]) -> Option<Answered>
    ensures { result ≡ answer_of word.now }
{
    value_of(&ANSWERS, word)
}

#[tactic(auto, using(crate::proofs::Pieces::heard_more), unfolding(crate::specs::Fields::heard_of))]
pub(crate) fn heard_of(word: &[u8]) -> Option<Heard>
    ensures { result ≡ heard_of word.now }
{
    let (answer, version) = cut_at(b'@', word)?;
    match cut_at(b'@', version) {
        None => Some(Heard {
            answer: answer_of(answer),
            version: u64_of(version),
        }),
        Some(_) => None,
    }
}

#[tactic(auto, unfolding(crate::specs::Fields::file_of))]
pub(crate) fn file_of(word: &[u8]) -> FileKind
    ensures { result ≡ file_of word.now }
{
    of_word(word).unwrap_or(FileKind::Manager)
}
