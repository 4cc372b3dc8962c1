//! The reply in a step's line, one word.
ghost use Rattle.std.specs.Prelude.{◌≡◌};
ghost use Rattle.tm_run.specs.Fields.{reply_of};
ghost use Rattle.tm_run.specs.Replies.{new_or_old, make_of, held_of, fault_of, kind_of, edited_of, edit_of};

use crate::fields::{u32_of, u64_of};
use tm_types::entry::LineKind;
use tm_types::step::{AnswerFault, EditReply, Held, LearnReply, MakeReply};
use tm_word::{bytes_equal, cut_at, of_word, value_of};

#[tactic(auto, unfolding(crate::specs::Fields::reply_of))]
pub(crate) fn reply_of(word: &[u8]) -> LearnReply
    ensures { result ≡ reply_of word.now }
{
    of_word(word).unwrap_or(LearnReply::Mode)
}

fn new_or_old(word: &[u8], domain: &[u8]) -> MakeReply
    ensures { result ≡ new_or_old word.now domain.now }
{
    if bytes_equal(word, b"new") {
        return MakeReply::New(u32_of(domain));
    }
    MakeReply::Old(u32_of(domain))
}

#[tactic(auto, using(crate::proofs::Pieces::make_more), unfolding(crate::specs::Replies::make_of))]
pub(crate) fn make_of(word: &[u8]) -> MakeReply
    ensures { result ≡ make_of word.now }
{
    let Some((word, domain)) = cut_at(b':', word) else {
        return MakeReply::Old(0);
    };
    match cut_at(b':', domain) {
        None => new_or_old(word, domain),
        Some(_) => MakeReply::Old(0),
    }
}

#[tactic(auto, using(crate::proofs::Pieces::held_more), unfolding(crate::specs::Replies::held_of))]
pub(crate) fn held_of(word: &[u8]) -> Held
    ensures { result ≡ held_of word.now }
{
    let Some((_, serial)) = cut_at(b':', word) else {
        return Held::Nobody;
    };
    match cut_at(b':', serial) {
        None => Held::Serial(u64_of(serial)),
        Some(_) => Held::Nobody,
    }
}

/// Why an answer has no effect, by its words.
pub(crate) const FAULTS: [(&str, AnswerFault); 3] = [
    ("no_query", AnswerFault::NoQuery),
    ("answered", AnswerFault::Answered),
    ("bad", AnswerFault::BadAnswer),
];

#[tactic(auto, unfolding(crate::specs::Replies::fault_of))]
pub(crate) fn fault_of(word: &[u8]) -> Option<AnswerFault>
    ensures { result ≡ fault_of word.now }
{
    value_of(&FAULTS, word)
}

#[tactic(auto, unfolding(crate::specs::Replies::kind_of))]
fn kind_of(word: &[u8]) -> LineKind
    ensures { result ≡ kind_of word.now }
{
    of_word(word).unwrap_or(LineKind::KernelDomain)
}

#[tactic(auto, unfolding(crate::specs::Replies::edited_of))]
fn edited_of(word: &[u8]) -> EditReply
    ensures { result ≡ edited_of word.now }
{
    let edits = [
        ("not_manager", EditReply::NotManager),
        ("no_domain", EditReply::NoDomain),
        ("no_profile", EditReply::NoProfile),
        ("no_line", EditReply::NoSuchLine),
    ];
    value_of(&edits, word).unwrap_or(EditReply::Done)
}

#[tactic(auto, using(crate::proofs::Pieces::edit_more), unfolding(crate::specs::Replies::edit_of))]
pub(crate) fn edit_of(word: &[u8]) -> EditReply
    ensures { result ≡ edit_of word.now }
{
    let Some((_, kind)) = cut_at(b':', word) else {
        return edited_of(word);
    };
    match cut_at(b':', kind) {
        None => EditReply::BadLine(kind_of(kind)),
        Some(_) => EditReply::Done,
    }
}
