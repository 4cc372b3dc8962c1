//! Conditions that are read and printed, as laws over every list of words.
ghost use Rattle.std.specs.Prelude.{◌≡◌, List, true, Ok};
ghost use Rattle.tm_word.specs.Prelude.{Text, is_word};
ghost use Rattle.tm_rules.specs.Types.{Cond};
ghost use Rattle.std.specs.List.{list_all};
ghost use Rattle.tm_cond.specs.Reading.{cond_of, cond_words};
ghost use Rattle.tm_cond.specs.Written.{is_cond};

/// Conditions, as laws over all words: conditions that a line can write are read again from their
/// printed words, each of which is a word of a line; what is read can be written, so that its
/// printed words are its normal form.
pub fn round_trip()
    ensures again { (cond : Cond) → is_cond cond ≡ true → cond_of (cond_words cond) ≡ Ok cond }
    ensures words { (cond : Cond) → is_cond cond ≡ true
        → list_all is_word (cond_words cond) ≡ true }
    ensures normal { (words : List Text) (cond : Cond) → cond_of words ≡ Ok cond →
        (is_cond cond ≡ true) × (cond_of (cond_words cond) ≡ Ok cond) }
{}
