//! Tests of words that are made of two parts.
ghost use Rattle.std.specs.Prelude.{◌≡◌, ◌++◌};
ghost use Rattle.tm_word.specs.Prelude.{begins, texts_equal};

use tm_word::{begins, bytes_equal};

/// Whether a text of two parts begins with this word, or is it.
pub(crate) fn begins_joined(word: &[u8], front: &[u8], end: &[u8]) -> bool
    ensures { result ≡ begins word.now (front.now ++ end.now) }
{
    match front {
        [] => begins(word, end),
        [b, front @ ..] => match word {
            [] => true,
            [a, word @ ..] => *a == *b && begins_joined(word, front, end),
        },
    }
}

/// Whether a word is this text of two parts.
pub(crate) fn is_joined(word: &[u8], front: &[u8], end: &[u8]) -> bool
    ensures { result ≡ texts_equal word.now (front.now ++ end.now) }
{
    match front {
        [] => bytes_equal(word, end),
        [b, front @ ..] => match word {
            [] => false,
            [a, word @ ..] => *a == *b && is_joined(word, front, end),
        },
    }
}
