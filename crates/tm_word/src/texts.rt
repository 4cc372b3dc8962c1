//! Small questions on texts: how they begin, where they are cut, whether they are equal. Nothing
//! here takes memory.
ghost use Rattle.std.specs.Prelude.{◌≡◌, ◌<◌, ◌≤◌, ◌==◌, ◌∷◌, ◌++◌, [], length, Some, None, IsTrue, MatchOption};
ghost use Rattle.std.specs.List.{list_any, position};
ghost use Rattle.tm_word.specs.Prelude.{IsCut, after, begins, begins_with_byte, if_word, is_separator, pieces, spell, spelling_of, texts_equal, words_of};

use crate::Text;
use tm_list::Same;

/// Whether two texts are equal, byte by byte.
#[tactic(auto, using(crate::proofs::TextLaws::texts_are_same))]
pub fn bytes_equal(left: &[u8], right: &[u8]) -> bool
    ensures { result ≡ texts_equal left.now right.now }
{
    u8::same_all(left, right)
}

/// Whether two texts are equal, byte by byte.
pub fn texts_equal(left: &Text, right: &Text) -> bool
    ensures { result ≡ texts_equal left.now right.now }
{
    bytes_equal(left.bytes(), right.bytes())
}

/// Whether a text begins with this byte.
pub fn begins_with(byte: u8, text: &[u8]) -> bool
    ensures { result ≡ begins_with_byte byte text.now }
{
    match text {
        [] => false,
        [first, ..] => *first == byte,
    }
}

/// Whether a text is a front of another, or all of it.
pub fn begins(front: &[u8], whole: &[u8]) -> bool
    ensures exact { result ≡ begins front.now whole.now }
    ensures within { IsTrue result → length front.now ≤ length whole.now }
{
    front.len() <= whole.len() && bytes_equal(front, &whole[..front.len()])
}

/// The text after this front; None where it has another one.
pub fn after<'a>(front: &[u8], text: &'a [u8]) -> Option<&'a [u8]>
    ensures { MatchOption result (after front.now text.now ≡ None)
        (λ rest. after front.now text.now ≡ Some rest.now) }
{
    if begins(front, text) {
        Some(&text[front.len()..])
    } else {
        None
    }
}

/// Where this byte stands first, from 0.
pub fn place_of(byte: u8, text: &[u8]) -> Option<usize>
    ensures { result ≡ position (λ b. b == byte) text.now }
{
    text.iter().position(|found| *found == byte)
}

/// Whether this byte stands in a text.
pub fn has_byte(byte: u8, text: &[u8]) -> bool
    ensures { result ≡ list_any (λ b. b == byte) text.now }
{
    for found in text {
        if *found == byte {
            return true;
        }
    }
    false
}

/// What stands before the first such byte, and what follows it; None where there is none. So byte
/// 10 cuts off the first line.
pub fn cut_at(byte: u8, text: &[u8]) -> Option<(&[u8], &[u8])>
    ensures { MatchOption result (pieces byte text.now ≡ text.now ∷ [])
        (λ cut. IsCut byte text.now cut.0.now cut.1.now) }
{
    match place_of(byte, text) {
        Some(place) => Some((&text[..place], &text[place + 1..])),
        None => None,
    }
}

/// Whether a text is the spelling of a word.
pub fn spells(text: &[u8], word: &[u8]) -> bool
    ensures { result ≡ texts_equal text.now (spell word.now) }
{
    let mut rest = text;
    for byte in word {
        match after_spelling(*byte, rest) {
            Some(more) => rest = more,
            None => return false,
        }
    }
    rest.is_empty()
}

/// The text after a byte's spelling; None where it begins otherwise.
fn after_spelling(byte: u8, text: &[u8]) -> Option<&[u8]>
    ensures { MatchOption result (after (spelling_of byte) text.now ≡ None)
        (λ rest. after (spelling_of byte) text.now ≡ Some rest.now) }
{
    if byte == b'\\' {
        after(b"\\\\", text)
    } else if byte > 32 && byte < 127 {
        after(&[byte], text)
    } else {
        after(
            &[
                b'\\',
                b'0' + byte / 64,
                b'0' + byte / 8 % 8,
                b'0' + byte % 8,
            ],
            text,
        )
    }
}

/// Where the first byte that separates words stands.
fn separator_place(text: &[u8]) -> Option<usize>
    ensures { result ≡ position is_separator text.now }
{
    text.iter().position(|byte| *byte <= 32 || *byte >= 127)
}

/// What stands before the first byte that separates words, and what follows that byte.
fn cut_piece(text: &[u8]) -> (&[u8], &[u8])
    ensures words { words_of text.now ≡ if_word result.0.now ++ words_of result.1.now }
    ensures shorter { 0 < length text.now → length result.1.now < length text.now }
{
    match separator_place(text) {
        Some(place) => (&text[..place], &text[place + 1..]),
        None => (text, b""),
    }
}

/// The first word of a line, and the text after it; None where it has no word.
pub fn cut_word(text: &[u8]) -> Option<(&[u8], &[u8])>
    ensures { MatchOption result (words_of text.now ≡ [])
        (λ cut. words_of text.now ≡ cut.0.now ∷ words_of cut.1.now) }
{
    let mut rest = text;
    while !rest.is_empty() {
        let (piece, after) = cut_piece(rest);
        if !piece.is_empty() {
            return Some((piece, after));
        }
        rest = after;
    }
    None
}

/// The words of a line, in order, as slices of it: the longest runs of bytes 33 to 126, still
/// spelled.
#[derive(Drop)]
pub struct Words<'a> {
    rest: &'a [u8],
}

impl<'a> Words<'a> {
    ghost use Rattle.tm_word.specs.Prelude.{words_left};

    /// All words of a line.
    #[tactic(auto, unfolding(crate::specs::Texts::words_left))]
    pub fn of(text: &'a [u8]) -> Words<'a>
        ensures { words_left result ≡ words_of text.now }
    {
        Words { rest: text }
    }
}

impl<'a> Iterator for Words<'a> {
    ghost use Rattle.std.specs.Iterator.{item_count, YieldsFirstBy};
    ghost use Rattle.tm_word.specs.Prelude.{words_left};

    type Item = &'a [u8];

    ghost next_gives = { YieldsFirstBy (λ word. word.now) words_left };

    ghost remaining = { item_count words_left };

    #[tactic(auto, unfolding(crate::specs::Texts::words_left))]
    fn next(&mut self) -> Option<&'a [u8]> {
        let (word, rest) = cut_word(self.rest)?;
        self.rest = rest;
        Some(word)
    }
}
