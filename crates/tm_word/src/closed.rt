//! Closed sets of values that are written as words: one table a set, by which it is read and
//! printed.
ghost use Rattle.std.specs.Prelude.{◌≡◌, map, Some, None, MatchOption};
ghost use Rattle.tm_word.specs.Prelude.{Text, begins_row, name_of, named, of_word, row_of};

use crate::texts::{begins, bytes_equal};

/// A closed set of values that are written as words, each as another one.
pub trait Closed: Copy + 'static {
    ghost use Rattle.std.specs.Prelude.{List, ◌≡◌, map, Some};
    ghost use Rattle.tm_word.specs.Prelude.{Text, of_word, row_of};

    ghost all: { List Self };

    ghost text: { Self → Text };

    /// Every value with its word.
    fn table() -> &'static [(&'static str, Self)]
        ensures { map (λ row. (row.0.now, row.1)) result.now ≡ map (row_of text) all };

    ghost again: { (value : Self) → of_word text all (text value) ≡ Some value };
}

/// The value of a word; None where it is the word of none.
pub fn of_word<T: Closed>(word: &[u8]) -> Option<T>
    ensures { result ≡ of_word T.text T.all word.now }
{
    value_of(T::table(), word)
}

/// Reading and writing, as laws: a value is read again from its word, and what is read has this
/// word.
#[tactic(auto, using(crate::proofs::Found::found))]
pub fn closed_words<T: Closed>()
    ensures again { (value : T) → of_word T.text T.all (T.text value) ≡ Some value }
    ensures found { (word : Text) (value : T) → of_word T.text T.all word ≡ Some value → word
        ≡ T.text value }
{}

/// The value of a word in a table; None where the table hasn't got the word.
pub fn value_of<V: Copy>(table: &[(&str, V)], word: &[u8]) -> Option<V>
    ensures { result ≡ named (map (λ row. (row.0.now, row.1)) table.now) word.now }
{
    for (name, value) in table {
        if bytes_equal(word, name.as_bytes()) {
            return Some(*value);
        }
    }
    None
}

/// Whether a text is a front of a word of a table, or one.
pub fn begins_in<V>(table: &[(&str, V)], front: &[u8]) -> bool
    ensures { result ≡ begins_row (map (λ row. (row.0.now, row.1)) table.now) front.now }
{
    for (name, _) in table {
        if begins(front, name.as_bytes()) {
            return true;
        }
    }
    false
}

/// The word of a number in a table; None where the table hasn't got the number.
pub fn name_of<'a>(table: &[(&'a str, u16)], number: u16) -> Option<&'a str>
    ensures { MatchOption result (name_of (map (λ row. (row.0.now, row.1)) table.now) number ≡ None)
        (λ name. name_of (map (λ row. (row.0.now, row.1)) table.now) number ≡ Some name.now) }
{
    for (name, value) in table {
        if number == *value {
            return Some(name);
        }
    }
    None
}
