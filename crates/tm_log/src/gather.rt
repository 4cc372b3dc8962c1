//! Which lines make a record: a longest run of lines with words, in which only the first may begin
//! with a word that begins with `#`.
ghost use Rattle.std.specs.Prelude.{◌≡◌, None, IfOk};
ghost use Rattle.tm_word.specs.Prelude.{words_of};
ghost use Rattle.tm_log.specs.Gathering.{sort_of, next, no_lines, begun, with_line, with_more, gathered};

use std::alloc::Global;
use tm_list::{NoMemory, Seq};
use tm_word::{Text, begins_with, cut_word};

/// How many lines of a record are kept: one more than a right record has, so that a long one is
/// known.
const KEPT: usize = 4;

/// The lines of a record, of which at most four are kept, its number and that of its first line,
/// both from 1.
#[derive(Drop)]
pub struct Lines {
    pub number: u64,
    pub line: u64,
    pub texts: Seq<Text>,
}

/// The lines that were read so far, how many records they began, and the record whose lines may go
/// on.
#[derive(Drop)]
pub struct Gatherer {
    pub lines: u64,
    pub records: u64,
    pub current: Option<Lines>,
}

/// What a line does to the record before it.
#[derive(Clone, Copy)]
pub enum LineSort {
    /// It has no words and ends it.
    Ends,
    /// It begins with `#` and begins the next one.
    Begins,
    /// It belongs to it, or begins one where none is there.
    GoesOn,
}

// What a line does.
#[tactic(auto, unfolding(crate::specs::Gathering::sort_of))]
fn sort_of(line: &[u8]) -> LineSort
    ensures { result ≡ sort_of (words_of line.now) }
{
    match cut_word(line) {
        None => LineSort::Ends,
        Some((word, _)) => {
            if begins_with(b'#', word) {
                LineSort::Begins
            } else {
                LineSort::GoesOn
            }
        }
    }
}

// The lines of a record with one more.
fn with_more(mut current: Lines, alloc: Global, line: &[u8]) -> Result<Lines, NoMemory>
    ensures { IfOk result (λ made. made ≡ with_more current line.now) }
{
    if current.texts.len() < KEPT {
        current.texts.push(Seq::from_bytes(alloc, line)?)?;
    }
    Ok(current)
}

impl Gatherer {
    /// No line yet.
    pub fn new() -> Gatherer
        ensures { result ≡ no_lines }
    {
        Gatherer {
            lines: 0,
            records: 0,
            current: None,
        }
    }

    // One line more, which begins a record.
    fn begin(self, alloc: Global, line: &[u8]) -> Result<(Gatherer, Option<Lines>), NoMemory>
        ensures { IfOk result (λ x. x ≡ begun self line.now) }
    {
        let Gatherer {
            lines,
            records,
            current,
        } = self;
        let lines = lines.saturating_add(1);
        let records = records.saturating_add(1);
        let mut texts = Seq::new(alloc);
        texts.push(Seq::from_bytes(alloc, line)?)?;
        let begun = Lines {
            number: records,
            line: lines,
            texts,
        };
        let next = Gatherer {
            lines,
            records,
            current: Some(begun),
        };
        Ok((next, current))
    }

    // One line more, of the record that is current.
    fn go_on(self, alloc: Global, line: &[u8]) -> Result<(Gatherer, Option<Lines>), NoMemory>
        ensures { IfOk result (λ x. x ≡ with_line self line.now) }
    {
        if self.current.is_none() {
            return self.begin(alloc, line);
        }
        let Gatherer {
            lines,
            records,
            current,
        } = self;
        let current = match current {
            Some(current) => Some(with_more(current, alloc, line)?),
            None => None,
        };
        let lines = lines.saturating_add(1);
        let next = Gatherer {
            lines,
            records,
            current,
        };
        Ok((next, None))
    }

    /// One line more, and the record that it ended, if it ended one. Errors: want of memory.
    pub fn take(self, alloc: Global, line: &[u8]) -> Result<(Gatherer, Option<Lines>), NoMemory>
        ensures { IfOk result (λ x. x ≡ gathered self line.now) }
    {
        match sort_of(line) {
            LineSort::Begins => self.begin(alloc, line),
            LineSort::GoesOn => self.go_on(alloc, line),
            LineSort::Ends => {
                let Gatherer {
                    lines,
                    records,
                    current,
                } = self;
                let lines = lines.saturating_add(1);
                let next = Gatherer {
                    lines,
                    records,
                    current: None,
                };
                Ok((next, current))
            }
        }
    }
}
