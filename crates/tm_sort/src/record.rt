//! Records of an audit file.
ghost use Rattle.std.specs.Prelude.{◌≡◌, ◌++◌, ◌∷◌, [], OnOk};
ghost use Rattle.tm_word.specs.Prelude.{Gives};
ghost use Rattle.tm_sort.specs.Records.{record_cause, full_line, line_after, last_line, records_of, record_text};
ghost use Rattle.tm_sort.specs.declared.record.RecordFault.TheVariants.{NoMemory};

use std::alloc::{AllocError, AllocFailed, Global};
use thiserror::Error;
use tm_list::{NoMemory, Seq};
use tm_word::{Text, cut_at};

/// A record: the header, the name of the domain and the line of the request, each without the byte
/// 10 that ends it.
/// An empty line follows.
#[derive(Drop)]
pub struct Record {
    pub header: Text,
    pub domain: Text,
    pub line: Text,
}

/// The first line with which no audit file can go on, from 1, or want of memory.
#[derive(Clone, Copy, PartialEq, Eq, Debug, Error)]
pub enum RecordFault {
    #[error("line {0}")]
    Line(u64),
    #[error("out of memory")]
    NoMemory,
}

impl From<AllocError> for RecordFault {
    ghost from_gives = { λ _ e. e ≡ NoMemory };

    fn from(_e: AllocError) -> RecordFault {
        RecordFault::NoMemory
    }
}

impl<T: Drop> From<AllocFailed<T>> for RecordFault {
    ghost from_gives = { λ _ e. e ≡ NoMemory };

    fn from(_e: AllocFailed<T>) -> RecordFault {
        RecordFault::NoMemory
    }
}

/// The lines of the record that isn't ended yet.
#[derive(Drop)]
enum Begun {
    Nothing,
    Header(Text),
    Domain(Text, Text),
    Line(Text, Text, Text),
}

/// What has been read: whole records, and the lines of the next one.
#[derive(Drop)]
struct Reading {
    records: Seq<Record>,
    begun: Begun,
}

/// A line that has a byte. Errors: its number where it has none.
fn full_line(alloc: Global, number: u64, line: &[u8]) -> Result<Text, RecordFault>
    ensures { Gives record_cause (λ text. text) result (full_line number line.now) }
{
    if line.is_empty() {
        return Err(RecordFault::Line(number));
    }
    Ok(Text::from_bytes(alloc, line)?)
}

/// What has been read after one line more, which byte 10 ends. Errors: its number where it can't
/// stand there.
#[tactic(auto, unfolding(crate::specs::Records::line_after))]
fn line_after(
    alloc: Global,
    number: u64,
    so_far: Reading,
    line: &[u8],
) -> Result<Reading, RecordFault>
    ensures { Gives record_cause (λ next. next) result (line_after number so_far line.now) }
{
    let Reading { records, begun } = so_far;
    match begun {
        Begun::Nothing => {
            let header = full_line(alloc, number, line)?;
            Ok(Reading {
                records,
                begun: Begun::Header(header),
            })
        }
        Begun::Header(header) => {
            let domain = full_line(alloc, number, line)?;
            Ok(Reading {
                records,
                begun: Begun::Domain(header, domain),
            })
        }
        Begun::Domain(header, domain) => {
            let request = full_line(alloc, number, line)?;
            Ok(Reading {
                records,
                begun: Begun::Line(header, domain, request),
            })
        }
        Begun::Line(header, domain, line_of_request) => {
            if !line.is_empty() {
                return Err(RecordFault::Line(number));
            }
            let mut records = records;
            records.push(Record {
                header,
                domain,
                line: line_of_request,
            })?;
            Ok(Reading {
                records,
                begun: Begun::Nothing,
            })
        }
    }
}

/// The records, where nothing stands after the last byte 10 and no record is cut. Errors: the
/// number of this line.
#[tactic(auto, unfolding(crate::specs::Records::last_line))]
fn last_line(number: u64, so_far: Reading, line: &[u8]) -> Result<Seq<Record>, RecordFault>
    ensures { Gives record_cause (λ items. items) result (last_line number so_far line.now) }
{
    if !line.is_empty() {
        return Err(RecordFault::Line(number));
    }
    let Reading { records, begun } = so_far;
    match begun {
        Begun::Nothing => Ok(records),
        Begun::Header(_) => Err(RecordFault::Line(number)),
        Begun::Domain(_, _) => Err(RecordFault::Line(number)),
        Begun::Line(_, _, _) => Err(RecordFault::Line(number)),
    }
}

/// Reads an audit file: records of three lines of one byte or more and an empty line, each ended by
/// byte 10.
///
/// Errors: the first line that can't stand there, from 1, which is one past the last where a record
/// is cut and the last where byte 10 doesn't end it; or want of memory.
#[tactic(auto, unfolding(crate::specs::Records::records_from), using(crate::proofs::RecordSteps::lines_there))]
pub fn read_records(alloc: Global, bytes: &[u8]) -> Result<Vec<Record>, RecordFault>
    ensures { Gives record_cause (λ items. items.items) result (records_of bytes.now) }
{
    let mut so_far = Reading {
        records: Seq::new(alloc),
        begun: Begun::Nothing,
    };
    let mut rest = bytes;
    let mut number = 1;
    while let Some((line, after)) = cut_at(b'\n', rest) {
        so_far = line_after(alloc, number, so_far, line)?;
        rest = after;
        number += 1;
    }
    let records = last_line(number, so_far, rest)?;
    Ok(records.into_vec())
}

/// Appends a record as it was written.
pub(crate) fn push_record(item: &Record, out: &mut Vec<u8>) -> Result<(), NoMemory>
    ensures { OnOk result (out.new.items ≡ out.old.items ++ record_text item.now) }
{
    out.extend_from_slice(item.header.bytes())?;
    out.push(b'\n')?;
    out.extend_from_slice(item.domain.bytes())?;
    out.push(b'\n')?;
    out.extend_from_slice(item.line.bytes())?;
    out.extend_from_slice(b"\n\n")
}
