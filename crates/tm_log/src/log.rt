//! Reading a log from bytes that come in parts: its records that can be used, and those that are
//! left out.
ghost use Rattle.std.specs.Prelude.{◌≡◌, ◌++◌, ℕ, List, length, IfOk};
ghost use Rattle.tm_log.specs.Logs.{no_log, size_of, is_full, with_used, with_left, taken, taken_if, Reading, nothing_read, ends_line, with_end, with_byte, fed, finished, log_of};

use crate::notes::LeftOut;
use crate::{Gatherer, Lines, Reason, Record, RecordFault, read_record};
use std::alloc::{AllocError, Global};
use std::marker::Model;
use tm_list::{NoMemory, Seq};
use tm_trace::{print_attributes, print_request};
use tm_types::request::Request;

// How many lines `ids`, `fork` and `do` a trace may have, and how many bytes.
const MAX_RECORDS: usize = 200_000;

const MAX_BYTES: usize = 16_777_216;

/// Where a record stands: its number and that of its first line, both from 1.
#[derive(Clone, Copy)]
pub struct Source {
    pub number: u64,
    pub line: u64,
}

/// A record that can be used, where it stands, and the length of its request and attributes in the
/// trace, in bytes.
#[derive(Drop)]
pub struct Used {
    pub source: Source,
    pub record: Record,
    pub size: usize,
}

/// The records of a log in order, those that can be used and those that are left out, the number of
/// the last one, and the sum of the sizes of those that can be used.
#[derive(Drop)]
pub struct Log {
    pub used: Seq<Used>,
    pub left_out: Seq<LeftOut>,
    pub records: u64,
    pub size: usize,
}

/// A log that is read from its bytes: the lines that were read so far, and the line that isn't
/// ended yet.
#[derive(Drop)]
pub struct LogReader {
    gatherer: Gatherer,
    line: Vec<u8>,
    log: Log,
}

// No record yet.
fn no_log(alloc: Global) -> Log
    ensures { result ≡ no_log }
{
    Log {
        used: Seq::new(alloc),
        left_out: Seq::new(alloc),
        records: 0,
        size: 0,
    }
}

// How long a request and its attributes are in the trace.
fn size_of(alloc: Global, request: &Request) -> Result<usize, NoMemory>
    ensures { IfOk result (λ size. size ≡ size_of request.now) }
{
    let mut text = Vec::new(alloc);
    print_request(alloc, request, &mut text)?;
    print_attributes(alloc, request, &mut text)?;
    Ok(text.len())
}

impl Log {
    /// Whether these records are more than a trace holds, so that no further one is looked at.
    pub fn is_full(&self) -> bool
        ensures { result ≡ is_full self.now }
    {
        self.used.len() > MAX_RECORDS || self.size > MAX_BYTES
    }

    // One record more, which can be used.
    fn with_used(mut self, alloc: Global, source: Source, one: Record) -> Result<Log, NoMemory>
        ensures { IfOk result (λ made. made ≡ with_used self source one) }
    {
        let size = size_of(alloc, &one.request)?;
        self.used.push(Used {
            source,
            record: one,
            size,
        })?;
        self.records = source.number;
        self.size = self.size.saturating_add(size);
        Ok(self)
    }

    // One record more, which is left out.
    fn with_left(mut self, source: Source, reason: Reason) -> Result<Log, NoMemory>
        ensures { IfOk result (λ made. made ≡ with_left self source reason) }
    {
        self.left_out.push(LeftOut { source, reason })?;
        self.records = source.number;
        Ok(self)
    }

    // One record more, of these lines.
    #[tactic(auto, unfolding(crate::specs::Logs::taken))]
    fn take(self, alloc: Global, lines: Lines) -> Result<Log, NoMemory>
        ensures { IfOk result (λ made. made ≡ taken self lines) }
    {
        if self.is_full() {
            return Ok(self);
        }
        let source = Source {
            number: lines.number,
            line: lines.line,
        };
        match read_record(alloc, lines.texts.as_slice()) {
            Ok(record) => self.with_used(alloc, source, record),
            Err(RecordFault::Reason(reason)) => self.with_left(source, reason),
            Err(RecordFault::NoMemory) => Err(AllocError),
        }
    }

    // One record more, if there is one.
    fn take_if(self, alloc: Global, lines: Option<Lines>) -> Result<Log, NoMemory>
        ensures { IfOk result (λ made. made ≡ taken_if self lines) }
    {
        match lines {
            Some(lines) => self.take(alloc, lines),
            None => Ok(self),
        }
    }
}

// Whether a byte ends a line; the kernel ends its records with byte 0.
fn ends_line(byte: u8) -> bool
    ensures { result ≡ ends_line byte }
{
    byte == b'\n' || byte == 0
}

impl Model for LogReader {
    ghost use Rattle.tm_log.specs.Logs.{Reading};

    ghost Value = { Reading };

    ghost view = { λ s. record { gatherer = s.gatherer; line = s.line.items; log = s.log } };
}

impl LogReader {
    /// Nothing was read.
    pub fn new(alloc: Global) -> LogReader
        ensures { result ≡ nothing_read }
    {
        LogReader {
            gatherer: Gatherer::new(),
            line: Vec::new(alloc),
            log: no_log(alloc),
        }
    }

    // The line ends here.
    fn end_line(self, alloc: Global) -> Result<LogReader, NoMemory>
        ensures { IfOk result (λ next. next ≡ with_end self) }
    {
        let LogReader {
            gatherer,
            line,
            log,
        } = self;
        let (gatherer, lines) = gatherer.take(alloc, &line)?;
        let log = log.take_if(alloc, lines)?;
        Ok(LogReader {
            gatherer,
            line: Vec::new(alloc),
            log,
        })
    }

    // A byte of the line.
    fn go_on(self, byte: u8) -> Result<LogReader, NoMemory>
        ensures { IfOk result (λ next. next ≡ with_byte self byte) }
    {
        let LogReader {
            gatherer,
            mut line,
            log,
        } = self;
        line.push(byte)?;
        Ok(LogReader {
            gatherer,
            line,
            log,
        })
    }

    /// Reads these bytes after those that were read. Errors: want of memory.
    pub fn take(self, alloc: Global, bytes: &[u8]) -> Result<LogReader, NoMemory>
        ensures { IfOk result (λ next. next ≡ fed self bytes.now) }
    {
        let mut reader = self;
        for byte in bytes {
            if ends_line(*byte) {
                reader = reader.end_line(alloc)?;
                continue;
            }
            reader = reader.go_on(*byte)?;
        }
        Ok(reader)
    }

    /// The log, of which all bytes were read. Errors: want of memory.
    pub fn finish(self, alloc: Global) -> Result<Log, NoMemory>
        ensures { IfOk result (λ log. log ≡ finished self) }
    {
        let LogReader { gatherer, log, .. } = self.end_line(alloc)?;
        log.take_if(alloc, gatherer.current)
    }

    /// Whether what was read is more than a trace holds, so that nothing that follows is looked at.
    pub fn is_full(&self) -> bool
        ensures { result ≡ is_full self.now.log }
    {
        self.log.is_full()
    }

    /// How many records can be used so far.
    pub fn used(&self) -> usize
        ensures { result ≡ length self.now.log.used }
    {
        self.log.used.len()
    }
}

/// The log of these bytes, in however many parts they are read. Errors: want of memory.
pub fn read_log(alloc: Global, bytes: &[u8]) -> Result<Log, NoMemory>
    ensures { IfOk result (λ log. log ≡ log_of bytes.now) }
{
    LogReader::new(alloc).take(alloc, bytes)?.finish(alloc)
}

/// Logs, as a law over all bytes: what is read in parts is what is read of the whole.
pub fn parts()
    ensures { (s : Reading) (first later : List ℕ)
        → fed (fed s first) later ≡ fed s (first ++ later) }
{}
