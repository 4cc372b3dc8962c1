//! Shelves and sinks.
use std::alloc::Global;
use std::io;
use std::io::Write;
use std::test::Fail;
use tm_io::{Fetched, FileList, FileName, MemoryShelf, MemorySink, OutSink, Shelf, Sink, Stored};
use tm_list::NoMemory;
use tm_word::Text;

fn files(alloc: Global) -> Result<FileList, NoMemory> {
    Ok(FileList::from_vec(vec![in alloc;
        (FileName::Profile, Text::from_bytes(alloc, b"abc")?),
        (
            FileName::Trace,
            Text::from_vec(vec![in alloc; 0u8; 16_777_216]?)
        ),
        (
            FileName::Edits,
            Text::from_vec(vec![in alloc; 0u8; 16_777_217]?)
        ),
    ]?))
}

#[test]
fn names_are_those_of_the_files(rt: HostRuntime) -> Result<(), Fail> {
    let alloc = rt.alloc();
    let names = [
        (FileName::Profile, "profile"),
        (FileName::ExceptionPolicy, "exception_policy"),
        (FileName::DomainPolicy, "domain_policy"),
        (FileName::Manager, "manager"),
        (FileName::Trace, "trace"),
        (FileName::Edits, "edits"),
        (FileName::Answers, "answers"),
        (FileName::Schedule, "schedule"),
        (FileName::Run, "run"),
        (FileName::Audit, "audit"),
        (FileName::ProfileNew, "profile.new"),
        (FileName::ExceptionPolicyNew, "exception_policy.new"),
        (FileName::DomainPolicyNew, "domain_policy.new"),
        (FileName::ManagerNew, "manager.new"),
        (FileName::Run2, "run2"),
        (FileName::Audit2, "audit2"),
    ];
    for (name, text) in names {
        let printed = format!(in alloc; "{name}")?;
        assert_eq!(rt; printed.as_str(), text);
        assert_eq!(rt; name.is(FileName::Edits), text == "edits");
    }
    Ok(())
}

#[test]
fn memory_shelf_fetches_and_stores(rt: HostRuntime) -> Result<(), Fail> {
    let alloc = rt.alloc();
    let mut shelf = MemoryShelf::new(alloc, files(alloc)?, vec![in alloc; 1, 6]?);
    let fetches = [
        (FileName::Profile, Fetched::Done, 4),
        (FileName::Profile, Fetched::Failed, 1),
        (FileName::Audit, Fetched::Absent, 1),
        (FileName::Trace, Fetched::Done, 16_777_217),
        (FileName::Edits, Fetched::TooLong, 1),
    ];
    for (name, wanted, length) in fetches {
        let mut out = vec![in alloc; b'-']?;
        assert!(rt; shelf.fetch(name, &mut out) == wanted);
        assert_eq!(rt; out.len(), length);
    }
    assert!(rt; shelf.store(FileName::Run, b"first") == Stored::Done);
    assert_eq!(rt; shelf.get(FileName::Run), Some(b"first".as_slice()));
    assert!(rt; shelf.store(FileName::Run, b"second") == Stored::Failed);
    assert_eq!(rt; shelf.get(FileName::Run), Some(b"first".as_slice()));
    assert_eq!(rt; shelf.get(FileName::Profile), Some(b"abc".as_slice()));
    assert_eq!(rt; shelf.get(FileName::Audit).is_none(), true);
    Ok(())
}

#[test]
fn memory_sink_appends(rt: HostRuntime) -> Result<(), Fail> {
    let alloc = rt.alloc();
    let mut sink = MemorySink::new(alloc, vec![in alloc; 1]?);
    assert!(rt; sink.put(b"ab") == Stored::Done);
    assert!(rt; sink.put(b"cdef") == Stored::Failed);
    assert!(rt; sink.put(b"g") == Stored::Done);
    assert_eq!(rt; sink.bytes(), b"abcdg".as_slice());
    Ok(())
}

// A writer that takes two bytes at a time, and from some call on none.
#[derive(Drop)]
struct Slow {
    calls: usize,
}

impl Write for Slow {
    fn write(&mut self, buf: &[u8]) -> io::Result<usize> {
        if self.calls == 0 {
            return Ok(0);
        }
        self.calls -= 1;
        Ok(buf.len().min(2))
    }

    fn flush(&mut self) -> io::Result<()> {
        Ok(())
    }
}

#[test]
fn out_sink_writes_all_or_fails(rt: HostRuntime) -> Result<(), Fail> {
    let mut sink = OutSink::new(Slow { calls: 4 });
    assert!(rt; sink.put(b"abcde") == Stored::Done);
    assert!(rt; sink.put(b"abcde") == Stored::Failed);
    assert!(rt; sink.put(b"") == Stored::Done);
    Ok(())
}

#[test]
fn a_shelf_in_memory_tells_its_calls(rt: HostRuntime) -> Result<(), Fail> {
    let alloc = rt.alloc();
    let mut shelf = MemoryShelf::new(alloc, FileList::new(alloc), vec![in alloc; 1]?);
    let mut out = Vec::new(alloc);
    assert!(rt; shelf.fetch(FileName::Profile, &mut out) == Fetched::Absent);
    assert!(rt; shelf.fetch(FileName::Trace, &mut out) == Fetched::Failed);
    assert!(rt; shelf.store(FileName::Run, b"a") == Stored::Done);
    assert!(rt; shelf.fetch(FileName::Run, &mut out) == Fetched::Done);
    let fetched = match shelf.fetched() {
        Some(names) => names,
        None => &[],
    };
    assert_eq!(rt; fetched.len(), 3);
    assert!(rt; fetched[0].is(FileName::Profile));
    assert!(rt; fetched[1].is(FileName::Trace));
    assert!(rt; fetched[2].is(FileName::Run));
    let stored = match shelf.stored() {
        Some(names) => names,
        None => &[],
    };
    assert_eq!(rt; stored.len(), 1);
    assert!(rt; stored[0].is(FileName::Run));
    Ok(())
}

#[test]
fn a_sink_gives_everything_to_its_writer(rt: HostRuntime) -> Result<(), Fail> {
    let alloc = rt.alloc();
    let mut bytes = vec![in alloc; b'-']?;
    let mut sink = OutSink::new(&mut bytes);
    assert!(rt; sink.put(b"ab") == Stored::Done);
    assert!(rt; sink.put(b"c") == Stored::Done);
    drop(sink);
    assert_eq!(rt; bytes.as_slice(), b"-abc".as_slice());
    Ok(())
}
