//! Calls over files in memory.
use std::alloc::Global;
use std::sync::Wait;
use std::thread::Threads;
use tm_engine::gate::Gate;
use tm_io::{FileList, FileName, MemoryShelf, MemorySink};
use tm_list::NoMemory;
use tm_word::Text;
use tomoyo::{Status, run};

/// Profiles: 0 is disabled, 1 enforcing, 2 learning.
pub(crate) const PROFILE: &str = "PROFILE_VERSION=20150505\n\
    0-CONFIG={ mode=disabled grant_log=no reject_log=no }\n\
    1-CONFIG={ mode=enforcing grant_log=no reject_log=no }\n\
    2-CONFIG={ mode=learning grant_log=no reject_log=no }\n";

/// The files of a call by their names.
pub(crate) fn files(alloc: Global, texts: &[(FileName, &str)]) -> Result<FileList, NoMemory> {
    let mut files = FileList::new(alloc);
    for (name, text) in texts {
        files.push((*name, Text::from_bytes(alloc, text.as_bytes())?))?;
    }
    Ok(files)
}

/// What a call of `replay` with so many workers leaves: its status, and what it put.
#[derive(Drop)]
pub(crate) struct Left {
    pub(crate) status: Status,
    pub(crate) out: MemorySink,
}

/// `replay` with the words for it.
pub(crate) fn replay<W: Threads + Wait + Sync, G: Gate>(
    rt: &W,
    alloc: Global,
    words: &[&str],
    texts: FileList,
    gate: &G,
) -> Result<Left, NoMemory> {
    let mut given = Vec::new(alloc);
    given.push(String::from_str(alloc, "replay")?)?;
    for word in words {
        given.push(String::from_str(alloc, word)?)?;
    }
    let mut shelf = MemoryShelf::new(alloc, texts, Vec::new(alloc));
    let mut out = MemorySink::new(alloc, Vec::new(alloc));
    let status = run(rt, alloc, &given, &mut shelf, &mut out, gate);
    Ok(Left { status, out })
}
