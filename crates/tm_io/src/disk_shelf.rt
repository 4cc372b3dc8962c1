ghost use Rattle.std.specs.Prelude.{◌≡◌, ◌≤◌, ◌∷◌, [], ℕ, List, None, OnErr, OnOk};
ghost use Rattle.std.specs.IoError.{error_kind};
ghost use Rattle.tm_io.specs.Causes.{Rose};
ghost use Rattle.tm_io.specs.Disks.{NotOpened};
ghost use Rattle.tm_io.specs.Files.{FetchGives, SameFiles, StoreLeaves};
ghost use Rattle.tm_io.specs.Notes.{Noted};

use crate::streams::fetch_all;
use crate::{Disk, Fetched, FileName, Shelf, Stored};
use std::io;
use std::io::{Error, ErrorKind, Write};

// How a fetch ends whose file couldn't be opened.
fn not_opened(error: &Error) -> Fetched
    ensures { NotOpened (error_kind error.now) result }
{
    match error.kind() {
        ErrorKind::NotFound => Fetched::Absent,
        ErrorKind::OutOfMemory => Fetched::NoMemory,
        _ => Fetched::Failed,
    }
}

// Appends the bytes of a file.
fn fetch_from<D: Disk>(disk: &mut D, name: FileName, out: &mut Vec<u8>) -> Fetched
    ensures gives { FetchGives (D.file disk.old name) result out.old.items out.new.items }
    ensures kept { SameFiles (D.file disk.old) (D.file disk.new) }
{
    match disk.open(name) {
        Ok(mut source) => fetch_all(&mut source, out),
        Err(error) => not_opened(&error),
    }
}

// Stores a file whole, or leaves it as it was.
fn store_on<D: Disk>(disk: &mut D, name: FileName, bytes: &[u8]) -> io::Result<()>
    ensures stored { OnOk result
        (StoreLeaves name bytes.now Stored.Done (D.file disk.old) (D.file disk.new)) }
    ensures kept { OnErr result (SameFiles (D.file disk.old) (D.file disk.new)) }
{
    let mut draft = disk.draft(name)?;
    match draft.write_all(bytes) {
        Ok(()) => disk.replace(name, draft),
        Err(error) => {
            disk.discard(draft);
            Err(error)
        }
    }
}

/// The files of a disk, as a shelf. A store writes a draft of the file and puts it in the file's
/// place, so that the file is the old one, whole, or the new one, whole.
#[derive(Drop)]
pub struct DiskShelf<D: Disk + Drop> {
    disk: D,
    faults: u64,
}

impl<D: Disk + Drop> DiskShelf<D> {
    /// The shelf of this disk; it has no fault yet.
    pub fn new(disk: D) -> DiskShelf<D>
        ensures faults { ⟦<DiskShelf<D> as Shelf>⟧.faults result ≡ 0 }
        ensures file { ⟦<DiskShelf<D> as Shelf>⟧.file result ≡ D.file disk }
    {
        DiskShelf { disk, faults: 0 }
    }

    /// How many fetches and stores had a fault so far.
    pub fn faults(&self) -> u64
        ensures { result ≡ ⟦<DiskShelf<D> as Shelf>⟧.faults self.now }
    {
        self.faults
    }
}

impl<D: Disk + Drop> Shelf for DiskShelf<D> {
    ghost file = { λ s. D.file s.disk };

    ghost faults = { λ s. s.faults };

    ghost fetched = { λ s. None };

    ghost stored = { λ s. None };

    fn fetch(&mut self, name: FileName, out: &mut Vec<u8>) -> Fetched {
        let fetched = fetch_from(&mut self.disk, name, out);
        if fetched == Fetched::Failed {
            self.faults = self.faults.saturating_add(1);
        }
        fetched
    }

    fn store(&mut self, name: FileName, bytes: &[u8]) -> Stored {
        match store_on(&mut self.disk, name, bytes) {
            Ok(()) => Stored::Done,
            Err(error) if error.kind() == ErrorKind::OutOfMemory => Stored::NoMemory,
            Err(_) => {
                self.faults = self.faults.saturating_add(1);
                Stored::Failed
            }
        }
    }
}
