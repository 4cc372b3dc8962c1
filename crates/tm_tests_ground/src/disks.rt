//! Shelves over a folder of the machine, and over disks that fail.
ghost use Rattle.tm_io.specs.Files.{FileState};

use std::alloc::{AllocError, Global};
use std::io::{Error, ErrorKind, Read, Write};
use std::os::unix::fs::{PermissionsExt, symlink};
use std::rt::Files;
use std::test::Fail;
use std::{fs, io};
use tm_io::{Disk, DiskShelf, Fetched, FileName, Folder, Shelf, Stored};

fn shelf_of<'a, R: Files>(
    rt: &'a R,
    alloc: Global,
    path: &str,
) -> Result<DiskShelf<Folder<'a, R>>, AllocError> {
    Ok(DiskShelf::new(Folder::new(rt, alloc, String::from_str(alloc, path)?)))
}

#[test]
fn folder_shelf_fetches_what_it_stored(rt: HostRuntime) -> Result<(), Fail> {
    let alloc = rt.alloc();
    let mut shelf = shelf_of(&rt, alloc, ".")?;
    let mut out = vec![in alloc; b'-']?;
    assert!(rt; shelf.fetch(FileName::Audit2, &mut out) == Fetched::Absent);
    assert!(rt; shelf.store(FileName::Audit2, b"a text") == Stored::Done);
    assert!(rt; shelf.fetch(FileName::Audit2, &mut out) == Fetched::Done);
    assert_eq!(rt; out.as_slice(), b"-a text".as_slice());
    let long = vec![in alloc; 0u8; 16_777_217]?;
    assert!(rt; shelf.store(FileName::Audit2, &long) == Stored::Done);
    assert!(rt; shelf.fetch(FileName::Audit2, &mut out) == Fetched::TooLong);
    assert_eq!(rt; out.len(), 7);
    fs::remove_file(&rt, "audit2")?;
    let mut nowhere = shelf_of(&rt, alloc, "./no_such_folder")?;
    assert!(rt; nowhere.store(FileName::Run, b"x") == Stored::Failed);
    Ok(())
}

#[test]
fn a_folder_has_files_up_to_the_limit(rt: HostRuntime) -> Result<(), Fail> {
    let alloc = rt.alloc();
    let mut shelf = shelf_of(&rt, alloc, ".")?;
    let mut bytes = vec![in alloc; b'x'; 16_777_216]?;
    let mut out = vec![in alloc; b'-']?;
    assert!(rt; shelf.store(FileName::Run2, &bytes) == Stored::Done);
    assert!(rt; shelf.fetch(FileName::Run2, &mut out) == Fetched::Done);
    assert_eq!(rt; out.len(), 16_777_217);
    assert!(rt; out[1..] == bytes[..]);
    bytes.push(b'y')?;
    assert!(rt; shelf.store(FileName::Run2, &bytes) == Stored::Done);
    assert!(rt; shelf.fetch(FileName::Run2, &mut out) == Fetched::TooLong);
    assert_eq!(rt; out.len(), 16_777_217);
    assert_eq!(rt; shelf.faults(), 0);
    fs::remove_file(&rt, "run2")?;
    Ok(())
}

#[test]
fn a_folder_in_a_files_place_is_a_fault(rt: HostRuntime) -> Result<(), Fail> {
    let alloc = rt.alloc();
    let mut shelf = shelf_of(&rt, alloc, ".")?;
    fs::create_dir(&rt, "manager")?;
    let mut out = vec![in alloc; b'-']?;
    assert!(rt; shelf.fetch(FileName::Manager, &mut out) == Fetched::Failed);
    assert_eq!(rt; shelf.faults(), 1);
    assert_eq!(rt; out.as_slice(), b"-".as_slice());
    assert!(rt; shelf.store(FileName::Manager, b"x") == Stored::Failed);
    assert_eq!(rt; shelf.faults(), 2);
    fs::remove_dir(&rt, "manager")?;
    assert!(rt; shelf.fetch(FileName::Manager, &mut out) == Fetched::Absent);
    assert_eq!(rt; shelf.faults(), 2);
    Ok(())
}

fn is_there<R: Files>(rt: &R, path: &str) -> bool {
    fs::symlink_metadata(rt, path).is_ok()
}

#[test]
fn a_link_is_followed_and_stays(rt: HostRuntime) -> Result<(), Fail> {
    let alloc = rt.alloc();
    let mut shelf = shelf_of(&rt, alloc, ".")?;
    symlink(&rt, "linked_audit", "audit")?;
    for text in [b"one".as_slice(), b"another".as_slice()] {
        assert!(rt; shelf.store(FileName::Audit, text) == Stored::Done);
        let read = fs::read(&rt, "linked_audit")?;
        assert_eq!(rt; read.as_slice(), text);
    }
    assert!(rt; fs::symlink_metadata(&rt, "audit")?.is_symlink());
    assert!(rt; !is_there(&rt, "audit.draft0"));
    assert!(rt; !is_there(&rt, "linked_audit.draft0"));
    fs::remove_file(&rt, "audit")?;
    fs::remove_file(&rt, "linked_audit")?;
    Ok(())
}

#[test]
fn a_stored_file_keeps_its_permissions(rt: HostRuntime) -> Result<(), Fail> {
    let alloc = rt.alloc();
    let mut shelf = shelf_of(&rt, alloc, ".")?;
    assert!(rt; shelf.store(FileName::Schedule, b"one") == Stored::Done);
    let mut permissions = fs::metadata(&rt, "schedule")?.permissions();
    permissions.set_mode(0o604);
    fs::set_permissions(&rt, "schedule", permissions)?;
    assert!(rt; shelf.store(FileName::Schedule, b"two") == Stored::Done);
    let mode = fs::metadata(&rt, "schedule")?.permissions().mode();
    assert_eq!(rt; mode & 0o777, 0o604);
    fs::remove_file(&rt, "schedule")?;
    Ok(())
}

// A device that is always full, by a link.
#[test]
fn a_store_that_does_not_fit_is_a_fault(rt: HostRuntime) -> Result<(), Fail> {
    let alloc = rt.alloc();
    let mut shelf = shelf_of(&rt, alloc, ".")?;
    symlink(&rt, "/dev/full", "run")?;
    assert!(rt; shelf.store(FileName::Run, b"x") == Stored::Failed);
    assert_eq!(rt; shelf.faults(), 1);
    fs::remove_file(&rt, "run")?;
    Ok(())
}

#[test]
fn drafts_of_calls_that_were_cut_off_stay_and_others_are_taken(
    rt: HostRuntime,
) -> Result<(), Fail> {
    let alloc = rt.alloc();
    let mut shelf = shelf_of(&rt, alloc, ".")?;
    assert!(rt; shelf.store(FileName::Profile, b"old") == Stored::Done);
    for number in 0..16 {
        let draft = format!(in alloc; "profile.draft{number}")?;
        fs::write(&rt, draft.as_str(), "left")?;
    }
    assert!(rt; shelf.store(FileName::Profile, b"new") == Stored::Failed);
    let read = fs::read(&rt, "profile")?;
    assert_eq!(rt; read.as_slice(), b"old".as_slice());
    fs::remove_file(&rt, "profile.draft9")?;
    assert!(rt; shelf.store(FileName::Profile, b"new") == Stored::Done);
    let read = fs::read(&rt, "profile")?;
    assert_eq!(rt; read.as_slice(), b"new".as_slice());
    assert!(rt; !is_there(&rt, "profile.draft9"));
    let left = fs::read(&rt, "profile.draft0")?;
    assert_eq!(rt; left.as_slice(), b"left".as_slice());
    for number in 0..16 {
        let draft = format!(in alloc; "profile.draft{number}")?;
        let _ = fs::remove_file(&rt, draft.as_str());
    }
    fs::remove_file(&rt, "profile")?;
    Ok(())
}

// A file of which three bytes are read, and then what comes of it.
#[derive(Drop)]
struct Broken {
    left: usize,
    end: Option<ErrorKind>,
}

impl Read for Broken {
    fn read(&mut self, buf: &mut [u8]) -> io::Result<usize> {
        if self.left > 0 && !buf.is_empty() {
            buf[0] = b'x';
            self.left -= 1;
            return Ok(1);
        }
        match self.end {
            Some(kind) => Err(Error::from(kind)),
            None => Ok(0),
        }
    }
}

// A draft with room for so many bytes.
#[derive(Drop)]
struct Room {
    left: usize,
}

impl Write for Room {
    fn write(&mut self, buf: &[u8]) -> io::Result<usize> {
        let count = self.left.min(buf.len());
        if count == 0 && !buf.is_empty() {
            return Err(Error::from(ErrorKind::StorageFull));
        }
        self.left -= count;
        Ok(count)
    }

    fn flush(&mut self) -> io::Result<()> {
        Ok(())
    }
}

// A disk whose calls end as told, with what became of its drafts.
#[derive(Drop)]
struct Faulty {
    opening: Option<ErrorKind>,
    reading: Option<ErrorKind>,
    drafting: Option<ErrorKind>,
    replacing: Option<ErrorKind>,
    room: usize,
}

impl Faulty {
    fn new() -> Faulty {
        Faulty {
            opening: None,
            reading: None,
            drafting: None,
            replacing: None,
            room: 8,
        }
    }
}

fn or_fault<T: Drop>(value: T, fault: Option<ErrorKind>) -> io::Result<T> {
    match fault {
        Some(kind) => Err(Error::from(kind)),
        None => Ok(value),
    }
}

impl Disk for Faulty {
    type Source = Broken;

    type Draft = Room;

    ghost file = { λ s name. FileState.Untold };

    fn open(&mut self, _name: FileName) -> io::Result<Broken> {
        let file = Broken {
            left: 3,
            end: self.reading,
        };
        or_fault(file, self.opening)
    }

    fn draft(&mut self, _name: FileName) -> io::Result<Room> {
        or_fault(Room { left: self.room }, self.drafting)
    }

    fn replace(&mut self, _name: FileName, _draft: Room) -> io::Result<()> {
        or_fault((), self.replacing)
    }

    fn discard(&mut self, _draft: Room) {}
}

#[test]
fn each_fault_of_a_disk_is_answered_as_what_it_is(rt: HostRuntime) -> Result<(), Fail> {
    let alloc = rt.alloc();
    let fetches = [
        (None, None, Fetched::Done, 4),
        (Some(ErrorKind::NotFound), None, Fetched::Absent, 1),
        (Some(ErrorKind::OutOfMemory), None, Fetched::NoMemory, 1),
        (Some(ErrorKind::PermissionDenied), None, Fetched::Failed, 1),
        (Some(ErrorKind::IsADirectory), None, Fetched::Failed, 1),
        (None, Some(ErrorKind::Other), Fetched::Failed, 1),
        (None, Some(ErrorKind::NotFound), Fetched::Failed, 1),
    ];
    for (opening, reading, wanted, length) in fetches {
        let mut disk = Faulty::new();
        disk.opening = opening;
        disk.reading = reading;
        let mut shelf = DiskShelf::new(disk);
        let mut out = vec![in alloc; b'-']?;
        assert!(rt; shelf.fetch(FileName::Trace, &mut out) == wanted);
        assert_eq!(rt; out.len(), length);
        assert_eq!(rt; shelf.faults(), u64::from(wanted == Fetched::Failed));
    }
    let stores = [
        (8, None, None, Stored::Done),
        (7, None, None, Stored::Failed),
        (8, Some(ErrorKind::PermissionDenied), None, Stored::Failed),
        (8, None, Some(ErrorKind::NotFound), Stored::Failed),
        (8, Some(ErrorKind::OutOfMemory), None, Stored::NoMemory),
        (8, None, Some(ErrorKind::OutOfMemory), Stored::NoMemory),
    ];
    for (room, drafting, replacing, wanted) in stores {
        let mut disk = Faulty::new();
        disk.room = room;
        disk.drafting = drafting;
        disk.replacing = replacing;
        let mut shelf = DiskShelf::new(disk);
        assert!(rt; shelf.store(FileName::Run, b"8 bytes.") == wanted);
        assert_eq!(rt; shelf.faults(), u64::from(wanted == Stored::Failed));
    }
    Ok(())
}
