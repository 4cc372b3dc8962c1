ghost use Rattle.std.specs.Prelude.{None};
ghost use Rattle.tm_io.specs.Files.{FileState};

use crate::{Disk, FileName};
use std::alloc::Global;
use std::fs::{File, Metadata, OpenFile, OpenOptions};
use std::io::{ErrorKind, Write};
use std::os::unix::fs::{MetadataExt, OpenOptionsExt, lchown};
use std::path::Path;
use std::rt::Files;
use std::{fs, io};

// How many links in a row are followed.
const MAX_LINKS: usize = 40;

// How many drafts of one file may lie in a folder: each call that was cut off leaves at most one.
const MAX_DRAFTS: usize = 16;

/// The files of a folder of the machine. Nothing is told of what they hold.
///
/// A file is replaced by a draft beside it, whose name ends in `.draft` and a number. A link is
/// followed; a replaced file keeps its permissions, and its owner and group where the system lets;
/// what is no file, as a terminal, is written in its place.
#[derive(Drop)]
pub struct Folder<'a, R> {
    rt: &'a R,
    alloc: Global,
    path: String,
}

/// A file's draft in a folder.
#[derive(Drop)]
pub struct FolderDraft<F> {
    file: F,
    // None where the file itself is written.
    draft: Option<String>,
    path: String,
}

impl<F: Write> Write for FolderDraft<F> {
    ghost contents = { λ d. None };

    fn write(&mut self, buf: &[u8]) -> io::Result<usize> {
        self.file.write(buf)
    }

    fn flush(&mut self) -> io::Result<()> {
        self.file.flush()
    }
}

// What was asked for, and None where it isn't there.
fn if_found<T>(asked: io::Result<T>) -> io::Result<Option<T>> {
    match asked {
        Ok(found) => Ok(Some(found)),
        Err(error) if error.kind() == ErrorKind::NotFound => Ok(None),
        Err(error) => Err(error),
    }
}

impl<'a, R: Files> Folder<'a, R> {
    /// The folder with this path.
    pub fn new(rt: &'a R, alloc: Global, path: String) -> Folder<'a, R> {
        Folder { rt, alloc, path }
    }

    fn path_of(&self, name: FileName) -> io::Result<String> {
        Ok(format!(in self.alloc; "{}/{name}", self.path)?)
    }

    // Where a path leads to over links; what is there need not exist.
    fn follow_links(&self, path: String) -> io::Result<String> {
        let mut path = path;
        for _ in 0..MAX_LINKS {
            let found = if_found(fs::symlink_metadata(self.rt, path.as_str()))?;
            if !found.is_some_and(|found| found.is_symlink()) {
                return Ok(path);
            }
            let target = self.rt.read_link(self.alloc, path.as_str())?;
            path = match Path::new(path.as_str()).parent() {
                Some(folder) => folder.join(self.alloc, target.as_path())?.into_string(),
                None => target.into_string(),
            };
        }
        Ok(path)
    }

    // Begins a draft beside the file, as readable as it.
    fn draft_beside(
        &self,
        path: String,
        old: Option<&Metadata>,
    ) -> io::Result<FolderDraft<R::File>> {
        for number in 0..MAX_DRAFTS {
            let draft = format!(in self.alloc; "{path}.draft{number}")?;
            let mut options = OpenOptions::new();
            options.write(true).create_new(true);
            if old.is_some() {
                options.mode(0o600);
            }
            match options.open(self.rt, draft.as_str()) {
                Ok(file) => {
                    return Ok(FolderDraft {
                        file,
                        draft: Some(draft),
                        path,
                    });
                }
                Err(error) if error.kind() == ErrorKind::AlreadyExists => {}
                Err(error) => return Err(error),
            }
        }
        Err(io::Error::from(ErrorKind::AlreadyExists))
    }

    // Gives the draft the owner, where the system lets, and the permissions of the file.
    fn keep_rights(&self, draft: &FolderDraft<R::File>, old: &Metadata) -> io::Result<()> {
        if let Some(path) = &draft.draft {
            let group = Some(old.gid());
            if lchown(self.rt, path.as_str(), Some(old.uid()), group).is_err() {
                let _ = lchown(self.rt, path.as_str(), None, group);
            }
        }
        draft.file.set_permissions(old.permissions())
    }

    // Puts a draft in the place of its file, once all of it is on the disk.
    fn put_in_place(&self, draft: &FolderDraft<R::File>) -> io::Result<()> {
        let Some(written) = &draft.draft else {
            return Ok(());
        };
        draft.file.sync_all()?;
        fs::rename(self.rt, written.as_str(), draft.path.as_str())
    }
}

impl<R: Files> Disk for Folder<'_, R> {
    type Source = R::File;

    type Draft = FolderDraft<R::File>;

    ghost file = { λ s name. FileState.Untold };

    fn open(&mut self, name: FileName) -> io::Result<R::File> {
        let path = self.path_of(name)?;
        File::open(self.rt, path.as_str())
    }

    fn draft(&mut self, name: FileName) -> io::Result<FolderDraft<R::File>> {
        let path = self.follow_links(self.path_of(name)?)?;
        let Some(old) = if_found(fs::metadata(self.rt, path.as_str()))? else {
            return self.draft_beside(path, None);
        };
        if !old.is_file() {
            return Ok(FolderDraft {
                file: File::create(self.rt, path.as_str())?,
                draft: None,
                path,
            });
        }
        // A file that may not be written is not replaced.
        OpenOptions::new().write(true).open(self.rt, path.as_str())?;
        let draft = self.draft_beside(path, Some(&old))?;
        match self.keep_rights(&draft, &old) {
            Ok(()) => Ok(draft),
            Err(error) => {
                self.discard(draft);
                Err(error)
            }
        }
    }

    fn replace(&mut self, _name: FileName, draft: FolderDraft<R::File>) -> io::Result<()> {
        match self.put_in_place(&draft) {
            Ok(()) => Ok(()),
            Err(error) => {
                self.discard(draft);
                Err(error)
            }
        }
    }

    fn discard(&mut self, draft: FolderDraft<R::File>) {
        if let Some(path) = &draft.draft {
            let _ = fs::remove_file(self.rt, path.as_str());
        }
    }
}
