ghost use Rattle.std.specs.Prelude.{◌≡◌, IfOk, IfErr, OnErr, OnOk};
ghost use Rattle.std.specs.IoError.{error_kind};
ghost use Rattle.tm_io.specs.Files.{FileState, MayFit, MayLack, SameFiles};
ghost use Rattle.tm_io.specs.Disks.{IsBegun, Replaces, TellsOf};

use crate::FileName;
use std::io;
use std::io::{ErrorKind, Read, Write};

/// Where files are kept outside the program: they are opened to be read, and replaced whole by
/// drafts. A disk may tell what each file holds.
pub trait Disk {
    ghost use Rattle.tm_io.specs.declared.names.FileName.{FileName};

    /// A file that is read.
    type Source: Read + Drop;

    /// What is to stand in a file's place.
    type Draft: Write + Drop;

    ghost file: { Self → FileName → FileState };

    /// Opens a file to be read. Errors: `NotFound` where it isn't there, `OutOfMemory` for want of
    /// memory, else what the system says.
    fn open(&mut self, name: FileName) -> io::Result<Self::Source>
        ensures tells { IfOk result
            (λ source. TellsOf (Self.Source.remaining source) (file self.old name)) }
        ensures lacks { IfErr result
            (λ error. error_kind error ≡ ErrorKind.NotFound → MayLack (file self.old name)) }
        ensures fits { IfErr result
            (λ error. error_kind error ≡ ErrorKind.OutOfMemory → MayFit (file self.old name)) }
        ensures kept { SameFiles (file self.old) (file self.new) };

    /// Begins an empty draft for a file, which stays as it is. Errors: `OutOfMemory` for want of
    /// memory, else what the system says.
    fn draft(&mut self, name: FileName) -> io::Result<Self::Draft>
        ensures begun { IfOk result
            (λ draft. IsBegun (Self.Draft.contents draft) (file self.old)) }
        ensures kept { SameFiles (file self.old) (file self.new) };

    /// Puts a draft in the file's place, in one step. Errors as for a draft; the file then stays as
    /// it was, and the draft is gone.
    fn replace(&mut self, name: FileName, draft: Self::Draft) -> io::Result<()>
        ensures replaced { OnOk result
            (Replaces name (Self.Draft.contents draft) (file self.old) (file self.new)) }
        ensures kept { OnErr result (SameFiles (file self.old) (file self.new)) };

    /// Removes a draft.
    fn discard(&mut self, draft: Self::Draft)
        ensures kept { SameFiles (file self.old) (file self.new) };
}
