ghost use Rattle.std.specs.Prelude.{◌≡◌, ◌∷◌, ◌++◌, [], List, Option, Some, option_copied};
ghost use Rattle.tm_io.specs.Notes.{Noted, kept_notes};

use crate::FileName;
use std::alloc::Global;
use std::marker::Model;

// The names of calls, in their order. Where memory for one was missing, nothing is told any more.
#[derive(Drop)]
pub(crate) struct Notes {
    names: Vec<FileName>,
    lost: bool,
}

impl Model for Notes {
    ghost use Rattle.std.specs.Prelude.{List, Option};
    ghost use Rattle.tm_io.specs.declared.names.FileName.{FileName};
    ghost use Rattle.tm_io.specs.Notes.{kept_notes};

    ghost Value = { Option (List FileName) };

    ghost view = { λ n. kept_notes n.lost n.names.items };
}

impl Notes {
    // No call was made.
    pub(crate) fn new(alloc: Global) -> Notes
        ensures { result ≡ Some [] }
    {
        Notes {
            names: Vec::new(alloc),
            lost: false,
        }
    }

    // Notes a call.
    pub(crate) fn note(&mut self, name: FileName)
        ensures { Noted (name ∷ []) self.old self.new }
    {
        if self.names.push(name).is_err() {
            self.lost = true;
        }
    }

    // The names, where they are told.
    pub(crate) fn names(&self) -> Option<&[FileName]>
        ensures { option_copied result ≡ self.now }
    {
        if self.lost {
            return None;
        }
        Some(self.names.as_slice())
    }
}

/// Law: of calls made one after the other the notes are joined, and where none is made they are as
/// they were.
pub fn notes_join()
    ensures none { (a : Option (List FileName)) → Noted [] a a }
    ensures both { (a b c : Option (List FileName)) (first later : List FileName) → Noted first a b
        → Noted later b c → Noted (first ++ later) a c }
{}
