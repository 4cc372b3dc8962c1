//! The lines that an editor has left.
ghost use Rattle.std.specs.Prelude.{◌≡◌, [], ◌∷◌, IfOk, MatchOption};

use std::alloc::Global;
use std::collections::VecDeque;
use std::marker::Model;
use tm_list::{Copied, NoMemory};
use tm_types::step::{Editor, FileKind};
use tm_word::Text;

/// The lines that an editor has left, each with the file that it is for, the next one first.
#[derive(Drop)]
pub(crate) struct Script {
    lines: VecDeque<(FileKind, Text)>,
}

impl Model for Script {
    ghost use Rattle.std.specs.Prelude.{List};
    ghost use Rattle.tm_word.specs.Prelude.{Text};
    ghost use Rattle.tm_rules.specs.Types.{FileKind};

    ghost Value = { List (FileKind × Text) };

    ghost view = { λ script. script.lines.items };
}

impl Script {
    /// All lines of an editor.
    pub(crate) fn new(alloc: Global, editor: &Editor) -> Result<Script, NoMemory>
        ensures { IfOk result (λ script. script ≡ editor.now.lines) }
    {
        let lines = editor.lines.copy(alloc)?;
        Ok(Script {
            lines: VecDeque::from(lines.into_vec()),
        })
    }

    /// Takes the next line out; None where none is left.
    pub(crate) fn next(&mut self) -> Option<(FileKind, Text)>
        ensures { MatchOption result ((self.old ≡ []) × (self.new ≡ []))
            (λ line. self.old ≡ line ∷ self.new) }
    {
        self.lines.pop_front()
    }
}
