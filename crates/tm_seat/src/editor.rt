//! An editor: its lines, one after another.
ghost use Rattle.std.specs.Prelude.{◌≡◌, ◌<◌, ◌≤◌, ◌++◌, ◌∷◌, [], ℕ, List, length, OnOk};
ghost use Rattle.tm_word.specs.Prelude.{Text};
ghost use Rattle.tm_rules.specs.Types.{FileKind, Maker};
ghost use Rattle.tm_joint.specs.Played.{LinesMade};
ghost use Rattle.tm_seat.specs.Seats.{FitsFrom, Begins, MadeBy};
ghost use Rattle.tm_seat.specs.Editing.{EditsOn};

use crate::seat::Seat;
use std::alloc::Global;
use tm_list::{NoMemory, Seq};
use tm_types::step::{FileKind, Made, Maker, Step};
use tm_word::Text;

// The next line of an editor.
fn play_line<S: Seat>(
    seat: &mut S,
    alloc: Global,
    editor: u32,
    file: FileKind,
    text: Text,
) -> Result<(), NoMemory>
    requires above { 0 < editor }
    requires inside { editor ≤ length (S.opening seat.old).editors }
    ensures edited { OnOk result (EditsOn (S.opening seat.old) editor (S.at seat.old) (S.own seat.old)
        (S.at seat.new) (S.own seat.new) (file, text)) }
    ensures opening { S.opening seat.new ≡ S.opening seat.old }
    ensures grows { Begins (S.at seat.old) (S.at seat.new) }
{
    seat.begin(0, editor);
    let made = Made {
        maker: Maker::Editor(editor),
        step: Step::Edit(editor, file, text),
    };
    seat.settle(alloc, made)?;
    Ok(())
}

/// Plays an editor: its lines, one after another.
///
/// Errors: want of memory.
pub fn play_editor<S: Seat>(
    seat: &mut S,
    alloc: Global,
    editor: u32,
    lines: Seq<(FileKind, Text)>,
) -> Result<(), NoMemory>
    requires fitted { FitsFrom (S.opening seat.old) (S.at seat.old) }
    requires above { 0 < editor }
    requires inside { editor ≤ length (S.opening seat.old).editors }
    ensures fitted { OnOk result (FitsFrom (S.opening seat.old) (S.at seat.new)) }
    ensures lines { OnOk result ((numbers : List ℕ) × (S.own seat.new ≡ S.own seat.old ++ numbers)
        × LinesMade (S.at seat.new) editor lines numbers) }
    ensures makers { OnOk result (MadeBy (Maker.Editor editor ∷ [])
        (S.at seat.old) (S.own seat.old) (S.at seat.new) (S.own seat.new)) }
    ensures opening { S.opening seat.new ≡ S.opening seat.old }
    ensures grows { Begins (S.at seat.old) (S.at seat.new) }
{
    for (file, text) in lines.into_vec() {
        play_line(seat, alloc, editor, file, text)?;
    }
    Ok(())
}
