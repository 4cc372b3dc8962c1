//! What each thread of a replay has to do.
ghost use Rattle.std.specs.Prelude.{◌≡◌, ◌++◌, map, IfOk, OnOk};
ghost use Rattle.tm_seat.specs.Parts.{editor_parts, working_parts};
ghost use Rattle.tm_seat.specs.declared.part.Part.{Part};

use crate::never::lost;
use std::alloc::Global;
use tm_list::{NoMemory, Seq};
use tm_types::step::{Editor, FileKind};
use tm_word::Text;

/// What one thread does: a worker has a hand to play, an editor of a number, from 1, makes its
/// lines, and the supervisor answers queries.
#[derive(Drop)]
pub enum Part<H> {
    Worker(H),
    Editor(u32, Seq<(FileKind, Text)>),
    Desk,
}

// Appends a worker's part for each hand.
fn push_workers<H: Drop>(parts: &mut Vec<Part<H>>, hands: Vec<H>) -> Result<(), NoMemory>
    ensures { OnOk result (parts.new.items ≡ parts.old.items ++ map Part.Worker hands.items) }
{
    for hand in hands {
        parts.push(Part::Worker(hand))?;
    }
    Ok(())
}

// Appends a part for each editor, by their numbers from 1.
fn push_editors<H: Drop>(parts: &mut Vec<Part<H>>, editors: Seq<Editor>) -> Result<(), NoMemory>
    ensures { OnOk result (parts.new.items ≡ parts.old.items ++ editor_parts 1 editors) }
{
    let mut number: u32 = 0;
    for editor in editors.into_vec() {
        let Some(next) = number.checked_add(1) else {
            return Err(lost());
        };
        number = next;
        parts.push(Part::Editor(number, editor.lines))?;
    }
    Ok(())
}

/// The parts of all threads but the supervisor's, in order: a worker for each hand, and then the
/// editors by their numbers.
///
/// Errors: want of memory.
pub fn working_parts<H: Drop>(
    alloc: Global,
    hands: Vec<H>,
    editors: Seq<Editor>,
) -> Result<Vec<Part<H>>, NoMemory>
    ensures { IfOk result (λ parts. parts.items ≡ working_parts hands.items editors) }
{
    let mut parts = Vec::new(alloc);
    push_workers(&mut parts, hands)?;
    push_editors(&mut parts, editors)?;
    Ok(parts)
}
