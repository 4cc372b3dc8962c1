//! The lines that editors have had.
ghost use Rattle.std.specs.Prelude.{◌≡◌, ◌↔◌, ◌+◌, ◌<◌, ◌^◌, true, Some, slice_get};
ghost use Rattle.tm_verify_steps.specs.Lines.{next_line, line_had, IsDue, had_after};

use tm_list::Same;
use tm_types::step::{Editor, FileKind, Step};
use tm_word::Text;

// Whether the line of this number is that one.
fn is_line(editor: &Editor, number: usize, file: FileKind, line: &Text) -> bool
    ensures right { (result ≡ true) ↔ (slice_get editor.now.lines number ≡ Some (file, line.now)) }
    ensures few { result ≡ true → number + 1 < 2 ^ 64 }
{
    let lines = editor.lines.as_slice();
    if number >= lines.len() {
        return false;
    }
    let (kind, text) = &lines[number];
    *kind == file && text.same(line)
}

// Whether a line is the next one of its editor, which then has had it.
fn take_line(editors: &[Editor], had: &mut Vec<usize>, by: u32, file: FileKind, line: &Text) -> bool
    ensures right { (result ≡ true)
        ↔ (next_line editors.now had.old.items by ≡ Some (file, line.now)) }
    ensures had { result ≡ true → had.new.items ≡ line_had by had.old.items }
{
    if by == 0 {
        return false;
    }
    let place = (by - 1) as usize;
    if place >= had.len() || place >= editors.len() {
        return false;
    }
    let number = had[place];
    if !is_line(&editors[place], number, file, line) {
        return false;
    }
    had[place] = number + 1;
    true
}

/// Whether a step that is an edit is the next line of its editor, which then has had it.
pub(crate) fn take_step(editors: &[Editor], had: &mut Vec<usize>, step: &Step) -> bool
    ensures right { (result ≡ true) ↔ IsDue editors.now had.old.items step.now }
    ensures had { result ≡ true → had.new.items ≡ had_after had.old.items step.now }
{
    match step {
        Step::Edit(by, file, line) => take_line(editors, had, *by, *file, line),
        Step::Learn(_, _)
        | Step::Make(_, _)
        | Step::Fail(_)
        | Step::Ask(_, _, _)
        | Step::Answer(_, _)
        | Step::Attach
        | Step::Detach
        | Step::End(_) => true,
    }
}
