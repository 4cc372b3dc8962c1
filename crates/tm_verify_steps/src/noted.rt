//! What was noted of the steps of a run.
ghost use Rattle.std.specs.Prelude.{◌≡◌, slice_get};
ghost use Rattle.std.specs.Option.{option_copied};

use tm_verify_notes::StepNote;

/// What was noted of the step at a place, from 0.
pub(crate) fn note_at(notes: &[StepNote], place: usize) -> Option<&StepNote>
    ensures { option_copied result ≡ slice_get notes.now place }
{
    notes.get(place)
}
