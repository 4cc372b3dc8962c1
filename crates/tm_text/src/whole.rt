//! A text that is made apart and appended whole.
ghost use Rattle.std.specs.Prelude.{◌≡◌, ◌++◌, OnOk, OnErr};

use tm_list::NoMemory;

/// Appends a text; where nothing stands before it, it is taken as it is. After want of memory `out`
/// is as before.
pub(crate) fn append(text: Vec<u8>, out: &mut Vec<u8>) -> Result<(), NoMemory>
    ensures ok { OnOk result (out.new.items ≡ out.old.items ++ text.items) }
    ensures err { OnErr result (out.new.items ≡ out.old.items) }
{
    if out.is_empty() {
        *out = text;
        return Ok(());
    }
    out.extend_from_slice(&text)
}
