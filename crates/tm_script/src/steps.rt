//! Steps of lines: what stands at their front.
ghost use Rattle.std.specs.Prelude.{◌≡◌, ◌<◌, IfOk};
ghost use Rattle.tm_word.specs.Prelude.{GivesNow};
ghost use Rattle.tm_script.specs.Steps.{kind_cause, number_at, ended};
ghost use Rattle.tm_script.specs.declared.steps.KindFault.TheVariants.{NoMemory};

use std::alloc::{AllocError, AllocFailed};
use tm_number::plain_number;
use tm_types::request::ScriptKind;
use tm_word::Text;

/// Why a line of a script was not read: the kind of its first wrong word, or want of memory.
#[derive(Clone, Copy)]
pub enum KindFault {
    Kind(ScriptKind),
    NoMemory,
}

impl From<AllocError> for KindFault {
    ghost from_gives = { λ _ e. e ≡ NoMemory };

    fn from(_e: AllocError) -> KindFault {
        KindFault::NoMemory
    }
}

impl<T: Drop> From<AllocFailed<T>> for KindFault {
    ghost from_gives = { λ _ e. e ≡ NoMemory };

    fn from(_e: AllocFailed<T>) -> KindFault {
        KindFault::NoMemory
    }
}

/// Reads a plain number below a limit at the front, and answers the words after it. Errors: `Arity`
/// where no word is left, `Number`.
#[tactic(auto, unfolding(crate::specs::Steps::number_at))]
pub fn number_at(limit: u128, words: &[Text]) -> Result<(u64, &[Text]), KindFault>
    ensures exact { GivesNow kind_cause (λ x. (x.0, x.1.now)) result (number_at limit words.now) }
    ensures below { IfOk result (λ x. x.0 < limit) }
{
    match words {
        [] => Err(KindFault::Kind(ScriptKind::Arity)),
        [word, rest @ ..] => match plain_number(limit, word.bytes()) {
            Some(number) => Ok((number, rest)),
            None => Err(KindFault::Kind(ScriptKind::Number)),
        },
    }
}

/// Nothing may stand after a line's last word. Errors: `Arity`.
pub(crate) fn ended<T: Drop>(value: T, words: &[Text]) -> Result<T, KindFault>
    ensures { GivesNow kind_cause (λ x. x) result (ended value words.now) }
{
    match words {
        [] => Ok(value),
        [_, ..] => Err(KindFault::Kind(ScriptKind::Arity)),
    }
}
