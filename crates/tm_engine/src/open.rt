//! How an engine is opened.
ghost use Rattle.std.specs.Prelude.{◌≡◌, ℕ, ◌<◌, ◌≤◌, [], Some, length, IfOk, slice_get};
ghost use Rattle.tm_publish.specs.Boards.{Names};
ghost use Rattle.tm_publish.specs.Words.{IsFresh};

use crate::engine::{Engine, EngineOf};
use std::alloc::Global;
use std::sync::Wait;
use tm_list::NoMemory;
use tm_office::Hall;
use tm_publish::blank::Blank;
use tm_publish::front::Named;
use tm_publish::open::open_board;
use tm_publish::pass::Pass;

/// Opens an engine over a hall with no step.
///
/// Errors: want of memory.
pub fn open_engine<L: Named, H: Hall, W: Wait>(
    rt: &W,
    alloc: Global,
    blank: Blank<H>,
    hall: H,
    passes: u32,
) -> Result<(Engine<L, H>, Vec<Pass<L, H>>), NoMemory>
    requires named { Names L.name L.parts L.history blank }
    requires passes { (L.parts ≡ passes) × (0 < passes) × (passes ≤ 32) }
    requires empty { H.steps hall ≡ [] }
    ensures passes { IfOk result (λ r. length r.1.items ≡ passes) }
    ensures fresh { IfOk result
        (λ r. (k : ℕ) (p : _) → slice_get r.1.items k ≡ Some p → IsFresh (H.opening hall) p) }
{
    let (board, made) = match open_board::<L, H, W>(rt, alloc, blank, hall, passes) {
        Ok(opened) => opened,
        Err(e) => return Err(e),
    };
    Ok((EngineOf::new(board), made))
}
