//! One step of a pass, after all that it knows.
ghost use Rattle.std.specs.Prelude.{◌≡◌, List, IfOk, OnErr};
ghost use Rattle.tm_publish.specs.Words.{home, HasSeen, made_of};
ghost use Rattle.tm_serve.specs.Serving.{HasMade};

use std::alloc::Global;
use std::sync::Wait;
use tm_engine::engine::Engine;
use tm_list::NoMemory;
use tm_office::Hall;
use tm_publish::front::Named;
use tm_publish::pass::Pass;

/// Makes a step that fits every list: its number.
///
/// Errors: want of memory, or that the engine was stopped; the step isn't made.
pub(crate) fn make<L: Named, H: Hall, W: Wait>(
    rt: &W,
    alloc: Global,
    engine: &Engine<L, H>,
    pass: &mut Pass<L, H>,
    step: H::Step,
) -> Result<u64, NoMemory>
    requires fits { (p : H.Opening) (xs : List H.Step) → H.fits p xs step }
    ensures made { IfOk result (HasMade step pass.old pass.new) }
    ensures err { OnErr result (made_of pass.new ≡ made_of pass.old) }
    ensures knows { (xs : List H.Step) → HasSeen pass.old xs → HasSeen pass.new xs }
    ensures opening { home pass.new ≡ home pass.old }
{
    pass.seen();
    let settled = engine.settle(rt, alloc, pass, step)?;
    Ok(settled.number)
}
