//! How a supervisor comes.
ghost use Rattle.std.specs.Prelude.{◌≡◌, List, IfOk, OnErr};
ghost use Rattle.tm_publish.specs.Words.{home, HasSeen, made_of, front_home};
ghost use Rattle.tm_serve.specs.Serving.{HasCome};

use crate::making::make;
use std::alloc::Global;
use std::sync::Wait;
use tm_engine::engine::Engine;
use tm_list::NoMemory;
use tm_office::DeskHall;
use tm_publish::front::{Front, Named};
use tm_publish::pass::Pass;

/// The supervisor comes, with one Attach: a front that has this step, which the pass then knows.
///
/// Errors: want of memory, or that the engine was stopped; it hasn't come.
pub fn begin<L: Named, H: DeskHall, W: Wait>(
    rt: &W,
    alloc: Global,
    engine: &Engine<L, H>,
    pass: &mut Pass<L, H>,
) -> Result<Front<L, H>, NoMemory>
    ensures come { IfOk result (λ front. HasCome H.attach pass.old pass.new front) }
    ensures board { IfOk result (λ front. front_home front ≡ home pass.old) }
    ensures err { OnErr result (made_of pass.new ≡ made_of pass.old) }
    ensures knows { (xs : List H.Step) → HasSeen pass.old xs → HasSeen pass.new xs }
    ensures opening { home pass.new ≡ home pass.old }
{
    make(rt, alloc, engine, pass, H::attach_step())?;
    pass.seen();
    let front = engine.front(rt, pass);
    Ok(front)
}
