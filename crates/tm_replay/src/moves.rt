//! Steps of a pass at an engine on a machine, and the answers that it hears.
ghost use Rattle.std.specs.Prelude.{◌≡◌, ◌++◌, ◌∷◌, [], Some, IfOk, OnErr, IsSome, length};
ghost use Rattle.tm_rules.specs.Prelude.{answer_of};
ghost use Rattle.tm_machine.specs.Tomoyo.{tomoyo_grammar};
ghost use Rattle.tm_legal.specs.Prelude.{apply};
ghost use Rattle.tm_publish.specs.Words.{home, known, made_of};
ghost use Rattle.tm_seat.specs.Seats.{state_of, FitsFrom, Begins, IsMade};
ghost use Rattle.tm_replay.specs.Seats.{home_of};

use std::alloc::Global;
use std::sync::Wait;
use tm_engine::engine::EngineOf;
use tm_list::NoMemory;
use tm_machine::Machine;
use tm_machine::rep::Rep;
use tm_publish::front::Named;
use tm_publish::page::Sheet;
use tm_publish::pass::Pass;
use tm_types::step::{Answered, Made, Reply, Settled};

/// Makes a step that fits, after whatever others have made, and gives its number and its reply.
///
/// Errors: want of memory, or that the engine was stopped; the step isn't made.
pub(crate) fn settle_at<L: Named, R: Rep, T: Sheet<L, Machine<R>>, W: Wait>(
    rt: &W,
    alloc: Global,
    engine: &EngineOf<L, Machine<R>, T>,
    pass: &mut Pass<L, Machine<R>>,
    made: Made,
) -> Result<Settled<Reply>, NoMemory>
    requires fits { IsSome (apply tomoyo_grammar
        (state_of (home_of pass.old) (known pass.old)) made.step).reply }
    ensures fitted { IfOk result (λ s. FitsFrom (home_of pass.new) (known pass.new)) }
    ensures settled { IfOk result
        (λ s. IsMade (home_of pass.old) (known pass.old) made (known pass.new) s.reply) }
    ensures number { IfOk result (λ s. s.number ≡ length (known pass.new)) }
    ensures noted { IfOk result (λ s. made_of pass.new ≡ made_of pass.old ++ s.number ∷ []) }
    ensures opening { home pass.new ≡ home pass.old }
    ensures grows { Begins (known pass.old) (known pass.new) }
    ensures own { OnErr result (made_of pass.new ≡ made_of pass.old) }
{
    pass.seen();
    let settled = engine.settle(rt, alloc, pass, made);
    pass.seen();
    settled
}

/// Waits for the answer to the query of a serial, and gives it with the version at which it was
/// taken.
///
/// Errors: that the engine was stopped.
pub(crate) fn hear_at<L: Named, R: Rep, T: Sheet<L, Machine<R>>, W: Wait>(
    rt: &W,
    engine: &EngineOf<L, Machine<R>, T>,
    pass: &mut Pass<L, Machine<R>>,
    serial: u64,
) -> Result<(Answered, u64), NoMemory>
    ensures fitted { IfOk result (λ a. FitsFrom (home_of pass.new) (known pass.new)) }
    ensures answer { IfOk result
        (λ a. answer_of (state_of (home_of pass.new) (known pass.new)).queries serial ≡ Some a.0) }
    ensures version { IfOk result (λ a. a.1 ≡ length (known pass.new)) }
    ensures opening { home pass.new ≡ home pass.old }
    ensures grows { Begins (known pass.old) (known pass.new) }
    ensures own { made_of pass.new ≡ made_of pass.old }
{
    pass.seen();
    let heard = engine.await_answer(rt, pass, serial);
    pass.seen();
    heard
}
