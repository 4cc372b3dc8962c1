//! A seat: a place from which one activity looks, makes steps and hears answers.
use std::alloc::Global;
use tm_list::NoMemory;
use tm_take::Judged;
use tm_types::request::{Proc, Request};
use tm_types::step::{Answered, Made, Reply, Settled};

/// A place from which one activity looks, makes steps and hears answers, while others make steps
/// too. It knows a list of steps, and each call that is Ok knows one that goes on from it.
pub trait Seat {
    ghost use Rattle.std.specs.Prelude.{◌≡◌, ◌++◌, ◌∷◌, [], ℕ, true, List, length, Some, IsSome, IsTrue, IfOk, IfSome, OnErr};
    ghost use Rattle.tm_rules.specs.Types.{Made, Start};
    ghost use Rattle.tm_rules.specs.Prelude.{answer_of, is_request};
    ghost use Rattle.tm_take.specs.Tomoyo.{tomoyo_grammar};
    ghost use Rattle.tm_legal.specs.Prelude.{DomainIn, IsNamed, IsOpened, apply};
    ghost use Rattle.tm_take.specs.Looking.{verdict_at};
    ghost use Rattle.tm_seat.specs.Seats.{state_of, audit_at, ShowsAt, FitsFrom, Begins, IsMade};

    // what was there at version 0
    ghost opening: { Self → Start };

    // the longest list of steps that it has seen or been told
    ghost at: { Self → List Made };

    // the numbers of its own steps
    ghost own: { Self → List ℕ };

    /// Called before each first look of a take, with the tree and the place of the record in it,
    /// from 1; and before each step of an editor, with tree 0 and the editor's number. It tells
    /// nothing.
    fn begin(&mut self, tree: u32, place: u32)
        ensures opening { opening self.new ≡ opening self.old }
        ensures at { at self.new ≡ at self.old }
        ensures own { own self.new ≡ own self.old };

    /// Looks for the domain of this number at a version that is no older than any that it has seen:
    /// whether the domain is there with its profile, and that version. By such a look each step
    /// that the seat knows is known to fit.
    fn arrive(&mut self, domain: u32) -> (bool, u64)
        ensures fitted { FitsFrom (opening self.new) (at self.new) }
        ensures there { IsTrue result.0
            → DomainIn (state_of (opening self.new) (at self.new)).policy domain }
        ensures version { result.1 ≡ length (at self.new) }
        ensures opening { opening self.new ≡ opening self.old }
        ensures grows { Begins (at self.old) (at self.new) }
        ensures own { own self.new ≡ own self.old };

    /// Judges a request at a version that is no older than any that it has seen, and gives that
    /// version.
    ///
    /// Errors: want of memory.
    fn judge(
        &mut self,
        alloc: Global,
        domain: u32,
        process: &Proc,
        request: &Request,
    ) -> Result<(Judged, u64), NoMemory>
        requires opened { IsOpened (opening self.old).policy }
        requires named { IsNamed tomoyo_grammar.is_path (opening self.old).policy }
        requires asked { is_request tomoyo_grammar.is_path request.now ≡ true }
        requires there { DomainIn (state_of (opening self.old) (at self.old)).policy domain }
        ensures fitted { IfOk result (λ j. FitsFrom (opening self.new) (at self.new)) }
        ensures version { IfOk result (λ j. j.1 ≡ length (at self.new)) }
        ensures verdict { IfOk result (λ j. verdict_at (state_of (opening self.new) (at self.new))
            domain process.now request.now ≡ Some j.0.verdict) }
        ensures audit { IfOk result
            (λ j. j.0.audit ≡ audit_at (state_of (opening self.new) (at self.new))
            domain process.now request.now j.0.verdict) }
        ensures opening { opening self.new ≡ opening self.old }
        ensures grows { Begins (at self.old) (at self.new) }
        ensures own { own self.new ≡ own self.old };

    /// Judges a request as `judge` does, where the domain of this number may not be there with its
    /// profile: None where it isn't.
    ///
    /// Errors: want of memory.
    fn judge_if_there(
        &mut self,
        alloc: Global,
        domain: u32,
        process: &Proc,
        request: &Request,
    ) -> Result<Option<(Judged, u64)>, NoMemory>
        requires named { IsNamed tomoyo_grammar.is_path (opening self.old).policy }
        requires asked { is_request tomoyo_grammar.is_path request.now ≡ true }
        ensures fitted { IfOk result (λ found. FitsFrom (opening self.new) (at self.new)) }
        ensures shows { IfOk result (λ found. IfSome found (λ j. ShowsAt (opening self.new)
            (at self.new) domain process.now request.now j.0 j.1)) }
        ensures opening { opening self.new ≡ opening self.old }
        ensures grows { Begins (at self.old) (at self.new) }
        ensures own { own self.new ≡ own self.old };

    /// Makes a step that fits, after whatever others have made, and gives its number and its reply.
    ///
    /// Errors: want of memory; the step isn't made.
    fn settle(&mut self, alloc: Global, made: Made) -> Result<Settled<Reply>, NoMemory>
        requires fits { IsSome (apply tomoyo_grammar
            (state_of (opening self.old) (at self.old)) made.step).reply }
        ensures fitted { IfOk result (λ s. FitsFrom (opening self.new) (at self.new)) }
        ensures settled { IfOk result
            (λ s. IsMade (opening self.old) (at self.old) made (at self.new) s.reply) }
        ensures number { IfOk result (λ s. s.number ≡ length (at self.new)) }
        ensures noted { IfOk result (λ s. own self.new ≡ own self.old ++ s.number ∷ []) }
        ensures opening { opening self.new ≡ opening self.old }
        ensures grows { Begins (at self.old) (at self.new) }
        ensures own { OnErr result (own self.new ≡ own self.old) };

    /// Waits for the answer to the query of a serial, and gives it with the version at which it was
    /// taken.
    ///
    /// Errors: that no answer can come any more.
    fn hear(&mut self, serial: u64) -> Result<(Answered, u64), NoMemory>
        ensures fitted { IfOk result (λ a. FitsFrom (opening self.new) (at self.new)) }
        ensures answer { IfOk result
            (λ a. answer_of (state_of (opening self.new) (at self.new)).queries serial ≡ Some a.0) }
        ensures version { IfOk result (λ a. a.1 ≡ length (at self.new)) }
        ensures opening { opening self.new ≡ opening self.old }
        ensures grows { Begins (at self.old) (at self.new) }
        ensures own { own self.new ≡ own self.old };
}
