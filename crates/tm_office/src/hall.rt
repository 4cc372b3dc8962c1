//! What is asked of an office whose steps are replied.
use crate::office::Office;
use std::alloc::Global;
use tm_list::NoMemory;
use tm_types::step::Answered;

/// An office whose steps have replies, and whose queries have answers.
pub trait Hall: Office {
    ghost use Rattle.std.specs.Prelude.{◌≡◌, ◌<◌, ◌≤◌, ◌↔◌, ℕ, List, Bool, Option, Some, None};
    ghost use Rattle.std.specs.Prelude.{IsSome, IfOk, MatchOption, length};
    ghost use Rattle.tm_types.specs.declared.step.Answered.{Answered};

    /// What a step is replied.
    type Reply: Copy;

    /// What waits for an answer.
    type Query: Drop;

    // the reply of a step, by its number, from 1
    ghost reply_at: { Self.Opening → List Self.Step → ℕ → Option Self.Reply };

    // what became of a query, by its serial
    ghost answer_at: { Self.Opening → List Self.Step → ℕ → Option Answered };

    // the first query without an answer
    ghost first_at: { Self.Opening → List Self.Step → Option Self.Query };

    // that no query will come
    ghost over_at: { Self.Opening → List Self.Step → Bool };

    /// The reply of the step with this number, from 1; None outside the steps.
    fn reply(&self, number: u64) -> Option<Self::Reply>
        ensures value { result ≡ reply_at (Self.opening self.now) (Self.steps self.now) number }
        ensures inside { IsSome result ↔ ((0 < number) × (number ≤ length (Self.steps self.now))) };

    /// What became of the query of a serial; None where it has no answer, or was never asked.
    fn answer_of(&self, serial: u64) -> Option<Answered>
        ensures { result ≡ answer_at (Self.opening self.now) (Self.steps self.now) serial };

    /// The first query without an answer; None where each has one.
    fn first_query(&self) -> Option<&Self::Query>
        ensures { MatchOption result
            (first_at (Self.opening self.now) (Self.steps self.now) ≡ None)
            (λ q. first_at (Self.opening self.now) (Self.steps self.now) ≡ Some q.now) };

    /// Whether no query will come.
    fn over(&self) -> bool
        ensures { result ≡ over_at (Self.opening self.now) (Self.steps self.now) };

    /// An equal query.
    ///
    /// Errors: want of memory.
    fn copy_query(alloc: Global, query: &Self::Query) -> Result<Self::Query, NoMemory>
        ensures { IfOk result (λ q. q ≡ query.now) };
}
