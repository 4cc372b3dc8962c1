//! A supervisor's desk: a book beside a closure that answers with the book's codes.
//! Stands on tm_script for what a book answers.
//! Of its own, since plays by turns (tm_core) and the supervisor at an engine (tm_serve) share it.
//! Promises that a desk's code of a query is the code of the book's answer.
#![tactic(auto)]

ghost use Rattle.std.specs.Prelude.{◌≡◌};
ghost use Rattle.tm_rules.specs.Prelude.{book_answer, code_of};

pub use tm_script::book_code;
use tm_types::step::{Book, Query};

/// A supervisor's desk: its book, and a closure that answers with the book's codes.
#[derive(Drop)]
pub struct Desk<'a, F> {
    book: &'a Book,
    answerer: F,
}

impl<'a, F: Fn(&Query) -> u64> Desk<'a, F> {
    ghost use Rattle.tm_desk.specs.Desks.{AnswersBook, desk_book, IsDesk};

    /// A desk of this book. The closure may be called on every query, and answers with the code of
    /// the book's answer. Takes no memory.
    #[tactic(auto, unfolding(crate::specs::Desks::desk_book, crate::specs::Desks::IsDesk))]
    pub fn new(book: &'a Book, answerer: F) -> Desk<'a, F>
        requires { AnswersBook F.Fn answerer book.now }
        ensures kept { IsDesk F.Fn result }
        ensures book { desk_book result ≡ book.now }
    {
        Desk { book, answerer }
    }

    /// The code of the book's answer to a query: 1 is yes, 2 is no, 3 is retry. Takes no memory.
    #[tactic(auto, unfolding(crate::specs::Desks::desk_book, crate::specs::Desks::IsDesk))]
    pub fn code(&self, query: &Query) -> u64
        requires { IsDesk F.Fn self.now }
        ensures { result ≡ code_of (book_answer (desk_book self.now) query.now) }
    {
        (self.answerer)(query)
    }

    /// The desk's book. Takes no memory.
    #[tactic(auto, unfolding(crate::specs::Desks::desk_book))]
    pub fn book(&self) -> &Book
        ensures { result.now ≡ desk_book self.now }
    {
        self.book
    }
}
