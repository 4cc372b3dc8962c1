//! What is noted of a step.
ghost use Rattle.std.specs.Prelude.{◌≡◌, Some};
ghost use Rattle.std.specs.Option.{option_copied};
ghost use Rattle.tm_verify_laws.specs.Desk.{is_answered_so};
ghost use Rattle.tm_verify_notes.specs.Stepping.{suits};

use tm_script::book_code;
use tm_types::step::{Book, Query, Step};

/// What is noted of a step: whether its reply is the one that it has at its place, and whether the
/// first unanswered query before it lets the supervisor make it.
#[derive(Clone, Copy)]
pub struct StepNote {
    pub replied: bool,
    pub suits: bool,
}

// Whether the answer of this code is for that query, and is the book's.
fn is_answered_so(book: &Book, query: Option<&Query>, serial: u64, code: u64) -> bool
    ensures { result ≡ is_answered_so book.now (option_copied query.entry) serial code }
{
    match query {
        Some(query) => query.serial == serial && book_code(book, query) == code,
        None => false,
    }
}

// Whether the first unanswered query lets the supervisor of this book make a step.
fn suits_book(book: &Book, query: Option<&Query>, step: &Step) -> bool
    ensures { result ≡ suits (Some book.now) (option_copied query.entry) step.now }
{
    match step {
        Step::Answer(serial, code) => is_answered_so(book, query, *serial, *code),
        Step::Detach => query.is_none(),
        Step::Learn(_, _)
        | Step::Make(_, _)
        | Step::Fail(_)
        | Step::Ask(_, _, _)
        | Step::Attach
        | Step::Edit(_, _, _)
        | Step::End(_) => true,
    }
}

/// Whether, with this first unanswered query, the book lets the supervisor make a step; true where
/// no supervisor stands.
pub fn suits(book: Option<&Book>, query: Option<&Query>, step: &Step) -> bool
    ensures { result ≡ suits (option_copied book.entry) (option_copied query.entry) step.now }
{
    match book {
        Some(book) => suits_book(book, query, step),
        None => true,
    }
}
