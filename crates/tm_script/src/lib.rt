//! Scripts: edits of policies, a supervisor's answers and schedules, read; what a book answers.
//! Stands on the words of lines of `tm_line`, on `tm_pattern` and on the rules of `tm_rules`.
//! Of its own, so that the desk (tm_desk) and the audit sorter (tm_sort) stand on no trace.
//! Promises what the definitions give, the first wrong line, and the first rule that matches.
#![tactic(auto)]

mod answers;
mod book;
mod edits;
mod laws;
mod lines;
mod schedule;
mod steps;

pub use answers::{colon_at, colon_place, list_at, list_of, list_word, read_answers};
pub use book::{book_answer, book_code, has_supervisor, list_matches};
pub use edits::read_edits;
pub use laws::{faults_are_first, scripts_read};
pub use lines::{Script, read_script};
pub use schedule::read_schedule;
pub use steps::{KindFault, number_at};
