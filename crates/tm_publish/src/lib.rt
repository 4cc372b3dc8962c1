//! Published versions of an office: threads look without waiting, one board makes a step at a time.
//! Stands on tm_office, on left_right for two copies, logbook for their one history, std's ledger.
//! Of its own, so that versions and their history are proved for every office, without the lock
//! that tm_engine puts around a board.
//! Promises that a look shows no less than was seen, and that each step is one pass's, made once.
//! Only tested: that a pass looks while another one does.
//!
//! A look compares the page's length with what its pass knows, at run time, since a pass is told of
//! fronts that it is only lent, of which left_right's rule can't learn. It would answer None all
//! the same, since left_right may refuse an entry, which no clause of it excludes.
//!
//! For example, a board opens with an empty list and three passes: R and S look, and W makes steps.
//! `publish` of `a` as one of W's grows the spare copy, shows it and answers 1. R begins a look: it
//! sees version 1, [a]. `publish` of `b` lets the other copy, at version 0, follow `a` and grow by
//! `b`, shows it and answers 2, while R still sees [a]. A look of S sees version 2, [a, b]; so does
//! R's next one. The next `publish` first waits for R to leave the copy of version 1. At the close
//! the list is [a, b], and the passes have made none, none and two steps.
#![tactic(auto)]

pub mod blank;
pub mod board;
mod closing;
pub mod event;
pub mod front;
pub mod last;
pub mod mind;
pub mod open;
pub mod page;
pub mod pass;
pub mod press;
