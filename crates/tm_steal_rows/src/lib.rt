//! What workers play of a trace whose processes they take from each other, and the rows that are
//! gathered of it.
//! Stands on tm_seat for takes and for runs, and on no engine.
//! Of its own, so that whatever workers give back is compared, and tm_steal's deques need no rule.
//! Promises that what is gathered, each worker's part compared by value, is a legal run.
//! Only tested: that what workers give back agrees.
//!
//! For example, tree 1 has the records: 5 does, 5 forks 6, 6 does, 5 does. `TreeRecords` has two
//! processes, with the places 0, 0, 1, 0 of the records. Worker 0 plays 5 and gives back a
//! `PlayedProcess` of place 0 with the takes of records 1 and 4; worker 1, which took 6, gives one
//! of place 1 with that of record 3; worker 0 adds the End, where a supervisor stands. `gather`
//! lays the takes out by process, [[1, 4], [3]], and walks the records: 5's first take has to have
//! begun in the tree's first domain; at record 2 process 6 stands where 5 does after it, with its
//! floor; 6's take has to have begun there, knowing at least as many steps as that floor; then
//! comes 5's other take. The row has the takes of 1, 3, 4 and the End, which is above all that they
//! have seen. A take more or less, or of another record, and there are no rows.
#![tactic(auto)]

mod law;
mod owners;
mod parts;
mod played;
mod queues;
mod records;
mod rows;
mod walk;

pub use law::{records_can_be_asked, stolen_runs_are_legal, workers_steal_on};
pub use parts::TreeRecords;
pub use played::{Played, PlayedProcess, PlayedTake, SeenTake, end_trees, play_at};
pub use records::{RecordPlace, record_at};
pub use rows::gather;
