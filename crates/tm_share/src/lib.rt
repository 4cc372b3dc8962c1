//! Jobs that workers share: each has a deque of its own, and steals from those of the others.
//! Stands on tm_list, and on crossbeam_deque for deques that keep a rule.
//! Of its own, on no trace; nothing stands on it, since tm_steal_rows compares what workers give
//! back, so that the deques of tm_steal need no rule.
//! Promises that what was put is what was taken and what is left, each job as often.
#![tactic(auto)]

mod deque;
mod hand;
mod law;
mod line;
mod pool;
mod tally;

pub use hand::{JobHand, JobHandOf};
pub use law::{each_once, hands_move_on, pools_move_on, taken_jobs_were_put};
pub use pool::{new_pool, settle};
pub use tally::{Fair, Tally};
