//! Calls at each place of a list, beside each other, by threads that the caller alone starts.
//! Stands on the standard library alone.
//! Of its own, on no office, since tm_replay, tm_steal and tm_steal_rows all start threads by it.
//! Promises at each place what the call there promises, whatever the threads' order is, and also
//! where threads can't be made.
//! Only tested: that calls go on at once, and end where one that they wait for has got no thread.
#![tactic(auto)]

mod each;
mod together;

pub use each::for_each_beside;
pub use together::call_together;
