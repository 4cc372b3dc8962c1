//! The tests of plays by hand, of looks at a machine, of a seat at a machine alone, of threads that
//! give their machine back, and of a worker that fails beside others.
//! Stands on tm_core, tm_replay, tm_call_input and tomoyo; nothing stands on it.
//! Of its own, since these need players and seats, which tm_tests_replay sees from outside alone.
//! Promises that what is read can be played from the machine; each test's name tells the rest.
#![tactic(auto)]

#[cfg(test)]
mod alone;
#[cfg(test)]
mod hands;
#[cfg(test)]
mod joint;
#[cfg(test)]
mod looks;
#[cfg(test)]
mod opened;
#[cfg(test)]
mod refusing;
