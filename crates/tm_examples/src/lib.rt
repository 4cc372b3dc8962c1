//! Worked examples of the definitions, by computation: verdicts, transitions, whole runs, a
//! recorded boot with its rerun, a scene that can be played, and the faults of traces, scripts and
//! policy lines with the replies of lines that are read.
//! Stands on tm_legal, on tm_rerun's summary and on the readers tm_trace, tm_script and
//! tm_policy_line; nothing stands on it, and it has no code.
//! Of its own, so that no crate waits for what the prover computes here.
//! Promises that the definitions give what was worked out beside them; each lemma is one example.
#![tactic(auto)]
