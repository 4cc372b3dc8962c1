//! The laws, each on a function whose only clause it is.
ghost use Rattle.std.specs.Prelude.{◌≡◌, ◌≤◌, ℕ, Ok};
ghost use Rattle.tm_trace.specs.Reading.{trace_of};
ghost use Rattle.tm_gen.specs.Trace.{trace_text};
ghost use Rattle.tm_gen_laws.specs.Loaded.{GeneratedLoad};
ghost use Rattle.tm_gen_laws.specs.Structured.{generated_trace};
ghost use Rattle.tm_gen_laws.specs.Generated.{NeverRefused};

/// The generated policy files load to an opened policy in which `<kernel>` is live.
pub fn generated_policies_load()
    ensures { GeneratedLoad }
{}

/// A generated trace of up to 4,096 trees is read, as the trace of its trees and records.
pub fn generated_traces_are_read()
    ensures { (seed size : ℕ) → size ≤ 4096 → trace_of (trace_text seed size) ≡ Ok (generated_trace seed size) }
{}

/// Generated files are never refused: they are read, within all limits, and each tree starts in a
/// live domain.
pub fn generated_files_are_never_refused()
    ensures { NeverRefused }
{}
