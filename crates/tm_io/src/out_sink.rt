ghost use Rattle.std.specs.Prelude.{◌≡◌, ◌≤◌, None};
ghost use Rattle.tm_io.specs.Bytes.{PutLeaves};
ghost use Rattle.tm_io.specs.Causes.{Rose};

use crate::streams::write_all;
use crate::{Sink, Stored};
use std::io::Write;

/// A writer, as standard output. What was put is told where the writer tells what it holds.
#[derive(Drop)]
pub struct OutSink<W: Write> {
    writer: W,
    faults: u64,
    // A writer that tells nothing goes on telling nothing.
    ghost untold: { (old new : W) → W.contents old ≡ None → W.contents new ≡ None },
}

impl<W: Write> OutSink<W> {
    /// The sink that gives everything to this writer; it has no fault yet.
    pub fn new(writer: W) -> OutSink<W>
        requires { (old new : W) → W.contents old ≡ None → W.contents new ≡ None }
        ensures written { ⟦<OutSink<W> as Sink>⟧.written result ≡ W.contents writer }
        ensures faults { ⟦<OutSink<W> as Sink>⟧.faults result ≡ 0 }
    {
        OutSink { writer, faults: 0 }
    }
}

impl<W: Write> Sink for OutSink<W> {
    ghost written = { λ s. W.contents s.writer };

    ghost faults = { λ s. s.faults };

    fn put(&mut self, bytes: &[u8]) -> Stored {
        if write_all(&mut self.writer, bytes) {
            Stored::Done
        } else {
            self.faults = self.faults.saturating_add(1);
            Stored::Failed
        }
    }
}
