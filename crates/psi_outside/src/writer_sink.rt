ghost use Rattle.std.specs.Prelude.{◌≡◌, None};
ghost use Rattle.psi_outside.specs.Adapters.{sink_writer, writer_faults};

use crate::{Failed, Sink};
use std::io::Write;

/// A writer of std as a sink. It tells the bytes that its writer tells, and not how many of them were flushed. It counts
/// each error of its writer, and each write that takes nothing.
#[derive(Drop)]
pub struct WriterSink<W> {
    writer: W,
    faults: u64,
}

impl<W: Write> WriterSink<W> {
    /// The writer as a sink, with no fault yet.
    pub fn open(writer: W) -> WriterSink<W>
        ensures writer { sink_writer result ≡ writer }
        ensures faults { writer_faults result ≡ 0 }
    {
        WriterSink { writer, faults: 0 }
    }
}

impl<W: Write> Sink for WriterSink<W> {
    ghost told = { λ s. record { written = W.contents (sink_writer s); flushed = None; faults = writer_faults s } };

    fn write(&mut self, piece: &[u8]) -> Result<usize, Failed> {
        match self.writer.write(piece) {
            Ok(count) if count > 0 => Ok(count),
            _ => {
                self.faults = self.faults.saturating_add(1);
                Err(Failed)
            }
        }
    }

    fn flush(&mut self) -> Result<(), Failed> {
        match self.writer.flush() {
            Ok(()) => Ok(()),
            Err(_) => {
                self.faults = self.faults.saturating_add(1);
                Err(Failed)
            }
        }
    }
}
