ghost use Rattle.std.specs.Prelude.{◌≡◌};
ghost use Rattle.psi_outside.specs.Adapters.{source_reader, reader_faults};

use crate::{Failed, Source};
use std::io::Read;

/// A reader of std as a source. It tells the bytes that its reader tells, and counts each error of its reader.
#[derive(Drop)]
pub struct ReaderSource<R> {
    reader: R,
    faults: u64,
}

impl<R: Read> ReaderSource<R> {
    /// The reader as a source, with no fault yet.
    pub fn open(reader: R) -> ReaderSource<R>
        ensures reader { source_reader result ≡ reader }
        ensures faults { reader_faults result ≡ 0 }
    {
        ReaderSource { reader, faults: 0 }
    }
}

impl<R: Read> Source for ReaderSource<R> {
    ghost told = { λ s. record { left = R.remaining (source_reader s); faults = reader_faults s } };

    fn read(&mut self, buf: &mut [u8]) -> Result<usize, Failed> {
        match self.reader.read(buf) {
            Ok(count) => Ok(count),
            Err(_) => {
                self.faults = self.faults.saturating_add(1);
                Err(Failed)
            }
        }
    }
}
