ghost use Rattle.std.specs.Prelude.{◌≡◌, ◌<◌, ◌≤◌, ◌^◌, length, None, IfOk, IfErr, IfSome, OnOk, OnErr, IsErrOf};
ghost use Rattle.psi_outside.specs.Adapters.{disk_faults};
ghost use Rattle.psi_outside.specs.Causes.{HasFileCause};
ghost use Rattle.psi_outside.specs.Names.{CarriesLimit};
ghost use Rattle.psi_outside.specs.Reading.{IsFailure};

use crate::{Failed, FileFault, Files};
use std::alloc::Global;
use std::fs::File;
use std::io;
use std::io::{ErrorKind, Read};
use std::rt::Files as Disk;

/// The files that a runtime reads. It tells nothing of their bytes, and counts each read that failed.
#[derive(Drop)]
pub struct DiskFiles<'r, R> {
    rt: &'r R,
    faults: u64,
}

impl<'r, R: Disk> DiskFiles<'r, R> {
    /// The files that `rt` reads, with no fault yet.
    pub fn open(rt: &'r R) -> DiskFiles<'r, R>
        ensures { disk_faults result ≡ 0 }
    {
        DiskFiles { rt, faults: 0 }
    }
}

impl<'r, R: Disk> Files for DiskFiles<'r, R> {
    ghost told = { λ s. record { files = None; faults = disk_faults s } };

    fn read_file(&mut self, alloc: Global, name: &str, max: u64) -> Result<Vec<u8>, FileFault> {
        read_opened(File::open(self.rt, name), alloc, max, &mut self.faults)
    }
}

// Reads a file that was opened to its end, and counts a fault. One that could not be opened is `Failed`.
fn read_opened<R: Read + Drop>(
    opened: io::Result<R>,
    alloc: Global,
    max: u64,
    faults: &mut u64,
) -> Result<Vec<u8>, FileFault>
    requires { max < 2 ^ 40 }
    ensures cause { HasFileCause faults.old faults.new result }
    ensures unopened { OnErr opened (IsErrOf result FileFault.Failed) }
    ensures bytes { IfOk opened (λ reader.
        IfOk result (λ bytes. IfSome (R.remaining reader) (λ left. left ≡ bytes.items))) }
    ensures bound { IfOk result (λ bytes. length bytes.items ≤ max) }
    ensures limit { IfErr result (CarriesLimit max) }
{
    let answer = match opened {
        Ok(reader) => read_at_most(reader, alloc, max),
        Err(_) => Err(FileFault::Failed),
    };
    if let Err(FileFault::Failed) = &answer {
        *faults = faults.saturating_add(1);
    }
    answer
}

// Reads to the end, but no more than one byte past `max`.
fn read_at_most<R: Read + Drop>(reader: R, alloc: Global, max: u64) -> Result<Vec<u8>, FileFault>
    requires { max < 2 ^ 40 }
    ensures bytes { IfOk result (λ bytes.
        IfSome (R.remaining reader) (λ left. left ≡ bytes.items)) }
    ensures bound { IfOk result (λ bytes. length bytes.items ≤ max) }
    ensures limit { IfErr result (CarriesLimit max) }
    ensures longer { IfSome (R.remaining reader) (λ left. IsErrOf result (FileFault.TooLong max)
        → max < length left) }
{
    let mut bytes = Vec::new(alloc);
    let read = reader.take(max + 1).read_to_end(&mut bytes);
    judge(read, bytes, max)
}

// The answer by what a read to the end gave: the bytes, unless they are more than `max`, or why it failed.
fn judge(read: io::Result<usize>, bytes: Vec<u8>, max: u64) -> Result<Vec<u8>, FileFault>
    ensures whole { OnOk read (IfOk result (λ all. (all ≡ bytes) × (length bytes.items ≤ max))) }
    ensures longer { OnOk read (IfErr result (λ fault. (fault ≡ FileFault.TooLong max)
        × (max < length bytes.items))) }
    ensures failed { OnErr read (IsFailure result) }
{
    match read {
        Ok(_) if bytes.len() as u64 <= max => Ok(bytes),
        Ok(_) => Err(FileFault::TooLong { max }),
        Err(error) if error.kind() == ErrorKind::OutOfMemory => Err(FileFault::NoMemory),
        Err(_) => Err(FileFault::Failed),
    }
}
