//! What a call to the outside answers in place of Ok.
ghost use Rattle.std.specs.Prelude.{◌≡◌};

use std::alloc::AllocError;

/// A read, a write or a flush that failed, for whatever reason the outside has.
#[derive(Clone, Copy, PartialEq, Eq)]
pub struct Failed;

/// Why a file was not read.
#[derive(Clone, Copy, PartialEq, Eq)]
pub enum FileFault {
    /// The file is missing, or a read of it failed.
    Failed,
    /// The file has more bytes than `max`, the limit that the call was given.
    TooLong { max: u64 },
    /// There is no memory for the file's bytes.
    NoMemory,
}

impl From<Failed> for FileFault {
    ghost use Rattle.psi_outside.specs.declared.faults.FileFault.TheVariants.{Failed};

    ghost from_gives = { λ _ fault. fault ≡ Failed };

    fn from(_: Failed) -> Self {
        FileFault::Failed
    }
}

impl From<AllocError> for FileFault {
    ghost use Rattle.psi_outside.specs.declared.faults.FileFault.TheVariants.{NoMemory};

    ghost from_gives = { λ _ fault. fault ≡ NoMemory };

    fn from(_: AllocError) -> Self {
        FileFault::NoMemory
    }
}

/// Why a source was not read to its end.
#[derive(Clone, Copy, PartialEq, Eq)]
pub enum ReadFault {
    /// A read failed.
    Failed,
    /// There are more bytes than the limit that the call was given.
    TooLong,
    /// There is no memory for the bytes.
    NoMemory,
}

impl From<Failed> for ReadFault {
    ghost use Rattle.psi_outside.specs.declared.faults.ReadFault.TheVariants.{Failed};

    ghost from_gives = { λ _ fault. fault ≡ Failed };

    fn from(_: Failed) -> Self {
        ReadFault::Failed
    }
}

impl From<AllocError> for ReadFault {
    ghost use Rattle.psi_outside.specs.declared.faults.ReadFault.TheVariants.{NoMemory};

    ghost from_gives = { λ _ fault. fault ≡ NoMemory };

    fn from(_: AllocError) -> Self {
        ReadFault::NoMemory
    }
}
