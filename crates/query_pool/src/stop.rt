//! Why a run of rounds stops.
ghost use Rattle.std.specs.Prelude.{◌≡◌};

use std::alloc::AllocError;

/// Why a run ends before its input was served to the end.
#[derive(Clone, Copy)]
pub enum Stop {
    /// The input has a bad frame, ends within a frame, or is too long.
    BadInput,
    /// A read failed.
    ReadFault,
    /// A write or a flush failed.
    WriteFault,
    /// Memory ran out.
    NoMemory,
}

impl From<AllocError> for Stop {
    ghost use Rattle.query_pool.specs.declared.stop.Stop.TheVariants.{NoMemory};

    ghost from_gives = { λ _ stop. stop ≡ NoMemory };

    fn from(_: AllocError) -> Stop {
        Stop::NoMemory
    }
}
