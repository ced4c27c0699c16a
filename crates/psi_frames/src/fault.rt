//! Why bytes are no frames.
use std::alloc::AllocError;

/// Why a feed stands still, or why its bytes may not end here.
#[derive(Clone, Copy, PartialEq, Eq)]
pub enum FrameFault {
    /// A frame has begun and is not whole.
    Short,
    /// A length word that no frame of the table has, or that no Go frame has.
    Length { n: u32 },
    /// A kind that is none of the table.
    Kind { k: u8 },
    /// Memory ran out.
    NoMemory,
}

impl From<AllocError> for FrameFault {
    ghost use Rattle.std.specs.Prelude.{◌≡◌};
    ghost use Rattle.psi_frames.specs.declared.fault.FrameFault.TheVariants.{NoMemory};

    ghost from_gives = { λ _ fault. fault ≡ NoMemory };

    fn from(_error: AllocError) -> FrameFault {
        FrameFault::NoMemory
    }
}
