//! Why there is no script, and why there is no summary.
ghost use Rattle.std.specs.Prelude.{◌≡◌};
ghost use Rattle.psi_demo.specs.declared.fault.DemoFault.TheVariants as demo;
ghost use Rattle.psi_demo.specs.declared.fault.SumFault.TheVariants as sum;

use query_codec::CodecFault;
use std::alloc::AllocError;

/// Why there is no script.
#[derive(Drop)]
pub enum DemoFault {
    /// The asked items have no placement.
    Crowded {
        /// The numbers of items in the asked list, counted from 0, in rising order, whose positions together are fewer than
        /// they.
        items: Vec<u32>,
    },
    /// Memory ran out.
    NoMemory,
}

impl From<AllocError> for DemoFault {
    ghost from_gives = { λ _ fault. fault ≡ demo.NoMemory };

    fn from(_error: AllocError) -> DemoFault {
        DemoFault::NoMemory
    }
}

/// Why there is no summary.
#[derive(Clone, Copy, Drop)]
pub enum SumFault {
    /// The bytes are no list of whole reply frames.
    Torn {
        /// The offset of the first part that begins no such frame.
        offset: u64,
    },
    /// The body of an answer is no reply under the parameters of the demonstration.
    Codec(CodecFault),
    /// Memory ran out.
    NoMemory,
}

impl From<AllocError> for SumFault {
    ghost from_gives = { λ _ fault. fault ≡ sum.NoMemory };

    fn from(_error: AllocError) -> SumFault {
        SumFault::NoMemory
    }
}
