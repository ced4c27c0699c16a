//! Why a body is refused.
ghost use Rattle.std.specs.Prelude.{◌≡◌};
ghost use Rattle.query_codec.specs.declared.fault.CodecFault.TheVariants.{NoMemory};

use std::alloc::AllocError;

/// Why a body was not read.
#[derive(Clone, Copy, PartialEq, Eq)]
pub enum CodecFault {
    /// The body has another length than it is to have.
    Length {
        /// The length that it is to have, in bytes.
        want: u64,
    },
    /// The body does not begin with the 8 bytes of the reader's parameters.
    WrongParams,
    /// A residue is not below its modulus.
    Residue {
        /// The number of the first such residue, counted from 0 over all ciphertexts of the body.
        index: u64,
    },
    /// Memory ran out.
    NoMemory,
}

impl From<AllocError> for CodecFault {
    ghost from_gives = { λ _ fault. fault ≡ NoMemory };

    fn from(_error: AllocError) -> CodecFault {
        CodecFault::NoMemory
    }
}
