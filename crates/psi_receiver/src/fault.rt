//! Why items are not asked for, and why a reply is not opened.
ghost use Rattle.std.specs.Prelude.{◌≡◌};
ghost use Rattle.psi_receiver.specs.declared.fault.AskFault.TheVariants as asking;
ghost use Rattle.psi_receiver.specs.declared.fault.OpenFault.TheVariants as opening;

use cuckoo_place::Unplaced;
use query_codec::CodecFault;
use std::alloc::AllocError;

/// Why there is no query.
#[derive(Drop)]
pub enum AskFault {
    /// An item has more than 255 bytes.
    TooLong {
        /// The number of the first such item, counted from 0.
        item: u32,
    },
    /// The items have no placement.
    Crowded {
        /// The numbers of items, counted from 0, in rising order, whose positions together are fewer than they.
        items: Vec<u32>,
    },
    /// Memory ran out.
    NoMemory,
}

impl From<AllocError> for AskFault {
    ghost from_gives = { λ _ fault. fault ≡ asking.NoMemory };

    fn from(_error: AllocError) -> AskFault {
        AskFault::NoMemory
    }
}

impl From<Unplaced> for AskFault {
    ghost use Rattle.psi_receiver.specs.Faults.{ask_unplaced};

    ghost from_gives = { λ unplaced fault. fault ≡ ask_unplaced unplaced };

    fn from(unplaced: Unplaced) -> AskFault {
        match unplaced {
            Unplaced::Crowded { items } => AskFault::Crowded { items },
            Unplaced::NoMemory => AskFault::NoMemory,
        }
    }
}

/// Why a reply is not opened.
#[derive(Drop)]
pub enum OpenFault {
    /// An item has more than 255 bytes.
    TooLong {
        /// The number of the first such item, counted from 0.
        item: u32,
    },
    /// The items have no placement.
    Crowded {
        /// The numbers of items, counted from 0, in rising order, whose positions together are fewer than they.
        items: Vec<u32>,
    },
    /// The body is no reply under these parameters.
    Codec(CodecFault),
    /// Memory ran out.
    NoMemory,
}

impl From<AllocError> for OpenFault {
    ghost from_gives = { λ _ fault. fault ≡ opening.NoMemory };

    fn from(_error: AllocError) -> OpenFault {
        OpenFault::NoMemory
    }
}

impl From<Unplaced> for OpenFault {
    ghost use Rattle.psi_receiver.specs.Faults.{open_unplaced};

    ghost from_gives = { λ unplaced fault. fault ≡ open_unplaced unplaced };

    fn from(unplaced: Unplaced) -> OpenFault {
        match unplaced {
            Unplaced::Crowded { items } => OpenFault::Crowded { items },
            Unplaced::NoMemory => OpenFault::NoMemory,
        }
    }
}

impl From<CodecFault> for OpenFault {
    ghost use Rattle.psi_receiver.specs.Faults.{open_unread};

    ghost from_gives = { λ unread fault. fault ≡ open_unread unread };

    fn from(fault: CodecFault) -> OpenFault {
        match fault {
            CodecFault::NoMemory => OpenFault::NoMemory,
            other => OpenFault::Codec(other),
        }
    }
}
