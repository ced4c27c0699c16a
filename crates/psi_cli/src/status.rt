//! The statuses of the program.
ghost use Rattle.std.specs.Prelude.{◌≡◌};
ghost use Rattle.psi_cli.specs.Statuses.{status_number};
ghost use Rattle.psi_cli.specs.declared.status.Status.TheVariants.{NoMemory};

use std::alloc::AllocError;

/// How a run ends.
#[derive(Clone, Copy)]
pub enum Status {
    /// All that was asked for is done.
    Done,
    /// The words give no command.
    Words,
    /// The parameters are refused.
    Parameters,
    /// The input is none of the command.
    BadInput,
    /// A read failed.
    ReadFault,
    /// A write or a flush failed.
    WriteFault,
    /// Memory ran out.
    NoMemory,
    /// The items have no placement.
    Crowded,
}

impl Status {
    /// The number that the program ends with.
    pub(crate) fn number(self) -> u8
        ensures { result ≡ status_number self }
    {
        match self {
            Status::Done => 0,
            Status::Words => 2,
            Status::Parameters => 3,
            Status::BadInput => 4,
            Status::ReadFault => 5,
            Status::WriteFault => 6,
            Status::NoMemory => 7,
            Status::Crowded => 8,
        }
    }
}

impl From<AllocError> for Status {
    ghost from_gives = { λ _ status. status ≡ NoMemory };

    fn from(_error: AllocError) -> Status {
        Status::NoMemory
    }
}
