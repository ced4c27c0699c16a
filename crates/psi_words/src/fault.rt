//! Why words give no command.
ghost use Rattle.std.specs.Prelude.{◌≡◌};
ghost use Rattle.psi_words.specs.declared.fault.WordFault.TheVariants.{NoMemory};

use std::alloc::AllocError;

/// Why words were not read as a command.
#[derive(Clone, Copy, PartialEq, Eq)]
pub enum WordFault {
    /// There is no command word, it names no command, or it follows words that may not stand before it.
    NoCommand,
    /// The command has another number of words behind its command word.
    Count {
        /// That number.
        want: u32,
    },
    /// A word is not of its form, or out of its range.
    Value {
        /// The number of the first such word, counted from 0 over all words.
        word: u32,
    },
    /// Memory ran out.
    NoMemory,
}

impl From<AllocError> for WordFault {
    ghost from_gives = { λ _ fault. fault ≡ NoMemory };

    fn from(_error: AllocError) -> WordFault {
        WordFault::NoMemory
    }
}
