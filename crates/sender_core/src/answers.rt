//! What the calls of a book answer.

/// The most entries of a journal.
pub(crate) const ENTRIES: u64 = 1 << 20;

/// What a Put did.
#[derive(Clone, Copy, Debug, PartialEq, Eq)]
pub enum Put {
    /// The tag is in the set now.
    Added,
    /// The tag was in the set, and has the given label now.
    Replaced,
    /// The tag would need so many planes and cells, which is more than a set may have.
    Full { planes: u32, cells: u32 },
}

/// What a Drop did.
#[derive(Clone, Copy, Debug, PartialEq, Eq)]
pub enum DropAnswer {
    /// The tag is no longer in the set.
    Removed,
    /// The tag was not in the set.
    Absent,
}

/// What a Repack did.
#[derive(Clone, Copy, Debug, PartialEq, Eq)]
pub enum RepackAnswer {
    /// The row had and has so many bundles.
    Done { before: u16, after: u16 },
    /// The row changed since it was viewed; this is its greatest stamp.
    Moved { stamp: u64 },
}

/// An answer, and the place of the call's entry in the journal.
#[derive(Drop)]
pub struct Placed<T> {
    /// The answer.
    pub answer: T,
    /// The number of the entry, from 0.
    pub place: u64,
}

/// Why a call was refused. The book is as before.
#[derive(Clone, Copy, PartialEq, Eq)]
pub enum Refusal {
    /// The journal is full: it has its most entries, so many.
    JournalFull { entries: u64 },
    /// There was no memory.
    NoMemory,
}
