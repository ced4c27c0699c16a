//! What is asked of a set, and what it answers.
use crate::label::Label;
use item_slots::Tag;

/// A call on a set.
#[derive(Clone, Copy, Drop)]
pub enum Call {
    /// Put an item's tag with its label, or give its tag another label.
    Put { tag: Tag, label: Label },
    /// Take a tag out.
    Drop { tag: Tag },
    /// Show the bundles as they stand.
    Ask,
    /// Pack the bundles of a row anew, where none of them changed after the first `from` entries.
    Repack { row: u8, from: u64 },
}

/// What a set answers to a call.
#[derive(Clone, Copy, Drop, PartialEq, Eq, Debug)]
pub enum Answer {
    /// The tag is in the set now.
    Added,
    /// The tag was in the set, and has the given label now.
    Replaced,
    /// The tag is no longer in the set.
    Removed,
    /// The tag was not in the set.
    Absent,
    /// The tag would need more planes or cells than a set may have.
    Full { planes: u32, cells: u32 },
    /// The bundles were shown.
    Seen,
    /// The row had and has so many bundles.
    Done { before: u16, after: u16 },
    /// The row changed since; this is its greatest stamp.
    Moved { stamp: u64 },
}

/// A call with its answer.
#[derive(Clone, Copy, Drop)]
pub struct Entry {
    /// What was asked.
    pub call: Call,
    /// What was answered.
    pub answer: Answer,
}
