//! How many workers serve a round.

/// The workers that answer a round's requests, 1 to 8, and the builders that make caches beside them, 0 to 4.
#[derive(Clone, Copy, Debug, PartialEq, Eq)]
pub struct Shape {
    /// The workers.
    pub workers: u8,
    /// The builders.
    pub builders: u8,
}
