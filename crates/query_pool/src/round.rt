//! What a round leaves, and what a run of rounds does.
use bundle_cache::Cache;
use psi_frames::Reply;
use sender_core::Book;

/// What a round leaves: the book, and one reply for each request, in the requests' order.
#[derive(Drop)]
pub struct Round {
    /// The book behind the round.
    pub book: Book<Cache>,
    /// The replies.
    pub replies: Vec<Reply>,
}

/// How a run of rounds ended, and what it wrote.
#[derive(Clone, Copy, Debug, PartialEq, Eq)]
pub struct Served {
    /// The status: 0, 4, 5, 6 or 7.
    pub status: u8,
    /// The entries of the rounds whose replies were written.
    pub entries: u64,
    /// The replies that were written.
    pub replies: u64,
}
