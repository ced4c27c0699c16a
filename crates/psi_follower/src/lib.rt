//! A follower: a replica of a set that answers queries from the entries that it was given.
//!
//! A leader's history is the list of its journal's entries. A [`Follower`] is fed pieces of it, in any order, with losses and
//! repeats, and keeps the longest front that it was given without a gap: it compares each entry with the one that it keeps at
//! that place, or makes the call on a set of its own and compares the answer. It answers a query from the set that its entries
//! lead to, or says that it has fewer than the query's floor:
//!
//!     let mut follower = Follower::open(rt, alloc, &params)?;
//!     follower.feed(alloc, first, &entries)?;
//!     let told = follower.answer(rt, alloc, floor, query)?;
//!
//! The law [`replicas`] says that a follower of one legal history is never told that an entry differs, and that each answer is
//! from a prefix of the history at least as long as its floor and as the prefix of every earlier answer. It does not say that
//! a follower catches up.
#![tactic(auto)]

mod answering;
mod comparing;
mod entry_bytes;
mod entry_reading;
mod follower;
mod laws;
mod taking;
#[cfg(test)]
mod tests;

pub use crate::entry_bytes::{EntriesFault, Fed, write_entry};
pub use crate::entry_reading::read_entries;
pub use crate::follower::{AnswerFault, FeedFault, Follower};
pub use crate::laws::replicas;
