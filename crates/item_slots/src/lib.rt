//! Items as tags, slot values and positions.
//!
//! An item's tag is the front of its SHA-256. Its five slot values are what a query encrypts powers of, and
//! its positions are the bins in which a sender keeps it.
#![tactic(auto)]

mod position_list;
mod tag;
#[cfg(test)]
mod tests;

pub use crate::position_list::Positions;
pub use crate::tag::{Tag, positions, slots, tag_bytes, tag_from, tag_of};
