//! The receiver: the query of some items, and what a reply to it opens to (Chen, Laine, Rindal, CCS 2017; labels: Chen,
//! Huang, Laine, Rindal, CCS 2018).
//!
//! Each item is placed at one of its positions. The query encrypts the powers of the slot values at all positions. A
//! reply opens, bundle by bundle, to slots that are 0 where an item is found.
#![tactic(auto)]

mod asking;
mod fault;
mod found;
mod laws;
mod opening;
mod placement;
mod plane;
mod query;
mod slots;
mod turns;

pub use asking::{ask, ask_tags};
pub use fault::{AskFault, OpenFault};
pub use found::Found;
pub use laws::{
    found_take_slots, items_are_found, members_are_found, opened_is_found, tags_are_bytes,
};
pub use opening::{open, open_tags};

#[cfg(test)]
mod tests;
