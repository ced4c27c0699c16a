//! First fit of the members of a row of bundles.
//!
//! A row that changed often may stand in more bundles than it needs. [`pack_row`] puts its members, in their order, into
//! bundles by first fit; a set's Repack takes what it makes.
#![tactic(auto)]

mod pack;
#[cfg(test)]
mod tests;

pub use crate::pack::pack_row;
