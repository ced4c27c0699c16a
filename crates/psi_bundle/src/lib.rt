//! Bundles of bins with their members, and what a set is.
//!
//! A sender's set stands in bundles. Each bundle has 819 bins, and a member stands in the bin of each of
//! its positions. The definitions of `specs/` say when a bin accepts a tag, and how a set changes
//! step by step.
#![tactic(auto)]

mod bin;
mod bundle;
mod cached;
mod history;
mod label;
mod member;
mod root_polynomial;
#[cfg(test)]
mod tests;

pub use crate::bundle::Bundle;
pub use crate::cached::{Cached, HasBundle, NoCache, Shown, accepting};
pub use crate::history::{Answer, Call, Entry};
pub use crate::label::Label;
pub use crate::member::Member;
