//! Builders: they make caches for the bundles that have none, while others ask and change the set.
//!
//! Only the fetch of a bundle and the install of its cache are turns of the sender. The cache is built between them, on the
//! bundle that the fetch gave.
#![tactic(auto)]

mod building;
mod built;
#[cfg(test)]
mod tests;

pub use crate::building::build_some;
pub use crate::built::Built;
