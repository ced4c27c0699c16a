//! A turnstile: a ticket lock that counts the history of the value that it keeps.
//!
//! Many threads share one value, and do one act at a time on it. Each act adds one entry to the value's history, or
//! none. Every thread has a seat, which knows a beginning of the one history, its own places in it, and its share.
//! Looking, joining, meeting and closing wait for nobody.
#![tactic(auto)]

mod kept;
mod plays;
mod steps;
#[cfg(test)]
mod tests;
mod turnstile;
mod view;

pub use kept::{Act, Kept};
pub use plays::Counts;
pub use turnstile::{OpenRefused, Seat, Turnstile};
pub use view::{Stage, View};
