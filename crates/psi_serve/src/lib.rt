//! Serving rounds of requests from bytes to bytes, by one set.
//!
//! The source is read in pieces of 65,536 bytes at most. Its frames fall into rounds; each round is answered as one, as soon as it was
//! read, and its replies are written and flushed before the next one begins. `serve` does so by workers and builders, `serve_alone`
//! by one lane. Both end with a status, and tell how many entries and replies the rounds had that were flushed whole: 0 at the end
//! of good input, 4 at a bad frame, 5 and 6 at a fault of the source and the sink, 7 without memory. What is written, flushed, read and
//! counted with each is one record, `HasServed` in `specs/Serving`. The loop over the source is `serve_frames` of `query_pool`; here is
//! what answers its rounds from one book.
#![tactic(auto)]

mod calls;
mod one_set;
#[cfg(test)]
mod tests;

pub use crate::calls::{serve, serve_alone};
