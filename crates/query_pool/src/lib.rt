//! The rounds of a set: their requests answered from the book by one lane, or by workers beside each other with builders of caches.
//! And the loop over an input, from bytes to bytes, whatever answers its rounds.
//!
//! A round is a list of requests, and its answer one reply for each, in their order, with the book behind it. `round_alone` takes the
//! requests one after another: its replies are the one-thread sender's. `run_round` deals them to lanes by their sessions; each lane
//! has a seat of the book's turnstile and a scratch of its own, makes one turn of the book for each request, and evaluates queries
//! outside of any turn, on the snapshot that its turn gave. Builders fetch bundles without a cache and install what they built, in
//! turns of their own. Whatever the threads do, the replies serve the round along one history (`IsServed` of `psi_frames`):
//!
//!     let round = run_round(rt, alloc, &params, book, requests, shape, &gate)?;
//!
//! A bundle without a cache is built into the lane's own block, for the one query. The book is given up where memory runs out.
//!
//! `serve_frames` reads a source in pieces, cuts it into frames and hands them to a `Server`, which says which frames end a round and
//! answers a round at a time.
#![tactic(auto)]

mod alone;
mod answers;
mod dealing;
mod evaluation;
mod in_turn;
mod jobs;
mod joined;
mod lane;
mod round;
mod run;
mod seating;
mod server;
mod serving;
mod shape;
mod stop;
#[cfg(test)]
mod tests;
mod works;

pub use crate::alone::round_alone;
pub use crate::dealing::{Dealt, deal, merge};
pub use crate::evaluation::evaluate;
pub use crate::joined::run_round;
pub use crate::lane::Numbered;
pub use crate::round::{Round, Served};
pub use crate::server::{Answered, Server};
pub use crate::serving::serve_frames;
pub use crate::shape::Shape;
