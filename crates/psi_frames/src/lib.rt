//! Request and reply frames as bytes, how they fall into rounds, and what replies serve what requests.
//!
//! A frame is a 32-bit length, which counts the bytes after it; an 8-bit kind; a 16-bit session; a 32-bit
//! number, which the reply repeats; and the body. All numbers are big-endian. A `Feed` takes bytes as they come and gives whole
//! frames, and an `OpenRound` holds those of the round that has begun:
//!
//!     let mut feed = Feed::open(alloc)?;
//!     feed.feed(alloc, piece)?;
//!     while let Some(frame) = feed.next() { round.push(frame)?; }
//!     feed.finish()?;
//!
//! `requests_of_round` makes the frames of a round requests: a Put, a Drop, an Ask, a Repack, or one that is refused with the code
//! that its bytes decide. `text_of` writes the frames of replies, and `read_answer` reads one. What serves what is a relation over
//! rounds of requests, replies and one history, in seven points: `IsServed` in `specs/Served`.
#![tactic(auto)]

mod answer;
mod begun;
mod body;
mod cut;
mod fault;
mod feed;
mod frame;
mod front;
mod head;
mod laws;
mod number;
mod open_round;
mod reply;
mod request;
mod round_requests;
#[cfg(test)]
mod tests;
mod texts;
mod writing;

pub use crate::answer::read_answer;
pub use crate::body::Body;
pub use crate::fault::FrameFault;
pub use crate::feed::Feed;
pub use crate::frame::{ASK, DROP, Frame, GO, PUT, REPACK};
pub use crate::laws::{
    a_text_of_replies_is_read_in_one_way, an_input_is_read_in_one_way, no_reply_begins_another,
    no_request_begins_another, one_lane_never_moves, one_text_is_of_one_lane, pieces_do_not_matter,
    served_rounds_have_one_history,
};
pub use crate::open_round::OpenRound;
pub use crate::reply::{
    ABSENT, ADDED, ANSWER, FULL, MOVED, REFUSED, REMOVED, REPACKED, REPLACED, Reply,
};
pub use crate::request::{Request, read_request};
pub use crate::round_requests::requests_of_round;
pub use crate::texts::{Address, addresses_of, text_of};
pub use crate::writing::{append_answer, write_answer, write_request};
