//! The bodies of queries and replies as bytes. Numbers are big-endian.
//!
//! A body begins with the 8 bytes of the parameters, and its ciphertexts stand at its end, 81,920 bytes each: four lists of 4096 residues of 5
//! bytes. A query has one ciphertext for each row and power; a reply has a 16-bit number of bundles for each row before its
//! ciphertexts, one for each plane of each bundle. `read_query` and `read_reply` give the value of a body, or its first fault: a wrong
//! length, then other parameters, then the first residue that is not below its modulus. `write_query` and `write_reply` give the one
//! spelling of a value:
//!
//!     let body = write_query(alloc, &params, &query)?;
//!     read_query(alloc, &params, &body)?   has the same ciphertexts
//!
//! For threads there are the parts: `write_ciphertext` and `join_query` for a query, `read_reply_head` and `read_reply_ciphertext` for a
//! reply. No query's body begins another one, and no reply's does (`no_body_begins_another`).
#![tactic(auto)]

mod ciphertexts;
mod fault;
mod header;
mod laws;
mod lists;
mod numbers;
mod query;
mod reply;

pub use bfv_core::Ciphertext;
pub use ciphertexts::write_ciphertext;
pub use fault::CodecFault;
pub use laws::no_body_begins_another;
pub use lists::{Ciphertexts, Counts};
pub use query::{join_query, read_query, write_query};
pub use reply::{ReplyBody, read_reply, read_reply_ciphertext, read_reply_head, write_reply};

#[cfg(test)]
mod tests;
