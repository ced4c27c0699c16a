//! Keys, masks and errors that a seed decides, for the scheme of Fan and Vercauteren (2012).
//!
//! Every draw is a word of the ChaCha20 block function (RFC 8439) with the seed as its key. The streams are numbered: 0
//! for the key, `1 + 2c` for the mask and `2 + 2c` for the error of ciphertext number `c`. Nothing here takes memory.
#![tactic(auto)]

mod draws;
mod words;

pub use draws::{error, key, mask};

#[cfg(test)]
mod tests;
