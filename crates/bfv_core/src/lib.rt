//! The encryption scheme of Fan and Vercauteren (2012) with a secret key: encryption from a seed, decryption, and sums
//! of plaintexts times ciphertexts. Polynomials are lists of 4096 coefficients, and products of them are products
//! modulo x^4096 + 1.
#![tactic(auto)]

mod accumulator;
mod ciphertext;
mod decryption;
mod encryption;
mod key;
pub mod laws;
mod polynomials;
mod products;

pub use accumulator::Accumulator;
pub use ciphertext::Ciphertext;
pub use decryption::decrypt;
pub use encryption::encrypt;
pub use key::SecretKey;

#[cfg(test)]
mod tests;
