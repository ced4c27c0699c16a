//! The polynomial through given points modulo the plaintext modulus 65537: a set's labels as the values at its items
//! (Chen, Huang, Laine, Rindal, CCS 2018).
//!
//! A polynomial is the slice of its coefficients, each below 65537, the constant first. Nothing here takes memory.
#![tactic(auto)]

mod arithmetic;
mod laws;
mod newton;

pub use laws::one_polynomial_alone;
pub use newton::interpolate;

#[cfg(test)]
mod tests;
