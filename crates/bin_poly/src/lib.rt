//! Polynomials by their roots, modulo the plaintext modulus 65537: a set's items as the roots of a polynomial (Chen,
//! Laine, Rindal, CCS 2017).
//!
//! A polynomial is the slice of its coefficients, each below 65537, the constant first. Nothing here takes memory.
#![tactic(auto)]

mod laws;
mod modular;
mod roots;
mod values;

pub use laws::{roots_stand, values_of_products};
pub use roots::{divide_root, from_roots, times_root};
pub use values::eval;

#[cfg(test)]
mod tests;
