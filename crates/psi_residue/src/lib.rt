//! Arithmetic modulo the numbers of the encryption scheme: the two residue moduli of a ciphertext, q1 and q2, and the plaintext
//! modulus T = 65537.
//!
//! A number is named by its modulus (`Modulus::Q1`, `Q2`, `T`) and is below it: `add`, `sub`, `mul`, `pow` and `inv_t` are arithmetic
//! modulo that one, and no primality is assumed. `compose` makes of two residues the number below q = q1·q2 that has them, and `split`
//! gives them back:
//!
//!     let (a, b) = split(x);
//!     compose(a, b) == x
//!
//! The definitions of the whole product begin here, in `specs/`: the numbers, sums, the ring of the polynomials modulo x^4096 + 1,
//! slots and packing, ciphertexts as residue lists, and their evaluation. Nothing here takes memory.
#![tactic(auto)]

mod arithmetic;
mod inverse;
mod numbers;
mod residues;

pub use arithmetic::{add, mul, pow, sub};
pub use inverse::inv_t;
pub use numbers::{DELTA, Modulus, N, Q, Q1, Q2, R, T, constants_agree, value};
pub use residues::{compose, split};

#[cfg(test)]
mod tests;
