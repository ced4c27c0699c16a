//! Batching: 4096 plaintext values as one polynomial and back (Smart and Vercauteren 2014).
//!
//! A value is below 65537 and stands in one of 4096 slots. Slot j of a polynomial is its value at the power 2j + 1 of the plaintext
//! modulus's root, so that a product of polynomials modulo x^4096 + 1 has in each slot the product of the slots:
//!
//!     pack(&values, &mut polynomial);
//!     unpack(&polynomial, &mut slots);
//!     slots == values
//!
//! Nothing here takes memory.
#![tactic(auto)]

mod laws;
mod slots;

pub use laws::slots_and_packing_undo_each_other;
pub use slots::{pack, unpack};

#[cfg(test)]
mod tests;
