//! The ring of the polynomials modulo x^4096 + 1: products of polynomials, their laws, and transforms.
//!
//! A polynomial is a slice of 4096 numbers below its modulus, the constant first. `product_plain` is the product as the definition has it,
//! a double sum. The fast way is by values: `forward` puts at place j the value at the power 2j + 1 of the modulus's root, `mul_acc`
//! multiplies values place by place, and `inverse` goes back:
//!
//!     forward(m, &mut a);
//!     forward(m, &mut b);
//!     let mut product = [0; N];
//!     mul_acc(m, &a, &b, &mut product);
//!     inverse(m, &mut product);
//!
//! gives the product of a and b, by the law `transforms_multiply`. Nothing here takes memory.
#![tactic(auto)]

mod factors;
mod first_factors;
mod forward_passes;
mod inverse_passes;
mod laws;
mod plain_factors;
mod plans;
mod product;
mod second_factors;
mod transforms;

pub use laws::{products_form_a_ring, transforms_multiply, values_multiply};
pub use product::product_plain;
pub use transforms::{forward, inverse, mul_acc};

#[cfg(test)]
mod tests;
