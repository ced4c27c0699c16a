//! The parameters of a set and its queries, and whether the noise of a reply leaves room to open it.
//!
//! `Params` has the rows of 819 bins, the members of a bin (its capacity) and the label units; 8 bytes stand for it. `check` gives the
//! ledger of parameters that pass: the worst case of how often the plaintext modulus goes into a coefficient of a reply (`carry`), of a
//! reply's noise, and of what rounding needs of the ciphertext modulus (`used`). It refuses others by their first fault: a field out of
//! range, a query or a set too large, too much noise.
//!
//!     check(&Params::of(1, 2244, 0)) is Ok, and
//!     check(&Params::of(1, 2245, 0)) is Err(ParamFault::Noise { bound: 4722747273476240663100 })
//!
//! That what passes opens is the law of `bfv_core`. Nothing here takes memory.
#![tactic(auto)]

mod ledger;
mod params;

pub use ledger::{Ledger, ParamFault, check};
pub use params::Params;

#[cfg(test)]
mod tests;
