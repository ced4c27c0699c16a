//! Caches: a bundle's planes as transforms, and the evaluation of a query on them (Chen, Laine, Rindal, CCS 2017).
//!
//! A cache has a row for each coefficient of each plane of a bundle, and the rows lie in one block. On rows and on the
//! transforms of a query's ciphertexts a product is place by place, so that an evaluation costs one transform for each
//! residue list.
#![tactic(auto)]

mod cache;
mod columns;
mod evaluation;
mod powers;
mod rows;
mod scratch;

pub use cache::{BuildRefused, Cache};
pub use evaluation::eval_into;
pub use powers::Powers;
pub use scratch::{Scratch, open_block};

#[cfg(test)]
mod tests;
