//! Rows of words in one block of memory, filled row by row, and a shelf that keeps such blocks for later.
//!
//! Raw pointers are in four functions alone: opening, pushing and reading a row, and the drop, of the private type in
//! `words.rt`, which owns the allocation. All else is safe code over their contracts.
#![tactic(auto)]

mod block;
mod shelf;
#[cfg(test)]
mod tests;
mod words;

pub use block::RowBlock;
pub use shelf::Shelf;
