//! A list in shared pages of 64 values.
//!
//! A list is a spine of handles of its pages, and a page is 64 handles of values; the last page of a list has fewer
//! where the length is no multiple of 64. A list with one value replaced shares all values but that one, and all pages
//! but that value's, with the list that it was made from.
#![tactic(auto)]

mod list;
mod page;
mod shared;
#[cfg(test)]
mod tests;

pub use crate::list::PageList;
