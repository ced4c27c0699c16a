//! The book of a labelled set: its version, the journal of its entries, and caches beside its bundles.
//!
//! A [`Book`] holds a finite map from tags to labels, and rows of bundles in which the tags stand. Each call is
//! one step of the set, written down as an entry of the journal. The definitions of `psi_bundle` say what a
//! step does; those of `specs/` say what a book keeps.
#![tactic(auto)]

mod answers;
mod book;
mod install;
mod laws;
mod receipt;
mod rows;
mod snapshot;
mod state;
mod task;
#[cfg(test)]
mod tests;
mod undo;
mod view;

pub use crate::answers::{DropAnswer, Placed, Put, Refusal, RepackAnswer};
pub use crate::book::Book;
pub use crate::install::{Bare, Install};
pub use crate::laws::{
    books_keep_bytes, histories_keep_bytes, interleaved, interleaved_with, stamps_tell,
    steps_keep_sets_sound,
};
pub use crate::receipt::{Now, Receipt};
pub use crate::snapshot::{Sight, Snapshot};
pub use crate::task::Task;
pub use crate::view::RowView;
pub use psi_bundle::{Answer, Call, Entry};
