//! A labelled set that threads share: the book under a turnstile.
//!
//! A [`Sender`] keeps a book. Each thread has a [`Seat`], which knows a beginning of the one history, and each call of the
//! book is one turn. What is slow, as evaluation, packing and the building of caches, is done outside on what a turn gave:
//! no call takes an act of the caller's.
#![tactic(auto)]

mod entering;
mod live;
mod looking;
mod origin;
mod sender;
#[cfg(test)]
mod tests;

pub use live::Live;
pub use origin::Origin;
pub use psi_turnstile::OpenRefused;
pub use sender::{Seat, Sender};
