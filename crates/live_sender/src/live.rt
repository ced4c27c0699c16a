//! A book as a turnstile keeps it.
ghost use Rattle.std.specs.Prelude.{◌≡◌, length};
ghost use Rattle.sender_core.specs.Kept.{IsConsistent};
ghost use Rattle.live_sender.specs.Histories.{origin_of};

use crate::origin::Origin;
use psi_bundle::{Cached, Entry};
use psi_turnstile::Kept;
use sender_core::Book;
use std::marker::Model;

/// A book under a turnstile. It stands for its origin, which is its parameters and its start, and for its journal.
#[derive(Drop)]
pub struct Live<C: Cached> {
    pub(crate) book: Book<C>,
}

impl<C: Cached> Model for Live<C> {
    ghost use Rattle.sender_core.specs.Kept.{Contents};

    ghost Value = { Contents C };

    ghost view = { λ l. l.book };
}

impl<C: Cached + Drop> Kept for Live<C> {
    type Entry = Entry;

    type Base = Origin;

    ghost base = { origin_of };

    ghost entries = { λ l. l.journal };

    fn count(&self) -> u64 {
        self.book.count()
    }
}

/// What is true of every book, which its type keeps and its calls tell. It does nothing: the clause is what it is for.
pub(crate) fn know<C: Cached + Drop>(book: &Book<C>)
    ensures { IsConsistent C.contents C.is_under book.now }
{
    let _ = book.count();
}
