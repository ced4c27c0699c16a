//! The rule of the table, and what each step tells.
ghost use Rattle.std.specs.Prelude.{List, []};
ghost use Rattle.psi_turnstile.specs.Knowing.{keeps_rest, takes_half, joined, spent};
ghost use Rattle.psi_turnstile.specs.Rule.{Ruled, opener};
ghost use Rattle.psi_turnstile.specs.Telling.{drew, looked, looked_up, checked, counted, left, went_in};

use crate::kept::Kept;
use crate::view::View;
use atomic_table::{Join, Play, Seat, Shared, Split, Table, TableRule};
use std::alloc::Global;
use std::marker::{Brand, PhantomData};
use std::snapshot::Snapshot;

/// The rule between any two steps. Its key is the value as the turnstile was opened.
pub struct Counts;

impl<B: Kept> TableRule<Option<B>, View<B::Entry, B::Base>, Snapshot<B>> for Counts {
    ghost holds = { λ _. Ruled B.base B.entries };

    ghost first = { λ k. opener B.base B.entries k.value };
}

pub(crate) type Board<B> = Table<
    Option<B>,
    View<<B as Kept>::Entry, <B as Kept>::Base>,
    Snapshot<B>,
    Counts,
    Global,
>;

pub(crate) type Core<B> = Shared<
    Option<B>,
    View<<B as Kept>::Entry, <B as Kept>::Base>,
    Snapshot<B>,
    Counts,
>;

pub(crate) type Token<B> = Seat<Option<B>, View<<B as Kept>::Entry, <B as Kept>::Base>>;

pub(crate) struct Draw;

impl<B, E, Z> Play<Option<B>, View<E, Z>> for Draw {
    ghost then = { drew };
}

pub(crate) struct Look;

impl<B, E, Z> Play<Option<B>, View<E, Z>> for Look {
    ghost then = { looked };
}

pub(crate) struct See;

impl<B, E, Z> Play<Option<B>, View<E, Z>> for See {
    ghost then = { looked_up };
}

pub(crate) struct Check;

impl<B, E, Z> Play<Option<B>, View<E, Z>> for Check {
    ghost then = { checked };
}

pub(crate) struct GoIn;

impl<B: Kept> Play<Option<B>, View<B::Entry, B::Base>> for GoIn {
    ghost then = { went_in B.base B.entries };
}

/// The history that a count tells.
pub trait News<E> {
    ghost log: { List E };
}

impl<E> News<E> for Brand {
    ghost log = { [] };
}

pub(crate) struct Count<N> {
    news: PhantomData<N>,
}

impl<B, E, Z, N: News<E>> Play<Option<B>, View<E, Z>> for Count<N> {
    ghost then = { counted N.log };
}

pub(crate) struct Leave;

impl<B, E, Z> Play<Option<B>, View<E, Z>> for Leave {
    ghost then = { left };
}

pub(crate) struct Halves;

impl<E, Z> Split<View<E, Z>> for Halves {
    ghost left = { keeps_rest };

    ghost right = { takes_half };
}

pub(crate) struct Both;

impl<E, Z> Join<View<E, Z>> for Both {
    ghost both = { joined };

    ghost spent = { spent };
}
