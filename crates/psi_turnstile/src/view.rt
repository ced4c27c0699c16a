//! What a seat knows. No value of these types is made: they are for clauses and proofs.
use std::collections::LinkedList;

/// Where a seat stands in the line: away, waiting with a ticket, at its turn, or inside with the value.
pub enum Stage {
    Away,
    Waits(u64),
    Ahead(u64),
    Inside(u64),
}

/// What a seat knows.
pub struct View<E, Z> {
    /// The turnstile's base. Every seat has one.
    pub base: Option<Z>,
    /// The length of the history at the opening.
    pub opening: u64,
    /// The beginning of the history that the seat has seen.
    pub seen: LinkedList<E>,
    /// What joins brought to the seat since it last looked.
    pub taken: LinkedList<LinkedList<E>>,
    /// The places of the entries that the seat made.
    pub own: LinkedList<u64>,
    /// Its part of 2^32.
    pub share: u64,
    pub stage: Stage,
}
