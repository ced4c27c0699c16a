use std::sync::Wait;
use std::thread::Threads;

/// The points of a run at which its threads pass a gate.
#[derive(Clone, Copy, Debug, PartialEq, Eq)]
pub enum Point {
    /// Before a request waits for its turn.
    BeforeTurn,
    /// After its turn is over.
    AfterTurn,
    /// Before its change is made.
    BeforeCommit,
    /// Before a builder puts its block in place.
    BeforeInstall,
}

/// What a thread passes at the points of a run. It changes nothing of what the run does: a test holds threads back
/// here, to see a chosen order of steps.
pub trait Gate: Sync {
    /// `index` is the request's number in its round, from 0. At `BeforeInstall` it is the builder's number.
    fn pass<R: Threads + Wait + Sync>(&self, rt: &R, point: Point, index: u32);
}

/// The gate that holds nothing back.
#[derive(Clone, Copy, Debug)]
pub struct Open;

impl Gate for Open {
    fn pass<R: Threads + Wait + Sync>(&self, _rt: &R, _point: Point, _index: u32) {}
}
