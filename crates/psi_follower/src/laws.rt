//! What is true of every follower of a history.
ghost use Rattle.psi_follower.specs.Replicas.{Replicas};

/// A follower that is fed segments of one legal history is never told that an entry differs, and each query that it answers is
/// answered from a prefix of the history that is at least as long as its floor and as every earlier answer's prefix. It does
/// nothing: the clause is what it is for.
pub fn replicas()
    ensures { Replicas }
{}
