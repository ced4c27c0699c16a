//! What every book of a sender has in common.
ghost use Rattle.psi_residue.specs.Parameters.{Parameters};
ghost use Rattle.sender_core.specs.Kept.{BookStart};
ghost use base.Fml.{ftrue};

use std::marker::Model;

/// A book's parameters, and the start of its history. No value of it is made: it is for clauses and proofs.
pub struct Origin {
    pub ghost parameters: { Parameters },
    pub ghost start: { BookStart },
}

impl Model for Origin {
    ghost also_owns = { λ _. ftrue };
}
