//! What answers rounds of frames.
ghost use Rattle.std.specs.Prelude.{◌≡◌, List, [], ◌∷◌, ◌++◌, IfOk, OnOk, length, nat_eq};
ghost use Rattle.noise_ledger.specs.Verdicts.{ArePassed, parameters_of};
ghost use Rattle.psi_residue.specs.Parameters.{Parameters};
ghost use Rattle.psi_frames.specs.declared.frame.Frame.{Frame};
ghost use Rattle.psi_frames.specs.Served.{Sent};
ghost use Rattle.query_pool.specs.Servers.{AnswersFrames, IsRoundReady};
ghost use Rattle.query_pool.specs.Serving.{Rule, entries_of};

use noise_ledger::Params;
use psi_frames::Frame;
use std::alloc::{AllocError, Global};

/// The replies to a round.
#[derive(Drop)]
pub struct Answered {
    /// Their frames, one after another.
    pub text: Vec<u8>,
    /// How many there are.
    pub replies: u64,
}

/// What answers rounds of frames, one after another. It says itself which frames end a round.
///
/// A server that found no memory for a round answers no round any more.
pub trait Server {
    /// What its rule is told by.
    ghost Kind: { Type 0 };

    /// Its own kind, which stays as it is.
    ghost kind: { Self → Kind };

    /// Which frames end a round, and which replies serve which rounds.
    ghost rule: { Kind → Rule };

    /// It can be asked under these parameters.
    ghost is_under: { Self → Parameters → Type 0 };

    /// It has answered these rounds by these replies, and these frames wait.
    ghost state: { Self → List (List Frame) → List Sent → List Frame → Type 0 };

    /// Takes a frame behind those that wait.
    fn push(&mut self, frame: Frame) -> Result<(), AllocError>
        ensures pushed { OnOk result ((rounds : List (List Frame)) (sents : List Sent)
            (waiting : List Frame)
            → state self.old rounds sents waiting
            → state self.new rounds sents (waiting ++ frame ∷ [])) }
        ensures under { OnOk result ((p : Parameters) → is_under self.old p → is_under self.new p) }
        ensures kind { OnOk result (kind self.new ≡ kind self.old) };

    /// Whether the last of the frames that wait ends their round.
    fn is_ended(&self) -> bool
        ensures { (rounds : List (List Frame)) (sents : List Sent) (waiting : List Frame)
            → state self.now rounds sents waiting
            → (rule (kind self.now)).ends rounds waiting ≡ result };

    /// Whether no frame waits.
    fn is_empty(&self) -> bool
        ensures { (rounds : List (List Frame)) (sents : List Sent) (waiting : List Frame)
            → state self.now rounds sents waiting → nat_eq (length waiting) 0 ≡ result };

    /// Answers the round of the frames that wait, with at most one reply for each.
    fn answer(&mut self, alloc: Global, params: &Params) -> Result<Answered, AllocError>
        requires passed { ArePassed (parameters_of params.now) }
        requires under { is_under self.old (parameters_of params.now) }
        requires round { IsRoundReady (rule (kind self.old)) (state self.old) }
        ensures answers { IfOk result (λ answered.
            AnswersFrames (rule (kind self.old)) (state self.old) (state self.new)
            answered.text.items answered.replies) }
        ensures under { OnOk result (is_under self.new (parameters_of params.now)) }
        ensures kind { OnOk result (kind self.new ≡ kind self.old) };

    /// How many entries its replies have made.
    fn entries(&self) -> u64
        ensures { (rounds : List (List Frame)) (sents : List Sent) (waiting : List Frame)
            → state self.now rounds sents waiting → result ≡ entries_of sents };
}
