//! One set, whose rounds are answered from its book.
ghost use Rattle.std.specs.Prelude.{◌≡◌, ◌≤◌, [], length, IfOk, Some};
ghost use Rattle.std.specs.List.{All};
ghost use Rattle.noise_ledger.specs.Verdicts.{parameters_of};
ghost use Rattle.psi_frames.specs.Requests.{IsFit, asks_of_round, count_asks};
ghost use Rattle.psi_serve.specs.Books.{IsOwnBook};
ghost use Rattle.psi_serve.specs.Rounds.{HasAnsweredRound, HasToldRound, IsAsked};
ghost use Rattle.psi_serve.specs.Serving.{HasServedFrom, SetKind, kind_of, one_set};

use bundle_cache::Cache;
use noise_ledger::Params;
use psi_frames::{Frame, OpenRound, Reply, Request, addresses_of, requests_of_round, text_of};
use query_pool::{Answered, Round, Server};
use sender_core::Book;
use std::alloc::{AllocError, Global};

/// One set: its book, what answers a round of it, and the round that has begun. Where memory ran out, the book is given up.
#[derive(Drop)]
pub struct OneSet<F> {
    pub round: F,
    pub alone: bool,
    pub book: Option<Book<Cache>>,
    pub waiting: OpenRound,
}

impl<F: Fn(Book<Cache>, Vec<Request>) -> Result<Round, AllocError> + Drop> OneSet<F> {
    /// A set of which no round is answered yet, by what answers one round; alone: as one lane does.
    pub fn new(alloc: Global, book: Book<Cache>, alone: bool, round: F) -> OneSet<F>
        ensures round { result.round ≡ round }
        ensures alone { result.alone ≡ alone }
        ensures book { result.book ≡ Some book }
        ensures waiting { result.waiting ≡ [] }
    {
        OneSet {
            round,
            alone,
            book: Some(book),
            waiting: OpenRound::new(alloc),
        }
    }

    // Answers requests from the book, which is given up where memory runs out.
    fn replies_to(
        &mut self,
        params: &Params,
        requests: Vec<Request>,
    ) -> Result<Vec<Reply>, AllocError>
        requires ready { (book : _) (requests : _)
            → IsAsked (parameters_of params.now) book requests.items
            → F.pre self.old.round book requests }
        requires answers { (book : _) (requests : _) (result : _)
            → F.post self.old.round book requests result
            → IfOk result (λ round. HasAnsweredRound (parameters_of params.now) self.old.alone book
            round.book requests.items round.replies.items) }
        requires own { IsOwnBook (parameters_of params.now) self.old.book }
        requires few { length requests.items ≤ 4096 }
        requires asks { count_asks requests.items ≤ asks_of_round }
        requires fit { All (IsFit (parameters_of params.now)) requests.items }
        ensures told { IfOk result (λ replies.
            HasToldRound (parameters_of params.now) self.old.alone self.old.book self.new.book
            requests.items replies.items) }
        ensures round { self.new.round ≡ self.old.round }
        ensures alone { self.new.alone ≡ self.old.alone }
        ensures waiting { self.new.waiting ≡ self.old.waiting }
    {
        match self.book.take() {
            Some(book) => {
                let round = (self.round)(book, requests)?;
                self.book = Some(round.book);
                Ok(round.replies)
            }
            None => Err(AllocError),
        }
    }
}

impl<F: Fn(Book<Cache>, Vec<Request>) -> Result<Round, AllocError> + Drop> Server for OneSet<F> {
    ghost Kind = { SetKind };

    ghost kind = { λ s. kind_of s.alone s.book };

    ghost rule = { λ kind. one_set kind };

    // Whatever round is asked of a book with these parameters, it may be asked, and is answered.
    ghost is_under = { λ s p. ((book : _) (requests : _) → IsAsked p book requests.items → F.pre s.round book requests)
        × ((book : _) (requests : _) (result : _) → F.post s.round book requests result
        → IfOk result (λ round. HasAnsweredRound p s.alone book round.book requests.items round.replies.items))
        × IsOwnBook p s.book };

    ghost state = { λ s rounds sents waiting. (s.waiting ≡ waiting) × HasServedFrom s.alone s.book rounds sents };

    fn push(&mut self, frame: Frame) -> Result<(), AllocError> {
        self.waiting.push(frame)?;
        Ok(())
    }

    fn is_ended(&self) -> bool {
        self.waiting.is_full()
    }

    fn is_empty(&self) -> bool {
        self.waiting.is_empty()
    }

    fn answer(&mut self, alloc: Global, params: &Params) -> Result<Answered, AllocError> {
        let frames = self.waiting.take(alloc);
        let requests = requests_of_round(alloc, params, 0, frames)?;
        let addresses = addresses_of(alloc, &requests)?;
        let replies = self.replies_to(params, requests)?;
        let text = text_of(alloc, &addresses, &replies)?;
        Ok(Answered {
            text,
            replies: replies.len() as u64,
        })
    }

    fn entries(&self) -> u64 {
        match &self.book {
            Some(book) => book.count(),
            None => 0,
        }
    }
}
