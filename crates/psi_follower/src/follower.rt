//! The follower.
ghost use Rattle.std.specs.Prelude.{◌≡◌, ◌≤◌, ◌+◌, ◌^◌, [], length, IfOk};
ghost use Rattle.std.specs.List.{All};
ghost use Rattle.noise_ledger.specs.Verdicts.{ArePassed, ciphertexts_of, parameters_of};
ghost use Rattle.psi_bundle.specs.Versions.{empty_version};
ghost use Rattle.psi_follower.specs.Taking.{FollowerOf, IsFed, IsOfSet};
ghost use Rattle.psi_follower.specs.Answering.{IsAnswered};

use crate::answering::evaluated;
use crate::taking::take_each;
use bundle_cache::Cache;
use noise_ledger::Params;
use psi_bundle::Entry;
use psi_frames::Body;
use query_codec::Ciphertext;
use sender_core::{Book, Placed};
use std::alloc::{AllocError, Global};
use std::marker::Model;
use std::thread::Threads;

/// Why entries were not taken.
#[derive(Clone, Copy, Debug, PartialEq, Eq)]
pub enum FeedFault {
    /// They begin behind the entries that the follower has, so many. Nothing changed.
    Gap { have: u64 },
    /// The entry at this place is another than the one that is kept there, or its answer is not the set's.
    Differs { place: u64 },
    /// There was no memory.
    NoMemory,
}

/// Why a query was not answered.
#[derive(Clone, Copy, Debug, PartialEq, Eq)]
pub enum AnswerFault {
    /// The follower has fewer entries than the query's floor, so many.
    Behind { have: u64 },
    /// There was no memory.
    NoMemory,
}

/// A replica of a set: its parameters and the entries that it has. Clauses see these two.
#[derive(Drop)]
pub struct Follower {
    params: Params,
    book: Book<Cache>,
}

impl Model for Follower {
    ghost use Rattle.std.specs.Prelude.{◌≡◌};
    ghost use Rattle.noise_ledger.specs.Verdicts.{ArePassed, parameters_of};
    ghost use Rattle.psi_bundle.specs.Versions.{empty_version};
    ghost use Rattle.sender_core.specs.Kept.{start_of};
    ghost use Rattle.psi_follower.specs.Taking.{FollowerOf};

    ghost Value = { FollowerOf };

    ghost view = { λ f. record { parameters = parameters_of f.params; entries = f.book.journal } };

    ghost invariant = { λ f. ArePassed (parameters_of f.params)
        × (f.book.parameters ≡ parameters_of f.params)
        × (start_of f.book ≡ empty_version (parameters_of f.params)) };
}

impl Follower {
    /// A follower of a set with these parameters that has no entries. Condition: the parameters pass `check` of the crate
    /// `noise_ledger`.
    ///
    /// # Errors
    ///
    /// If memory runs out.
    pub fn open<R: Threads + Sync>(
        _rt: &R,
        alloc: Global,
        params: &Params,
    ) -> Result<Follower, AllocError>
        requires { ArePassed (parameters_of params.now) }
        ensures { IfOk result (λ follower. follower
            ≡ record { parameters = parameters_of params.now; entries = [] }) }
    {
        let book = Book::open(alloc, params)?;
        Ok(Follower {
            params: *params,
            book,
        })
    }

    /// The number of entries that it has.
    pub fn have(&self) -> u64
        ensures { result ≡ length self.now.entries }
    {
        self.book.count()
    }

    /// Takes entries of the leader's history, the first of which stands at place `first`, and tells how many the follower has
    /// then. Conditions: `first` and their number make at most 2^20, the label of each Put has `10·units` bytes, and the
    /// row of each Repack is below the parameters' rows.
    ///
    /// # Errors
    ///
    /// `Gap` comes exactly where `first` is above the number of entries that it has; then nothing changed. `Differs` comes
    /// exactly where an entry is another than the one that is kept at its place, or is the next one and its answer is not the
    /// set's, with the first such place; `NoMemory` where memory runs out. After these two the entries before the refused one
    /// are kept.
    pub fn feed(&mut self, alloc: Global, first: u64, entries: &[Entry]) -> Result<u64, FeedFault>
        requires few { first + length entries.now ≤ 2 ^ 20 }
        requires of_set { All (IsOfSet self.old.parameters) entries.now }
        ensures fed { IsFed (empty_version self.old.parameters) self.old.entries first
            entries.now result self.new.entries }
        ensures parameters { self.new.parameters ≡ self.old.parameters }
    {
        let have = self.book.count();
        if first > have {
            return Err(FeedFault::Gap { have });
        }
        take_each(alloc, &self.params, &mut self.book, first, entries)?;
        Ok(self.book.count())
    }

    /// Answers a query from the set that the entries lead to: its reply body, with the number of entries as the place. No
    /// entry is added. Caches that were built for it stay for later answers, where their bundle does not change. Condition:
    /// `rows·capacity` ciphertexts.
    ///
    /// # Errors
    ///
    /// `Behind` comes exactly where the follower has fewer entries than the floor; `NoMemory` where memory runs out.
    pub fn answer<R: Threads + Sync>(
        &mut self,
        rt: &R,
        alloc: Global,
        floor: u64,
        query: Vec<Ciphertext>,
    ) -> Result<Placed<Body>, AnswerFault>
        requires { length query.items ≡ ciphertexts_of self.old.parameters }
        ensures answered { IsAnswered self.old.parameters self.old.entries floor query.items result }
        ensures kept { self.new ≡ self.old }
    {
        let place = self.book.count();
        if place < floor {
            return Err(AnswerFault::Behind { have: place });
        }
        match evaluated(rt, alloc, &self.params, &mut self.book, query) {
            Ok(answer) => Ok(Placed { answer, place }),
            Err(_) => Err(AnswerFault::NoMemory),
        }
    }
}
