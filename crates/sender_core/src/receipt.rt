//! Receipts of caches that came back to a book.
ghost use Rattle.std.specs.Prelude.{◌≡◌};
ghost use Rattle.sender_core.specs.Tries.{job_of};

use crate::task::Task;
use std::marker::Model;

/// What a row has in place of the bundle that a cache is for.
#[derive(Clone, Copy, Debug, PartialEq, Eq)]
pub enum Now {
    /// The row has only so many bundles.
    Gone { len: u16 },
    /// The bundle at that index has this stamp.
    Stamp { stamp: u64 },
}

/// That a cache was brought back for a task's bundle, and what became of it. `Book::install` alone makes one. Clauses see
/// what its calls tell.
#[derive(Drop)]
pub struct Receipt {
    row: u8,
    index: u16,
    stamp: u64,
    entries: u64,
    other: Option<Now>,
}

impl Model for Receipt {
    ghost use Rattle.sender_core.specs.Tries.{Tried};

    ghost Value = { Tried };

    ghost view = { λ r. record { row = r.row; index = r.index; stamp = r.stamp; at = r.entries; instead = r.other } };
}

impl Receipt {
    /// The receipt of a task, at so many entries.
    pub(crate) fn of(task: &Task, entries: u64, other: Option<Now>) -> Receipt
        ensures { let job = job_of task.now in result
            ≡ record {
              row = job.row;
              index = job.index;
              stamp = job.stamp;
              at = entries;
              instead
                  = other;
            } }
    {
        Receipt {
            row: task.row,
            index: task.index,
            stamp: task.stamp,
            entries,
            other,
        }
    }

    /// The task's row.
    pub fn row(&self) -> u8
        ensures { result ≡ self.now.row }
    {
        self.row
    }

    /// The number of the task's bundle in its row.
    pub fn index(&self) -> u16
        ensures { result ≡ self.now.index }
    {
        self.index
    }

    /// The stamp of the task's bundle.
    pub fn stamp(&self) -> u64
        ensures { result ≡ self.now.stamp }
    {
        self.stamp
    }

    /// The book's number of entries when the cache was brought.
    pub fn at(&self) -> u64
        ensures { result ≡ self.now.at }
    {
        self.entries
    }

    /// What stood there in place of the task's bundle. None where the cache was put in.
    pub fn now(&self) -> Option<Now>
        ensures { result ≡ self.now.instead }
    {
        self.other
    }
}
