//! What words ask of several threads.
ghost use Rattle.std.specs.Prelude.{IfSome, IsNone};
ghost use Rattle.psi_cli.specs.Inner.Threads.{AsksNoThreads, AsksThreads, IsAllowed};
ghost use Rattle.psi_cli.specs.Kinds.{kind_by};

use crate::params::word_parameters;
use noise_ledger::Params;
use psi_words::{Command, read_words};
use query_pool::Shape;
use std::alloc::Global;

/// What words may ask of several threads.
#[derive(Clone, Copy)]
pub enum Threaded {
    /// The rounds of the input, answered by workers and builders.
    Serve {
        /// The parameters of the set.
        params: Params,
        /// How many workers and builders.
        shape: Shape,
    },
    /// The demonstration.
    Demo {
        /// The number from which the script is made.
        number: u64,
        /// How many workers.
        workers: u8,
    },
}

/// What the words ask of several threads, if they ask for `serve` or `demo`. There are 1 to 8 workers and at most 4 builders.
pub(crate) fn threaded_by(alloc: Global, words: &[String]) -> Option<Threaded>
    ensures asked { IfSome result (AsksThreads (kind_by words.now)) }
    ensures allowed { IfSome result IsAllowed }
    ensures other { IsNone result → AsksNoThreads (kind_by words.now) }
{
    match read_words(alloc, words) {
        Ok(
            Command::Serve {
                rows,
                capacity,
                units,
                drop,
                counted,
                workers,
                builders,
            },
        ) => Some(Threaded::Serve {
            params: word_parameters(rows, capacity, units, drop, counted),
            shape: Shape { workers, builders },
        }),
        Ok(Command::Demo { number, workers }) => Some(Threaded::Demo { number, workers }),
        _ => None,
    }
}
