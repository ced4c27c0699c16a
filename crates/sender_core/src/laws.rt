//! Laws of the steps of a set, and of a book's events.
ghost use Rattle.sender_core.specs.Soundness.{BooksKeepBytes, EmptyHoldsBytes, EmptyIsSound, HistoriesKeepBytes, HistoriesKeepSetsSound, StepsKeepSetsSound};
ghost use Rattle.sender_core.specs.Events.{EmptyIsFirst, Interleaved, NumbersInterleaved};
ghost use Rattle.sender_core.specs.Stamps.{EqualStampsMeanEqualBundles, RowsStand, StampsTell};

use psi_bundle::Cached;

/// An empty set is sound, each step of a sound set leaves a sound set, and so each version of its history is
/// sound, from whatever sound version it starts. A Put's label has the length of the set's labels. It does nothing:
/// the clauses are what it is for.
pub fn steps_keep_sets_sound()
    ensures begins { EmptyIsSound }
    ensures goes_on { StepsKeepSetsSound }
    ensures through { HistoriesKeepSetsSound }
{}

/// The tags and labels of an empty set are bytes, and from whatever version that has such tags and labels a history
/// starts whose calls have such ones, those of each of its versions are bytes. It does nothing: the clauses are what
/// it is for.
pub fn histories_keep_bytes()
    ensures begins { EmptyHoldsBytes }
    ensures through { HistoriesKeepBytes }
{}

/// Of every book: each version of its history is sound, and its tags and labels are bytes, which are facts of its type
/// (`count` tells them, as `IsConsistent`). So these premises of the receiver's laws hold wherever there is a book. It does
/// nothing: the clause is what it is for.
pub fn books_keep_bytes<C: Cached>()
    ensures { BooksKeepBytes C.contents C.is_under }
{}

/// What stamps tell of every history from a start whose stamps are all 0: a bundle stood where it stands after as many entries
/// as its stamp says; a row without a later stamp is as it was, or is empty; and equal stamps at one row and index are
/// on equal bundles. It does nothing: the clauses are what it is for.
pub fn stamps_tell()
    ensures told { StampsTell }
    ensures stand { RowsStand }
    ensures equal { EqualStampsMeanEqualBundles }
{}

/// Whatever is put, dropped, asked, fetched, committed, installed and used, in whatever order: from a book without entries
/// and caches, whose start is sound and has only stamps 0, the journal is legal from the start and replays to the version;
/// each snapshot that is used shows exactly the bundles of the replay of as many entries as its place says; and each cache
/// is for its bundle. Caches are numbers here, whatever each one is for. It does nothing: the clauses are what it is for.
pub fn interleaved()
    ensures begins { EmptyIsFirst }
    ensures through { NumbersInterleaved }
{}

/// The same for any type of caches. It does nothing: the clause is what it is for.
pub fn interleaved_with<C: Cached>()
    ensures { Interleaved C.contents C.is_under }
{}
