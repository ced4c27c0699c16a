//! What a book answers where caches are fetched and brought back.
use crate::receipt::Receipt;
use crate::snapshot::Snapshot;
use crate::task::Task;
use psi_bundle::Cached;

/// What became of a cache that was brought back.
#[derive(Drop)]
pub enum Install<C> {
    /// It stands beside its bundle now.
    Installed { receipt: Receipt },
    /// Its bundle stands there no longer; here is the cache.
    Stale { receipt: Receipt, cache: C },
}

/// A bundle without a cache, or all bundles where each one has a cache.
#[derive(Drop)]
pub enum Bare<C: Cached> {
    /// Each bundle has a cache. The snapshot's place is the number of entries now.
    All { shown: Snapshot<C> },
    /// A bundle that has none.
    One { task: Task },
}
