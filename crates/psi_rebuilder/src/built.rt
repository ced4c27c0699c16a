//! What a builder leaves.
use bundle_cache::Cache;
use sender_core::{Receipt, Snapshot};

/// What a builder leaves: a receipt for each cache that it built and brought, in their order, and all bundles where the last
/// fetch found that each has a cache.
#[derive(Drop)]
pub struct Built {
    /// The receipts.
    pub receipts: Vec<Receipt>,
    /// All bundles with their caches. None where the budget was used up before each bundle had one.
    pub all: Option<Snapshot<Cache>>,
}
