//! What is found.
use psi_bundle::Label;

/// An item that is found in a bundle.
#[derive(Clone, Copy, Drop)]
pub struct Found {
    /// The number of the item, counted from 0 in the list that was asked for.
    pub item: u32,
    /// The number of the bundle among those of its row.
    pub bundle: u16,
    /// The label that the bundle gives, of `10·units` bytes.
    pub label: Label,
}
