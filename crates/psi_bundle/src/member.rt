//! A tag with its label.
use crate::label::Label;
use item_slots::Tag;

/// What stands in a bin: a tag, and the label that the sender gives with it.
#[derive(Clone, Copy, Drop)]
pub struct Member {
    /// The item's tag.
    pub tag: Tag,
    /// Its label, of `10·units` bytes in a set with so many label units.
    pub label: Label,
}
