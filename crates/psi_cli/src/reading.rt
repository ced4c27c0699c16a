//! Reading items from a source.
ghost use Rattle.std.specs.Prelude.{◌≡◌, ◌<◌, ◌≤◌, ◌^◌, nat_le, map, length, IfOk, OnOk, IfErr, IfSome};
ghost use Rattle.std.specs.List.{list_all};
ghost use Rattle.item_slots.specs.Tags.{tag_of};
ghost use Rattle.psi_cli.specs.ItemTexts.{IsItemText, items_of, most_item, most_item_text};
ghost use Rattle.psi_cli.specs.Reading.{HasNoItems, IsEnded, IsNoItemText, IsReadWithin};

use crate::items::items_of;
use crate::status::Status;
use item_slots::{Tag, tag_of};
use psi_outside::{ReadFault, Source, read_all};
use std::alloc::{AllocError, Global};

// The most bytes of a text of items, and of an item.
const MOST_TEXT: usize = 1048576;

const MOST_ITEM: usize = 255;

/// The items of the text that a source has left. The text has at most 2^20 bytes and each item at most 255, else it is a
/// bad input. A text that is too long is refused with the piece that goes past its limit, and not read further.
pub(crate) fn read_items<S: Source>(alloc: Global, input: &mut S) -> Result<Vec<Vec<u8>>, Status>
    ensures items { IfOk result (λ items. IfSome (S.told input.old).left (λ bytes.
        map (λ item. item.items) items.items ≡ items_of bytes)) }
    ensures text { OnOk result (IfSome (S.told input.old).left IsItemText) }
    ensures few { IfOk result (λ items. length items.items < 2 ^ 32) }
    ensures ended { OnOk result (IsEnded (S.told input.old) (S.told input.new)) }
    ensures within { OnOk result (IsReadWithin most_item_text (S.told input.old)
        (S.told input.new)) }
    ensures no_read_failed { OnOk result ((S.told input.new).faults ≡ (S.told input.old).faults) }
    ensures fault { IfErr result (HasNoItems (S.told input.old) (S.told input.new)) }
{
    match read_all(alloc, input, MOST_TEXT) {
        Ok(text) => short_items(alloc, &text),
        Err(ReadFault::Failed) => Err(Status::ReadFault),
        Err(ReadFault::TooLong) => Err(Status::BadInput),
        Err(ReadFault::NoMemory) => Err(Status::NoMemory),
    }
}

// The items of a text, if each has at most 255 bytes.
fn short_items(alloc: Global, text: &[u8]) -> Result<Vec<Vec<u8>>, Status>
    requires few { length text.now ≤ 2 ^ 20 }
    ensures items { IfOk result (λ items. map (λ item. item.items) items.items
        ≡ items_of text.now) }
    ensures text { OnOk result (IsItemText text.now) }
    ensures few { IfOk result (λ items. length items.items < 2 ^ 32) }
    ensures fault { IfErr result (IsNoItemText text.now) }
{
    let items = items_of(alloc, text)?;
    if are_short(&items) {
        Ok(items)
    } else {
        Err(Status::BadInput)
    }
}

// Whether each item has at most 255 bytes.
fn are_short(items: &[Vec<u8>]) -> bool
    ensures { result ≡ list_all (λ item. nat_le (length item.items) most_item) items.now }
{
    items.iter().all(|item| item.len() <= MOST_ITEM)
}

/// The tags of items.
pub(crate) fn tags_of(alloc: Global, items: &[Vec<u8>]) -> Result<Vec<Tag>, AllocError>
    ensures { IfOk result (λ tags. tags.items ≡ map (λ item. tag_of item.items) items.now) }
{
    items.iter().map(|item| tag_of(item)).collect(alloc)
}
