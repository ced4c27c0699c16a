//! The items of a text.
ghost use Rattle.std.specs.Prelude.{◌≡◌, ◌+◌, ◌<◌, ◌≤◌, ◌==◌, ◌∷◌, [], ◌++◌, length, map, IfOk, OnOk};
ghost use Rattle.std.specs.List.{position};
ghost use Rattle.std.specs.Str.Lines.{strip_carriage_return};
ghost use Rattle.psi_cli.specs.ItemTexts.{item_lines, items_of};

use std::alloc::{AllocError, Global};
use std::collections::BTreeSet;

/// The items of a text, a line each: a line ends with the byte 10, and one byte 13 before that is taken off. What stands
/// behind the last such byte is a line where it is not empty. A line that an earlier one equals is left out.
pub(crate) fn items_of(alloc: Global, text: &[u8]) -> Result<Vec<Vec<u8>>, AllocError>
    ensures items { IfOk result (λ items. map (λ item. item.items) items.items
        ≡ items_of text.now) }
    ensures few { IfOk result (λ items. length items.items ≤ length text.now) }
{
    let mut items = Vec::new(alloc);
    let mut seen = BTreeSet::new(alloc);
    let mut rest = text;
    while !rest.is_empty() {
        let (line, behind) = first_line(rest);
        if seen.insert(line)? {
            add(alloc, &mut items, line)?;
        }
        rest = behind;
    }
    Ok(items)
}

// Appends an item to a list.
fn add(alloc: Global, items: &mut Vec<Vec<u8>>, item: &[u8]) -> Result<(), AllocError>
    ensures added { OnOk result (map (λ item. item.items) items.new.items
        ≡ map (λ item. item.items) items.old.items ++ item.now ∷ []) }
    ensures one_more { OnOk result (length items.new.items ≡ length items.old.items + 1) }
{
    items.push(Vec::from_slice(alloc, item)?)?;
    Ok(())
}

// The first line of a text that is not empty, and what stands behind its end.
fn first_line(text: &[u8]) -> (&[u8], &[u8])
    requires some { 0 < length text.now }
    ensures lines { item_lines text.now ≡ result.0.now ∷ item_lines result.1.now }
    ensures shorter { length result.1.now < length text.now }
{
    match line_end(text) {
        Some(end) => (line_of(&text[..end]), &text[end + 1..]),
        None => (line_of(text), &[]),
    }
}

// The place of the first byte 10.
fn line_end(text: &[u8]) -> Option<usize>
    ensures { result ≡ position (λ b. b == 10) text.now }
{
    text.iter().position(|byte| *byte == 10)
}

// A line without one byte 13 at its end.
fn line_of(part: &[u8]) -> &[u8]
    ensures { result.now ≡ strip_carriage_return part.now }
{
    match part.split_last() {
        Some((13, front)) => front,
        _ => part,
    }
}
