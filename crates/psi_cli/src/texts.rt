//! The lines that commands write.
ghost use Rattle.std.specs.Prelude.{◌≡◌, ◌∷◌, ◌++◌, codes, IfOk, OnOk, string_bytes, map};
ghost use Rattle.std.specs.Fmt.{decimal};
ghost use Rattle.psi_cli.specs.Texts.{crowded_line, crowded_text, found_line, found_text, newline, number_line, numbers_line, shown_bytes, shown_item};

use psi_receiver::Found;
use std::alloc::{AllocError, Global};
use std::fmt::Write;

/// Appends a line with a word and a number in decimal.
#[tactic(auto, unfolding(crate::specs::Texts::number_line))]
pub(crate) fn push_number(text: &mut String, name: &str, number: u128) -> Result<(), AllocError>
    ensures { OnOk result (string_bytes text.new ≡ string_bytes text.old
        ++ number_line name.now number) }
{
    writeln!(text, "{name} {number}")
}

/// Appends a line with a word and two numbers in decimal.
#[tactic(auto, unfolding(crate::specs::Texts::numbers_line))]
pub(crate) fn push_numbers(
    text: &mut String,
    name: &str,
    first: u32,
    second: u32,
) -> Result<(), AllocError>
    ensures { OnOk result (string_bytes text.new ≡ string_bytes text.old
        ++ numbers_line name.now first second) }
{
    writeln!(text, "{name} {first} {second}")
}

/// The text of crowded items, by their numbers: a line each.
pub(crate) fn crowded_text(
    alloc: Global,
    items: &[Vec<u8>],
    numbers: &[u32],
) -> Result<String, AllocError>
    ensures { IfOk result (λ text. string_bytes text
        ≡ crowded_text (map (λ item. item.items) items.now) numbers.now) }
{
    let mut text = String::new(alloc);
    for number in numbers {
        let item = shown_item(alloc, items, *number)?;
        push_crowded(&mut text, item.as_str())?;
    }
    Ok(text)
}

// Appends the line of a crowded item.
fn push_crowded(text: &mut String, item: &str) -> Result<(), AllocError>
    ensures { OnOk result (string_bytes text.new ≡ string_bytes text.old ++ codes "crowded "
        ++ item.now ++ newline) }
{
    writeln!(text, "crowded {item}")
}

/// The text of found items: a line each.
pub(crate) fn found_text(
    alloc: Global,
    items: &[Vec<u8>],
    found: &[Found],
) -> Result<String, AllocError>
    ensures { IfOk result (λ text. string_bytes text
        ≡ found_text (map (λ item. item.items) items.now) found.now) }
{
    let mut text = String::new(alloc);
    for one in found {
        let item = shown_item(alloc, items, one.item)?;
        let label = shown(alloc, one.label.bytes())?;
        push_found(&mut text, item.as_str(), one.bundle, label.as_str())?;
    }
    Ok(text)
}

// Appends the line of a found item.
fn push_found(text: &mut String, item: &str, bundle: u16, label: &str) -> Result<(), AllocError>
    ensures { OnOk result (string_bytes text.new ≡ string_bytes text.old ++ item.now
        ++ 32 ∷ decimal bundle ++ 32 ∷ label.now ++ newline) }
{
    writeln!(text, "{item} {bundle} {label}")
}

// An item by its number.
fn shown_item(alloc: Global, items: &[Vec<u8>], number: u32) -> Result<String, AllocError>
    ensures { IfOk result (λ text. string_bytes text
        ≡ shown_item (map (λ item. item.items) items.now) number) }
{
    match items.get(number as usize) {
        Some(item) => shown(alloc, item),
        None => shown(alloc, &[]),
    }
}

// Bytes in lower-case hexadecimal, and a dash for none.
fn shown(alloc: Global, bytes: &[u8]) -> Result<String, AllocError>
    ensures { IfOk result (λ text. string_bytes text ≡ shown_bytes bytes.now) }
{
    if bytes.is_empty() {
        String::from_str(alloc, "-")
    } else {
        hex::encode(alloc, bytes)
    }
}
