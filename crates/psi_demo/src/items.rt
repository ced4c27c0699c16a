//! The items of a number, their labels, and the seeds of the asks.
ghost use Rattle.std.specs.Prelude.{◌≡◌, ◌≤◌, ◌+◌, ◌*◌, ◌<◌, ◌^◌, ◌++◌, ◌∷◌, [], IfOk, OnOk};
ghost use Rattle.noise_ledger.specs.Verdicts.{ArePassed, parameters_of};
ghost use Rattle.psi_demo.specs.Items.{asked_tags, demo_parameters, demo_item, item_tag, demo_label, run, demo_seed};

use item_slots::{Tag, tag_of};
use noise_ledger::Params;
use sha2::{Digest, Sha256};
use std::alloc::{AllocError, Global};

/// The items that are put and never dropped, each of which is asked for: items 0, 8, 16, .., 296.
pub const STABLE: u32 = 38;

/// The step from one of these to the next.
pub const STEP: u32 = 8;

// The items that are asked for and never put: this one and those behind it.
const FIRST_STRANGER: u32 = 100000;

const STRANGERS: u32 = 22;

// The byte behind an item in what its label is the digest of.
const LABEL: u8 = 76;

/// The parameters of the demonstration: one row of bins, eight members in a bin, and labels of one unit. They are passed
/// ones.
pub fn demo_params() -> Params
    ensures parameters { parameters_of result ≡ demo_parameters }
    ensures passed { ArePassed (parameters_of result) }
{
    Params::of(1, 8, 1)
}

/// Item `i` of a number: the number in 8 bytes and `i` in 4, the highest first.
pub fn item(number: u64, i: u32) -> [u8; 12]
    ensures { result ≡ demo_item number i }
{
    let mut bytes = [0; 12];
    bytes[..8].copy_from_slice(&number.to_be_bytes());
    bytes[8..].copy_from_slice(&i.to_be_bytes());
    bytes
}

/// The label of item `i`: the first ten bytes of the SHA-256 of the item and the byte 76.
pub fn label(number: u64, i: u32) -> [u8; 10]
    ensures { result ≡ demo_label number i }
{
    let mut bytes = [LABEL; 13];
    bytes[..12].copy_from_slice(&item(number, i));
    let digest = Sha256::digest(&bytes);
    let mut label = [0; 10];
    label.copy_from_slice(&digest[..10]);
    label
}

/// The seed of an ask: the SHA-256 of the number in 8 bytes and the ask's number.
pub fn seed(number: u64, ask: u8) -> [u8; 32]
    ensures { result ≡ demo_seed number ask }
{
    let mut bytes = [ask; 9];
    bytes[..8].copy_from_slice(&number.to_be_bytes());
    Sha256::digest(&bytes)
}

/// The tags of the items that each ask asks for: the 38 stable ones, and 22 that are never put.
pub fn asked_tags(alloc: Global, number: u64) -> Result<Vec<Tag>, AllocError>
    ensures { IfOk result (λ tags. tags.items ≡ asked_tags number) }
{
    let mut tags = Vec::new(alloc);
    push_tags(&mut tags, number, 0, STEP, STABLE)?;
    push_tags(&mut tags, number, FIRST_STRANGER, 1, STRANGERS)?;
    Ok(tags)
}

// Appends the tags of the items first, first + step, first + 2 · step and so on, so many of them.
fn push_tags(
    tags: &mut Vec<Tag>,
    number: u64,
    first: u32,
    step: u32,
    count: u32,
) -> Result<(), AllocError>
    requires { first + step * count < 2 ^ 32 }
    ensures { OnOk result (tags.new.items ≡ tags.old.items
        ++ run (item_tag number) first step count) }
{
    for k in 0..count {
        push_tag(tags, number, first + step * k)?;
    }
    Ok(())
}

// Appends the tag of item `i`.
fn push_tag(tags: &mut Vec<Tag>, number: u64, i: u32) -> Result<(), AllocError>
    ensures { OnOk result (tags.new.items ≡ tags.old.items ++ item_tag number i ∷ []) }
{
    tags.push(tag_of(&item(number, i)))?;
    Ok(())
}
