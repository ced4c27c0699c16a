//! Opened ciphertexts.
ghost use Rattle.std.specs.Prelude.{◌≡◌, ◌<◌, IfOk, length, map, slice_index};
ghost use Rattle.std.specs.List.{range_with_len};
ghost use Rattle.psi_residue.specs.Numbers.{plain_modulus, ring_degree};
ghost use Rattle.item_slots.specs.Tags.{bins_of_row};
ghost use Rattle.psi_receiver.specs.Openings.{is_zero_in, opened_slots};

use crate::slots::{BINS, PARTS, Slots};
use bfv_core::{Ciphertext, SecretKey};
use std::alloc::{AllocError, Global};
use std::marker::Model;

/// What a ciphertext opens to: its slots, and of each bin whether its five slots are 0, so that an item is looked up in one
/// byte of a plane. It is seen as the list of its slots.
#[derive(Drop)]
pub struct Plane {
    slots: Slots,
    zeros: Vec<bool>,
}

impl Model for Plane {
    ghost use Rattle.std.specs.Prelude.{List, ◌≡◌, ℕ, map};
    ghost use Rattle.std.specs.List.{range_with_len};
    ghost use Rattle.item_slots.specs.Tags.{bins_of_row};
    ghost use Rattle.psi_receiver.specs.Openings.{is_zero_in};

    ghost Value = { List ℕ };

    ghost view = { λ p. p.slots };

    ghost invariant = { λ p. p.zeros.items ≡ map (is_zero_in p.slots) (range_with_len 0 bins_of_row) };
}

impl Plane {
    /// What a ciphertext opens to.
    pub fn opened(alloc: Global, key: &SecretKey, ct: &Ciphertext) -> Result<Plane, AllocError>
        ensures { IfOk result (λ plane. plane ≡ opened_slots key.now ct.now) }
    {
        let slots = Slots::opened(alloc, key, ct)?;
        let zeros = zero_bins(alloc, &slots)?;
        Ok(Plane { slots, zeros })
    }

    /// The value of a slot.
    pub fn value(&self, slot: usize) -> u32
        requires { slot < ring_degree }
        ensures value { result ≡ slice_index self.now slot }
        ensures below { result < plain_modulus }
    {
        self.slots.value(slot)
    }

    /// Whether the five slots of a bin are 0.
    pub fn is_zero(&self, bin: usize) -> bool
        requires { bin < bins_of_row }
        ensures { result ≡ is_zero_in self.now bin }
    {
        self.zeros[bin]
    }
}

// Of each bin whether its five slots are 0.
fn zero_bins(alloc: Global, slots: &Slots) -> Result<Vec<bool>, AllocError>
    ensures { IfOk result (λ zeros. zeros.items ≡ map (is_zero_in slots.now)
        (range_with_len 0 bins_of_row)) }
{
    let mut zeros = Vec::with_capacity(alloc, BINS)?;
    for bin in 0..BINS {
        zeros.push(is_zero(slots, bin))?;
    }
    Ok(zeros)
}

// Whether the five slots of a bin are 0.
fn is_zero(slots: &Slots, bin: usize) -> bool
    requires { bin < bins_of_row }
    ensures { result ≡ is_zero_in slots.now bin }
{
    for part in 0..PARTS {
        if slots.value(PARTS * bin + part) != 0 {
            return false;
        }
    }
    true
}
