//! Slots: 4096 values modulo the plaintext modulus, of which a bin has five.
ghost use Rattle.std.specs.Prelude.{◌≡◌, ◌≤◌, ◌<◌, IfOk, length, replicate, slice_index, slice_set};
ghost use Rattle.psi_residue.specs.Numbers.{plain_modulus, ring_degree};
ghost use Rattle.psi_residue.specs.Polynomials.{IsPolynomial};
ghost use Rattle.psi_receiver.specs.Openings.{opened_slots};

use batching::unpack;
use bfv_core::{Ciphertext, SecretKey, decrypt};
use psi_residue::N;
use std::alloc::{AllocError, Global};
use std::marker::Model;

/// The bins of a row.
pub const BINS: usize = 819;

/// The parts of a bin, each with a slot: part j of bin b has slot 5·b + j.
pub const PARTS: usize = 5;

/// The values of 4096 slots, each below the plaintext modulus. They are seen as the list of them.
#[derive(Drop)]
pub struct Slots {
    values: Vec<u32>,
}

impl Model for Slots {
    ghost use Rattle.std.specs.Prelude.{List, ℕ};
    ghost use Rattle.psi_residue.specs.Numbers.{plain_modulus};
    ghost use Rattle.psi_residue.specs.Polynomials.{IsPolynomial};

    ghost Value = { List ℕ };

    ghost view = { λ s. s.values.items };

    ghost invariant = { λ s. IsPolynomial plain_modulus s.values.items };
}

impl Slots {
    /// Slots that all have one value.
    pub fn filled(alloc: Global, value: u32) -> Result<Slots, AllocError>
        requires { value < plain_modulus }
        ensures { IfOk result (λ slots. slots ≡ replicate ring_degree value) }
    {
        Ok(Slots {
            values: vec![in alloc; value; N]?,
        })
    }

    /// The slots of what a ciphertext opens to.
    pub fn opened(alloc: Global, key: &SecretKey, ct: &Ciphertext) -> Result<Slots, AllocError>
        ensures { IfOk result (λ slots. slots ≡ opened_slots key.now ct.now) }
    {
        let mut plain = [0; N];
        decrypt(key, ct, &mut plain);
        let mut values = vec![in alloc; 0; N]?;
        unpack(&plain, &mut values);
        Ok(Slots { values })
    }

    /// The value of a slot.
    pub fn value(&self, slot: usize) -> u32
        requires { slot < ring_degree }
        ensures value { result ≡ slice_index self.now slot }
        ensures below { result < plain_modulus }
    {
        self.values[slot]
    }

    /// Gives a slot another value.
    pub fn set(&mut self, slot: usize, value: u32)
        requires slot { slot < ring_degree }
        requires below { value < plain_modulus }
        ensures set { self.new ≡ slice_set self.old slot value }
    {
        self.values[slot] = value;
    }
}
