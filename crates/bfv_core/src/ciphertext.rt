//! Ciphertexts as lists of residues.
ghost use Rattle.std.specs.Prelude.{◌≡◌, ◌<◌, ◌∷◌, [], IfOk, slice_set};
ghost use Rattle.psi_residue.specs.Numbers.{first_modulus, modulus_of, second_modulus};
ghost use Rattle.psi_residue.specs.Polynomials.{IsPolynomial};
ghost use Rattle.psi_residue.specs.Ciphertexts.{IsCiphertext, list_at, list_modulus};
ghost use Rattle.bfv_core.specs.EncryptedLists.{zero_lists};

use psi_residue::{Modulus, N};
use std::alloc::{AllocError, Global};
use std::marker::Model;

/// A ciphertext (c0, c1), two polynomials modulo the ciphertext modulus. It is seen as four lists of residues: 0 is c0
/// modulo `Q1`, 1 is c0 modulo `Q2`, 2 is c1 modulo `Q1` and 3 is c1 modulo `Q2`. Each list has 4096 residues below its
/// modulus.
#[derive(Drop)]
pub struct Ciphertext {
    c0_first: Vec<u64>,
    c0_second: Vec<u64>,
    c1_first: Vec<u64>,
    c1_second: Vec<u64>,
}

impl Model for Ciphertext {
    ghost use Rattle.std.specs.Prelude.{List, [], ◌∷◌, ℕ};
    ghost use Rattle.psi_residue.specs.Ciphertexts.{IsCiphertext};

    ghost Value = { List (List ℕ) };

    ghost view = { λ ct. ct.c0_first.items ∷ ct.c0_second.items ∷ ct.c1_first.items ∷ ct.c1_second.items ∷ [] };

    ghost invariant = { λ ct. IsCiphertext (ct.c0_first.items ∷ ct.c0_second.items ∷ ct.c1_first.items ∷ ct.c1_second.items ∷ []) };
}

impl Ciphertext {
    /// The ciphertext whose residues are all 0. It fails only for want of memory.
    pub fn zero(alloc: Global) -> Result<Ciphertext, AllocError>
        ensures zeros { IfOk result (λ ct. ct ≡ zero_lists) }
        ensures whole { IfOk result IsCiphertext }
    {
        Ok(Ciphertext {
            c0_first: vec![in alloc; 0; N]?,
            c0_second: vec![in alloc; 0; N]?,
            c1_first: vec![in alloc; 0; N]?,
            c1_second: vec![in alloc; 0; N]?,
        })
    }

    /// The ciphertext of four residue lists, by their numbers. Each is 4096 residues below its modulus.
    pub fn of(
        c0_first: Vec<u64>,
        c0_second: Vec<u64>,
        c1_first: Vec<u64>,
        c1_second: Vec<u64>,
    ) -> Ciphertext
        requires c0_first { IsPolynomial first_modulus c0_first.items }
        requires c0_second { IsPolynomial second_modulus c0_second.items }
        requires c1_first { IsPolynomial first_modulus c1_first.items }
        requires c1_second { IsPolynomial second_modulus c1_second.items }
        ensures lists { result ≡ c0_first.items ∷ c0_second.items ∷ c1_first.items ∷ c1_second.items
            ∷ [] }
        ensures whole { IsCiphertext result }
    {
        Ciphertext {
            c0_first,
            c0_second,
            c1_first,
            c1_second,
        }
    }

    /// Residue list number `list`, which is below 4.
    pub fn residues(&self, list: u8) -> &[u64]
        requires { list < 4 }
        ensures residues { result.now ≡ list_at self.now list }
        ensures below { IsPolynomial (list_modulus list) result.now }
        ensures whole { IsCiphertext self.now }
    {
        match list {
            0 => &self.c0_first,
            1 => &self.c0_second,
            2 => &self.c1_first,
            _ => &self.c1_second,
        }
    }

    /// Writes residue list number `list`, which is below 4. The values are 4096 residues below that list's modulus.
    pub fn set(&mut self, list: u8, values: &[u64])
        requires in_range { list < 4 }
        requires below { IsPolynomial (list_modulus list) values.now }
        ensures set { self.new ≡ slice_set self.old list values.now }
        ensures whole { IsCiphertext self.new }
    {
        match list {
            0 => self.c0_first.copy_from_slice(values),
            1 => self.c0_second.copy_from_slice(values),
            2 => self.c1_first.copy_from_slice(values),
            _ => self.c1_second.copy_from_slice(values),
        }
    }
}

/// The modulus of residue list number `list`.
pub(crate) fn list_modulus(list: u8) -> Modulus
    ensures { modulus_of result ≡ list_modulus list }
{
    if list % 2 == 0 {
        Modulus::Q1
    } else {
        Modulus::Q2
    }
}
