//! Sums of plaintexts times ciphertexts.
ghost use Rattle.std.specs.Prelude.{◌≡◌, ◌<◌, IfOk, slice_set};
ghost use Rattle.psi_residue.specs.Numbers.{plain_modulus, ring_degree};
ghost use Rattle.psi_residue.specs.Polynomials.{IsPolynomial};
ghost use Rattle.psi_residue.specs.Ring.{product};
ghost use Rattle.psi_residue.specs.Ciphertexts.{IsCiphertext, list_at, list_modulus as modulus_of_list};
ghost use Rattle.bfv_core.specs.EncryptedLists.{added, scaled, with_plain, with_product, zero_lists};

use crate::ciphertext::{Ciphertext, list_modulus};
use crate::polynomials::{add_scaled_to, add_to, write_wide};
use crate::products::write_product;
use psi_residue::N;
use std::alloc::{AllocError, Global};
use std::marker::Model;

/// A sum of ciphertexts, which is a ciphertext. It is seen as its four lists of residues.
#[derive(Drop)]
pub struct Accumulator {
    sum: Ciphertext,
}

impl Model for Accumulator {
    ghost use Rattle.std.specs.Prelude.{List, ℕ};
    ghost use Rattle.psi_residue.specs.Ciphertexts.{IsCiphertext};

    ghost Value = { List (List ℕ) };

    ghost view = { λ a. a.sum };

    ghost invariant = { λ a. IsCiphertext a.sum };
}

impl Accumulator {
    /// The sum of nothing. It fails only for want of memory; no other call here takes memory.
    pub fn open(alloc: Global) -> Result<Accumulator, AllocError>
        ensures { IfOk result (λ sum. sum ≡ zero_lists) }
    {
        Ok(Accumulator {
            sum: Ciphertext::zero(alloc)?,
        })
    }

    /// Makes it the sum of nothing again.
    pub fn clear(&mut self)
        ensures { self.new ≡ zero_lists }
    {
        let zeros = [0; N];
        for list in 0..4 {
            self.sum.set(list, &zeros);
        }
    }

    /// Adds the plaintext `p` times the ciphertext: each of c0 and c1 times `p`. `p` has 4096 coefficients below `T`.
    pub fn add_product(&mut self, p: &[u32], ct: &Ciphertext)
        requires { IsPolynomial plain_modulus p.now }
        ensures { self.new ≡ with_product self.old p.now ct.now }
    {
        let mut wide = [0; N];
        write_wide(p, &mut wide);
        for list in 0..4 {
            add_list(&mut self.sum, list, &wide, ct.residues(list));
        }
    }

    /// Adds the plaintext `p`: `Δ·p` to c0, with no error. c1 stays. `p` has 4096 coefficients below `T`.
    pub fn add_plain(&mut self, p: &[u32])
        requires { IsPolynomial plain_modulus p.now }
        ensures { self.new ≡ with_plain self.old p.now }
    {
        for list in 0..2 {
            add_scaled(&mut self.sum, list, p);
        }
    }

    /// Writes the sum as a ciphertext.
    pub fn read(&self, out: &mut Ciphertext)
        ensures sum { out.new ≡ self.now }
        ensures whole { IsCiphertext out.new }
    {
        for list in 0..4 {
            out.set(list, self.sum.residues(list));
        }
    }
}

// Adds the plaintext `p` times a residue list of a ciphertext, number `list`, to that list of the sum.
fn add_list(sum: &mut Ciphertext, list: u8, p: &[u64], residues: &[u64])
    requires in_range { list < 4 }
    requires plaintext { IsPolynomial plain_modulus p.now }
    requires below { IsPolynomial (modulus_of_list list) residues.now }
    ensures sum { sum.new ≡ slice_set sum.old list
        (added (modulus_of_list list) (list_at sum.old list)
        (product (modulus_of_list list) ring_degree p.now residues.now)) }
    ensures whole { IsCiphertext sum.new }
{
    let m = list_modulus(list);
    let mut term = [0; N];
    write_product(m, p, residues, &mut term);
    add_to(m, sum.residues(list), &mut term);
    sum.set(list, &term);
}

// Adds the scaled plaintext to residue list number `list` of the sum.
fn add_scaled(sum: &mut Ciphertext, list: u8, p: &[u32])
    requires in_range { list < 4 }
    requires plaintext { IsPolynomial plain_modulus p.now }
    ensures sum { sum.new ≡ slice_set sum.old list
        (added (modulus_of_list list) (list_at sum.old list)
        (scaled (modulus_of_list list) p.now)) }
    ensures whole { IsCiphertext sum.new }
{
    let m = list_modulus(list);
    let mut term = [0; N];
    term.copy_from_slice(sum.residues(list));
    add_scaled_to(m, p, &mut term);
    sum.set(list, &term);
}
