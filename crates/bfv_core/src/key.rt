//! Secret keys.
ghost use Rattle.std.specs.Prelude.{◌≡◌, ◌≢◌, IfOk, length};
ghost use Rattle.psi_residue.specs.declared.numbers.Modulus.TheVariants as moduli;
ghost use Rattle.psi_residue.specs.Numbers.{modulus_of, ring_degree};
ghost use Rattle.psi_residue.specs.Residues.{residues_of};
ghost use Rattle.negacyclic.specs.Transforms.{values_of};
ghost use Rattle.bfv_core.specs.Encryptions.{IsKey};
ghost use Rattle.bfv_core.specs.EncryptedLists.{key_of_seed};

use crate::polynomials::write_residues;
use negacyclic::forward;
use psi_residue::{Modulus, N};
use std::alloc::{AllocError, Global};
use std::marker::Model;

/// A secret key: a polynomial of 4096 coefficients, each -1, 0 or 1. It is seen as the list of them. It keeps its values
/// modulo both moduli of a ciphertext, so that products with it need no transform of the key.
#[derive(Drop)]
pub struct SecretKey {
    coefficients: Vec<i8>,
    first_values: Vec<u64>,
    second_values: Vec<u64>,
}

impl Model for SecretKey {
    ghost use Rattle.std.specs.Prelude.{List, ℤ};
    ghost use Rattle.bfv_core.specs.Keys.{HasValues};

    ghost Value = { List ℤ };

    ghost view = { λ k. k.coefficients.items };

    ghost invariant = { λ k. HasValues k.coefficients.items k.first_values.items k.second_values.items };
}

impl SecretKey {
    /// The key of a seed, whose coefficients `psi_sampler` draws. It fails only for want of memory.
    pub fn of(alloc: Global, seed: &[u8; 32]) -> Result<SecretKey, AllocError>
        ensures exact { IfOk result (λ key. key ≡ key_of_seed seed.now) }
        ensures a_key { IfOk result IsKey }
    {
        let mut coefficients = vec![in alloc; 0; N]?;
        let mut first_values = vec![in alloc; 0; N]?;
        let mut second_values = vec![in alloc; 0; N]?;
        psi_sampler::key(seed, &mut coefficients);
        write_values(Modulus::Q1, &coefficients, &mut first_values);
        write_values(Modulus::Q2, &coefficients, &mut second_values);
        Ok(SecretKey {
            coefficients,
            first_values,
            second_values,
        })
    }

    /// Its coefficients, the constant first.
    pub fn coefficients(&self) -> &[i8]
        ensures all { result.now ≡ self.now }
        ensures a_key { IsKey self.now }
    {
        &self.coefficients
    }

    /// The values of its residues modulo `Q1` or `Q2` at the odd powers of that modulus's root. `m` is one of these two.
    pub fn values(&self, m: Modulus) -> &[u64]
        requires { m ≢ moduli.T }
        ensures values { result.now ≡ values_of m (residues_of (modulus_of m) self.now) }
        ensures a_key { IsKey self.now }
    {
        match m {
            Modulus::Q1 => &self.first_values,
            Modulus::Q2 => &self.second_values,
            Modulus::T => unreachable!(),
        }
    }
}

// The values of a key's residues.
fn write_values(m: Modulus, coefficients: &[i8], out: &mut [u64])
    requires given { length coefficients.now ≡ ring_degree }
    requires places { length out.now ≡ ring_degree }
    ensures { out.new ≡ values_of m (residues_of (modulus_of m) coefficients.now) }
{
    write_residues(m, coefficients, out);
    forward(m, out);
}
