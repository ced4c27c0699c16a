//! Polynomials with slot values as roots.
ghost use Rattle.std.specs.Prelude.{◌≡◌, ◌<◌, ◌∷◌, [], length, IfOk};
ghost use Rattle.psi_residue.specs.Numbers.{plain_modulus};
ghost use Rattle.psi_residue.specs.Polynomials.{value_at};
ghost use Rattle.psi_bundle.specs.KeptPolynomials.{GainsRoot, LosesRoot};

use bin_poly::{divide_root, times_root};
use std::alloc::{AllocError, Global};
use std::marker::Model;

// A polynomial modulo the plaintext modulus. Contracts see its coefficients, the constant first.
#[derive(Drop)]
pub struct RootPolynomial {
    coefficients: Vec<u32>,
}

impl Model for RootPolynomial {
    ghost use Rattle.std.specs.Prelude.{List, ℕ};
    ghost use Rattle.psi_bundle.specs.KeptPolynomials.{IsReduced};

    ghost Value = { List ℕ };

    ghost view = { λ p. p.coefficients.items };

    ghost invariant = { λ p. IsReduced p.coefficients.items };
}

impl RootPolynomial {
    // The polynomial without roots, which is 1.
    pub(crate) fn one(alloc: Global) -> Result<RootPolynomial, AllocError>
        ensures { IfOk result (λ one. one ≡ 1 ∷ []) }
    {
        let coefficients = Vec::from_slice(alloc, &[1])?;
        Ok(RootPolynomial { coefficients })
    }

    // Its coefficients.
    pub(crate) fn coefficients(&self) -> &[u32]
        ensures { result.now ≡ self.now }
    {
        &self.coefficients
    }

    // The same polynomial.
    pub(crate) fn copied(&self, alloc: Global) -> Result<RootPolynomial, AllocError>
        ensures { IfOk result (λ copy. copy ≡ self.now) }
    {
        let coefficients = Vec::from_slice(alloc, &self.coefficients)?;
        Ok(RootPolynomial { coefficients })
    }

    // The polynomial times (x - root).
    pub(crate) fn times(&self, alloc: Global, root: u16) -> Result<RootPolynomial, AllocError>
        ensures { IfOk result (λ new. GainsRoot root self.now new) }
    {
        let degree = self.coefficients.len() - 1;
        let mut coefficients = Vec::with_capacity(alloc, degree + 2)?;
        coefficients.extend_from_slice(&self.coefficients)?;
        coefficients.push(0)?;
        times_root(&mut coefficients, degree, root);
        Ok(RootPolynomial { coefficients })
    }

    // The polynomial divided by (x - root). It has the root.
    pub(crate) fn divided(&self, alloc: Global, root: u16) -> Result<RootPolynomial, AllocError>
        requires not_constant { 1 < length self.now }
        requires is_root { value_at plain_modulus self.now root ≡ 0 }
        ensures { IfOk result (λ new. LosesRoot root self.now new) }
    {
        let degree = self.coefficients.len() - 1;
        let mut coefficients = Vec::from_slice(alloc, &self.coefficients)?;
        divide_root(&mut coefficients, degree, root);
        coefficients.truncate(degree);
        Ok(RootPolynomial { coefficients })
    }
}
