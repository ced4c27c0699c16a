//! A query's ciphertexts as transforms.
ghost use Rattle.std.specs.Prelude.{◌≡◌, ◌+◌, ◌*◌, ◌%◌, ◌<◌, length, map};
ghost use Rattle.psi_residue.specs.Ciphertexts.{IsCiphertext, ciphertext_at, list_at};
ghost use Rattle.psi_residue.specs.Numbers.{modulus_of};
ghost use Rattle.psi_residue.specs.Polynomials.{IsPolynomial};
ghost use Rattle.noise_ledger.specs.Verdicts.{ciphertexts_of, parameters_of};
ghost use Rattle.negacyclic.specs.Transforms.{values_of};
ghost use Rattle.bundle_cache.specs.Queries.{ciphertext_of, modulus_of_list};

use bfv_core::Ciphertext;
use negacyclic::forward;
use noise_ledger::Params;
use psi_residue::{Modulus, N};
use std::marker::Model;

/// The ciphertexts of a query under one set's parameters, as transforms. That of row r and power k has the number
/// `r·capacity + k - 1`.
///
/// In contracts they are the parameters and the query's ciphertexts.
#[derive(Drop)]
pub struct Powers {
    params: Params,
    transforms: Vec<Ciphertext>,
}

impl Model for Powers {
    ghost use Rattle.std.specs.Prelude.{◌≡◌, length, map};
    ghost use Rattle.noise_ledger.specs.Verdicts.{ciphertexts_of, parameters_of};
    ghost use Rattle.bundle_cache.specs.Queries.{PowersOf, ciphertext_of};

    ghost Value = { PowersOf };

    ghost view = { λ p. record { parameters = parameters_of p.params; query = map ciphertext_of p.transforms.items } };

    ghost invariant = { λ p. length p.transforms.items ≡ ciphertexts_of (parameters_of p.params) };
}

impl Powers {
    /// The powers of a query, which has `rows·capacity` ciphertexts. They are transformed in place, one after another, as
    /// the call is handed no threads. It takes no memory and is never refused.
    pub fn of(params: &Params, query: Vec<Ciphertext>) -> Powers
        requires { length query.items ≡ ciphertexts_of (parameters_of params.now) }
        ensures parameters { result.parameters ≡ parameters_of params.now }
        ensures query { result.query ≡ query.items }
    {
        let mut transforms = query;
        transform_all(&mut transforms);
        Powers {
            params: *params,
            transforms,
        }
    }

    /// Residue list number `list` of the ciphertext of a row and a power, less one, as a transform.
    pub(crate) fn list(&self, row: u8, power: usize, list: u8) -> &[u64]
        requires row { row < self.now.parameters.rows }
        requires power { power < self.now.parameters.capacity }
        requires list { list < 4 }
        ensures values { result.now ≡ values_of (modulus_of_list list)
            (list_at (ciphertext_at self.now.query
            (row * self.now.parameters.capacity + power)) list) }
        ensures reduced { IsPolynomial (modulus_of (modulus_of_list list)) result.now }
        ensures polynomial { IsPolynomial (modulus_of (modulus_of_list list))
            (list_at (ciphertext_at self.now.query
            (row * self.now.parameters.capacity + power)) list) }
    {
        let place = usize::from(row) * usize::from(self.params.capacity) + power;
        self.transforms[place].residues(list)
    }
}

/// The modulus of residue list number `list`.
pub(crate) fn list_modulus(list: u8) -> Modulus
    ensures { result ≡ modulus_of_list list }
{
    if list % 2 == 0 {
        Modulus::Q1
    } else {
        Modulus::Q2
    }
}

// Transforms ciphertexts in place.
fn transform_all(ciphertexts: &mut [Ciphertext])
    ensures { map ciphertext_of ciphertexts.new ≡ ciphertexts.old }
{
    for c in 0..ciphertexts.len() {
        transform(&mut ciphertexts[c]);
    }
}

// Transforms the four residue lists of a ciphertext.
fn transform(ct: &mut Ciphertext)
    ensures values { ciphertext_of ct.new ≡ ct.old }
    ensures whole { IsCiphertext ct.new }
{
    let mut values = [0; N];
    for list in 0..4 {
        values.copy_from_slice(ct.residues(list));
        forward(list_modulus(list), &mut values);
        ct.set(list, &values);
    }
}
