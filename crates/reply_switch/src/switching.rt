//! From a full ciphertext to a short one.
ghost use Rattle.std.specs.Prelude.{◌≡◌, ◌≤◌, length};
ghost use Rattle.psi_residue.specs.Numbers.{first_modulus, ring_degree, second_modulus};
ghost use Rattle.psi_residue.specs.Polynomials.{IsPolynomial};
ghost use Rattle.psi_residue.specs.Ciphertexts.{list_at};
ghost use Rattle.psi_residue.specs.ShortCiphertexts.{IsShortList, shortened_list};

use crate::rounding::shortened;
use bfv_core::Ciphertext;
use psi_residue::N;

/// Writes the short ciphertext of a ciphertext: the list of c0 and that of c1. Each coefficient x modulo `Q` becomes x / `Q2`,
/// rounded to the nearest whole number, modulo `Q1`, without its `drop` low bits. `drop` is at most 20, and `out0` and `out1`
/// have 4096 places each. It takes no memory and is never refused.
pub fn switch(ct: &Ciphertext, drop: u8, out0: &mut [u64], out1: &mut [u64])
    requires dropped { drop ≤ 20 }
    requires c0_places { length out0.now ≡ ring_degree }
    requires c1_places { length out1.now ≡ ring_degree }
    ensures c0 { out0.new ≡ shortened_list drop (list_at ct.now 0) (list_at ct.now 1) }
    ensures c1 { out1.new ≡ shortened_list drop (list_at ct.now 2) (list_at ct.now 3) }
    ensures c0_short { IsShortList drop out0.new }
    ensures c1_short { IsShortList drop out1.new }
{
    write_short(drop, ct.residues(0), ct.residues(1), out0);
    write_short(drop, ct.residues(2), ct.residues(3), out1);
}

// Writes the short list of the polynomial with these residues.
fn write_short(drop: u8, first: &[u64], second: &[u64], out: &mut [u64])
    requires dropped { drop ≤ 20 }
    requires first { IsPolynomial first_modulus first.now }
    requires second { IsPolynomial second_modulus second.now }
    requires places { length out.now ≡ ring_degree }
    ensures { out.new ≡ shortened_list drop first.now second.now }
{
    for c in 0..N / 4 {
        for k in 0..4 {
            let i = 4 * c + k;
            out[i] = shortened(drop, first[i], second[i]);
        }
    }
}
