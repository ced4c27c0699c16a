ghost use Rattle.std.specs.Prelude.{◌≡◌, ◌<◌, length};
ghost use Rattle.psi_residue.specs.Numbers.{plain_modulus, ring_degree};
ghost use Rattle.psi_residue.specs.Polynomials.{IsPolynomial};
ghost use Rattle.psi_residue.specs.Slots.{packed_list, slots_of};

use negacyclic::{forward, inverse};
use psi_residue::{Modulus, N};

/// Writes the polynomial whose slot j, its value at the power `2j + 1` of the root modulo `T`, is `values[j]`.
/// Both slices have 4096 elements, and the values are below `T`. It takes no memory.
pub fn pack(values: &[u32], out: &mut [u32])
    requires plaintexts { IsPolynomial plain_modulus values.now }
    requires room { length out.old ≡ ring_degree }
    ensures packed { out.new ≡ packed_list values.now }
    ensures plaintext { IsPolynomial plain_modulus out.new }
    ensures undone { slots_of out.new ≡ values.now }
{
    let mut wide = [0; N];
    widen(values, &mut wide);
    inverse(Modulus::T, &mut wide);
    narrow(&wide, out);
}

/// Writes the slots of a polynomial: slot j is its value at the power `2j + 1` of the root, modulo `T`.
/// Both slices have 4096 elements, and the coefficients are below `T`. It takes no memory.
pub fn unpack(poly: &[u32], out: &mut [u32])
    requires plaintext { IsPolynomial plain_modulus poly.now }
    requires room { length out.old ≡ ring_degree }
    ensures slots { out.new ≡ slots_of poly.now }
    ensures plaintext { IsPolynomial plain_modulus out.new }
    ensures undone { packed_list out.new ≡ poly.now }
{
    let mut wide = [0; N];
    widen(poly, &mut wide);
    forward(Modulus::T, &mut wide);
    narrow(&wide, out);
}

// Plaintext values in words of 64 bits.
fn widen(values: &[u32], out: &mut [u64])
    requires { length values.now ≡ length out.old }
    ensures { out.new ≡ values.now }
{
    for (i, x) in values.iter().enumerate() {
        out[i] = u64::from(*x);
    }
}

// Plaintext values in words of 32 bits.
fn narrow(values: &[u64], out: &mut [u32])
    requires plaintexts { IsPolynomial plain_modulus values.now }
    requires room { length out.old ≡ ring_degree }
    ensures { out.new ≡ values.now }
{
    for (i, x) in values.iter().enumerate() {
        out[i] = *x as u32;
    }
}
