ghost use Rattle.std.specs.Prelude.{◌≡◌, ◌+◌, ◌*◌, ◌%◌, ◌<◌, ◌^◌};
ghost use Rattle.psi_residue.specs.Numbers.{modulus_of, first_modulus, second_modulus, plain_modulus, cipher_modulus, ring_degree, scale, scale_rest, root, root_inverse, degree_inverse, root_of, root_inverse_of, degree_inverse_of};
ghost use Rattle.psi_residue.specs.declared.numbers.Modulus.{Modulus};

/// The number of coefficients of a polynomial.
pub const N: usize = 4096;

/// The plaintext modulus.
pub const T: u64 = 65537;

/// The first residue modulus of a ciphertext.
pub const Q1: u64 = 68719403009;

/// The second residue modulus of a ciphertext.
pub const Q2: u64 = 68719230977;

/// The ciphertext modulus, `Q1` times `Q2`.
pub const Q: u128 = 4722344527977019809793;

/// The scale of a plaintext in a ciphertext: `Q` divided by `T`, rounded down.
pub const DELTA: u64 = 72056159543113352;

/// What the scale leaves of the ciphertext modulus: `Q` modulo `T`.
pub const R: u64 = 59769;

/// A modulus that arithmetic is done by.
#[derive(Clone, Copy, Debug, PartialEq, Eq)]
pub enum Modulus {
    /// The first residue modulus of a ciphertext.
    Q1,
    /// The second residue modulus of a ciphertext.
    Q2,
    /// The plaintext modulus.
    T,
}

/// The number that a modulus stands for.
pub fn value(m: Modulus) -> u64
    ensures { result ≡ modulus_of m }
{
    match m {
        Modulus::Q1 => Q1,
        Modulus::Q2 => Q2,
        Modulus::T => T,
    }
}

/// How the constants belong together. It does nothing: the clauses are what it is for.
pub fn constants_agree()
    ensures degree { N ≡ ring_degree }
    ensures plaintext { T ≡ plain_modulus }
    ensures ciphertext { (Q1 ≡ first_modulus) × (Q2 ≡ second_modulus) × (Q ≡ cipher_modulus) }
    ensures scaled { (DELTA ≡ scale) × (R ≡ scale_rest) × (Q ≡ DELTA * T + R) }
    ensures root_of_minus_one { (root ^ ring_degree + 1) % plain_modulus ≡ 0 }
    ensures root_inverse { (root * root_inverse) % plain_modulus ≡ 1 }
    ensures degree_inverse { (ring_degree * degree_inverse) % plain_modulus ≡ 1 }
    ensures roots_of_minus_one { (m : Modulus) → (root_of m ^ ring_degree + 1) % modulus_of m ≡ 0 }
    ensures root_inverses { (m : Modulus) → (root_of m * root_inverse_of m) % modulus_of m ≡ 1 }
    ensures degree_inverses { (m : Modulus) → (ring_degree * degree_inverse_of m) % modulus_of m ≡ 1 }
{}
