//! Sums and products modulo the plaintext modulus, 65537 = 2^16 + 1, in words of 32 bits.
//!
//! `psi_residue` has arithmetic modulo any of its three moduli, by a remainder of 128 bits (40 to 66 ns a product). Here 2^16 is -1,
//! and a product is two halves and a difference (1 ns): a root polynomial of 64 roots, some 2,000 products, takes 2 microseconds.
ghost use Rattle.std.specs.Prelude.{◌≡◌, ◌+◌, ◌-◌, ◌*◌, ◌%◌, ◌<◌};
ghost use Rattle.psi_residue.specs.Numbers.{plain_modulus};

// The plaintext modulus.
const MODULUS: u32 = 65537;

// `a` and `b`.
pub(crate) fn add(a: u32, b: u32) -> u32
    requires a_below { a < plain_modulus }
    requires b_below { b < plain_modulus }
    ensures value { result ≡ (a + b) % plain_modulus }
{
    let sum = a + b;
    if sum < MODULUS { sum } else { sum - MODULUS }
}

// `a` less `b`. A difference below 0 wraps to one of the greatest numbers, and back where the modulus is added.
pub(crate) fn sub(a: u32, b: u32) -> u32
    requires a_below { a < plain_modulus }
    requires b_below { b < plain_modulus }
    ensures value { result ≡ (a + (plain_modulus - b)) % plain_modulus }
{
    let difference = a.wrapping_sub(b);
    difference.min(difference.wrapping_add(MODULUS))
}

// `a` times `b`. As 2^16 is -1, what stands from bit 16 on is taken off what stands below.
pub(crate) fn mul(a: u32, b: u32) -> u32
    requires a_below { a < plain_modulus }
    requires b_below { b < plain_modulus }
    ensures value { result ≡ a * b % plain_modulus }
{
    let product = u64::from(a) * u64::from(b);
    sub((product & 0xffff) as u32, (product >> 16) as u32)
}

// `a` times a root, whose product has 32 bits at most.
pub(crate) fn mul_root(a: u32, root: u16) -> u32
    requires { a < plain_modulus }
    ensures value { result ≡ a * root % plain_modulus }
{
    let product = a * u32::from(root);
    sub(product & 0xffff, product >> 16)
}
