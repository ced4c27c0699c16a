//! What the transforms know of each modulus.
ghost use Rattle.psi_residue.specs.declared.numbers.Modulus.TheVariants as moduli;
ghost use Rattle.psi_residue.specs.Numbers.{degree_inverse_of, first_modulus, modulus_of, plain_modulus, root_of, second_modulus};
ghost use Rattle.negacyclic.specs.Plans.{IsPlan};

use crate::factors::Factor;
use crate::{first_factors, plain_factors, second_factors};
use psi_residue::{Modulus, N, Q1, Q2, T};

/// A modulus with its factors: one, the inverse of 4096, and the powers of its root.
#[derive(Clone, Copy)]
pub struct Plan {
    /// The modulus.
    pub modulus: u64,
    /// 2^36 modulo the modulus.
    pub fold: u64,
    /// One.
    pub one: Factor,
    /// The inverse of 4096.
    pub degree_inverse: Factor,
    /// The powers of the root.
    pub factors: &'static [Factor; N],
}

/// The plan of a modulus.
pub(crate) fn plan_of(m: Modulus) -> Plan
    ensures { IsPlan (modulus_of m) (root_of m) (degree_inverse_of m) result }
{
    match m {
        Modulus::Q1 => first(),
        Modulus::Q2 => second(),
        Modulus::T => plain(),
    }
}

// The plan of the first residue modulus.
fn first() -> Plan
    ensures { IsPlan first_modulus (root_of moduli.Q1) (degree_inverse_of moduli.Q1) result }
{
    Plan {
        modulus: Q1,
        fold: 73727,
        one: Factor {
            number: 1,
            quotient: 268435743,
        },
        degree_inverse: Factor {
            number: 68702625811,
            quotient: 18442240474082246656,
        },
        factors: &first_factors::FACTORS,
    }
}

// The plan of the second residue modulus.
fn second() -> Plan
    ensures { IsPlan second_modulus (root_of moduli.Q2) (degree_inverse_of moduli.Q2) result }
{
    Plan {
        modulus: Q2,
        fold: 245759,
        one: Factor {
            number: 1,
            quotient: 268436415,
        },
        degree_inverse: Factor {
            number: 68702453821,
            quotient: 18442240474082246656,
        },
        factors: &second_factors::FACTORS,
    }
}

// The plan of the plaintext modulus.
fn plain() -> Plan
    ensures { IsPlan plain_modulus (root_of moduli.T) (degree_inverse_of moduli.T) result }
{
    Plan {
        modulus: T,
        fold: 16,
        one: Factor {
            number: 1,
            quotient: 281470681808895,
        },
        degree_inverse: Factor {
            number: 65521,
            quotient: 18442240542800609295,
        },
        factors: &plain_factors::FACTORS,
    }
}
