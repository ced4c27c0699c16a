//! The ledger of parameters, and their check.
ghost use Rattle.std.specs.Prelude.{◌≡◌, ◌<◌, ◌≤◌, ◌^◌, ◌↔◌, IsNone, IsOk};
ghost use Rattle.noise_ledger.specs.Ledgers.{carry_of, form_rounding, noise_of, rounding_of, used_of};
ghost use Rattle.noise_ledger.specs.Verdicts.{parameters_of, range_fault, ciphertexts_of, least_cells, judged, ledger_of, AreInRange, ArePassed};

use crate::params::Params;
use psi_residue::{N, Q, Q2, R, T};

// The greatest coefficient of a plaintext.
const GREATEST: u128 = 65536;

// The greatest size of a coefficient of an encryption's error.
const ERROR: u128 = 21;

// The most ciphertexts of a query.
const CIPHERTEXTS: u32 = 2400;

// The most cells of a row of bundles.
const CELLS: u32 = 4096;

/// The noise of a reply at the worst, in the scheme of Fan and Vercauteren (2012). The formulas are this project's own.
#[derive(Clone, Copy, Debug, PartialEq, Eq)]
pub struct Ledger {
    /// How often the plaintext modulus goes at most into a coefficient of the sum of products.
    pub carry: u128,
    /// The greatest size of a coefficient of the sum's noise.
    pub noise: u128,
    /// What that noise uses of the ciphertext modulus.
    pub used: u128,
}

/// Why parameters are refused.
#[derive(Clone, Copy, PartialEq, Eq)]
pub enum ParamFault {
    /// A field has a value that is not allowed.
    Range {
        /// The offset of the first such field among the 8 bytes.
        field: u8,
    },
    /// A query would have more than 2400 ciphertexts, or one bundle in each row more than 4096 cells.
    Size {
        /// The ciphertexts of a query.
        ciphertexts: u32,
        /// The cells of one bundle in each row.
        cells: u32,
    },
    /// The noise would use the whole ciphertext modulus or more.
    Noise {
        /// What it would use.
        bound: u128,
    },
}

/// Whether parameters are allowed: their ledger, or the first cause of their refusal.
///
/// `Range` comes first, where a field is not allowed: form is 1, rows 1 to 4, capacity 1 to 4095, units 0 to 4, drop
/// 0 and spare 0. Then `Size` comes, where `rows·capacity` is above 2400 or `rows·(1 + units)·(capacity + 1)` above
/// 4096. Then `Noise` comes, where `used` is not below the ciphertext modulus.
pub fn check(params: &Params) -> Result<Ledger, ParamFault>
    ensures judged { result ≡ judged (parameters_of params.now) }
    ensures passed { IsOk result ↔ ArePassed (parameters_of params.now) }
{
    if let Some(field) = range_fault(params) {
        return Err(ParamFault::Range { field });
    }
    let ciphertexts = ciphertexts(params);
    let cells = cells(params);
    if ciphertexts > CIPHERTEXTS || cells > CELLS {
        return Err(ParamFault::Size { ciphertexts, cells });
    }
    let ledger = ledger_of(params);
    if ledger.used < Q {
        Ok(ledger)
    } else {
        Err(ParamFault::Noise { bound: ledger.used })
    }
}

// The offset of the first field whose value is not allowed.
fn range_fault(params: &Params) -> Option<u8>
    ensures first { result ≡ range_fault (parameters_of params.now) }
    ensures none { IsNone result ↔ AreInRange (parameters_of params.now) }
{
    if params.form != 1 {
        Some(0)
    } else if params.rows < 1 || params.rows > 4 {
        Some(1)
    } else if params.capacity < 1 || params.capacity > 4095 {
        Some(2)
    } else if params.units > 4 {
        Some(4)
    } else if params.drop != 0 {
        Some(5)
    } else if params.spare != 0 {
        Some(6)
    } else {
        None
    }
}

// The ciphertexts of a query.
fn ciphertexts(params: &Params) -> u32
    ensures { result ≡ ciphertexts_of (parameters_of params.now) }
{
    u32::from(params.rows) * u32::from(params.capacity)
}

// The cells of one bundle in each row.
fn cells(params: &Params) -> u32
    ensures { result ≡ least_cells (parameters_of params.now) }
{
    u32::from(params.rows) * (1 + u32::from(params.units)) * (u32::from(params.capacity) + 1)
}

// The ledger of the parameters.
fn ledger_of(params: &Params) -> Ledger
    requires { params.now.drop ≤ 20 }
    ensures { result ≡ ledger_of (parameters_of params.now) }
{
    Ledger {
        carry: carry(params.capacity),
        noise: noise(params.capacity),
        used: used(params),
    }
}

// How often the plaintext modulus goes at most into a coefficient of the sum of products.
#[tactic(auto, unfolding(crate::specs::Ledgers::carry_of))]
fn carry(capacity: u16) -> u128
    ensures value { result ≡ carry_of capacity }
    ensures below { result < 2 ^ 45 }
{
    let products = u128::from(capacity) * (N as u128 * GREATEST * GREATEST);
    (products + GREATEST) / u128::from(T) + 1
}

// The greatest size of a coefficient of the sum's noise.
#[tactic(auto, unfolding(crate::specs::Ledgers::noise_of))]
fn noise(capacity: u16) -> u128
    ensures value { result ≡ noise_of capacity }
    ensures below { result < 2 ^ 62 }
{
    u128::from(R) * carry(capacity) + ERROR * u128::from(capacity) * (N as u128 * GREATEST)
}

// Twice the greatest rounding error of a short ciphertext, in units of the first modulus.
#[tactic(auto, unfolding(crate::specs::Ledgers::rounding_of))]
fn rounding(drop: u8) -> u128
    requires { drop ≤ 20 }
    ensures value { result ≡ rounding_of drop }
    ensures below { result < 2 ^ 34 }
{
    (N as u128 + 1) * (1 + 2 * ((1 << drop) / 2))
}

// The same modulo the ciphertext modulus, for a reply's ciphertext.
fn form_rounding(params: &Params) -> u128
    requires { params.now.drop ≤ 20 }
    ensures value { result ≡ form_rounding (parameters_of params.now) }
    ensures below { result < 2 ^ 70 }
{
    if params.form == 2 {
        u128::from(Q2) * rounding(params.drop)
    } else {
        0
    }
}

// What the noise of a reply and its rounding use of the ciphertext modulus.
#[tactic(auto, unfolding(crate::specs::Ledgers::used_of))]
fn used(params: &Params) -> u128
    requires { params.now.drop ≤ 20 }
    ensures { result ≡ used_of (parameters_of params.now) }
{
    let noise = u128::from(T) * noise(params.capacity) + u128::from(R) * GREATEST;
    2 * noise + u128::from(T) * form_rounding(params)
}
