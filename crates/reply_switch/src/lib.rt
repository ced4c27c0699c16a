//! Short replies: a ciphertext rounded to the modulus q1, without its low bits (modulus switching; Brakerski, Gentry, Vaikuntanathan
//! 2012), and what it opens to.
//!
//! A full ciphertext has four lists of 4096 residues. Its short one has two: a coefficient x of c0 or of c1 modulo q = q1·q2 becomes
//! x / q2, rounded to the nearest whole number, modulo q1, without its `drop` low bits. A receiver opens these as it would open the
//! full ciphertext:
//!
//!     switch(&ct, 4, &mut z0, &mut z1);
//!     open_short(&key, 4, &z0, &z1, &mut out);
//!
//! gives the plaintext that `ct` carries, where `noise_ledger::check` passes such replies, by the law `short_replies_open`: what is
//! left out adds at most half of (4097 + 4096·2^drop + 2^drop)·q2 to the noise. Nothing here takes memory.
#![tactic(auto)]

mod laws;
mod opening;
mod rounding;
mod switching;

pub use laws::short_replies_open;
pub use opening::open_short;
pub use switching::switch;

#[cfg(test)]
mod tests;
