//! The header of a body: the 8 bytes of the parameters.
ghost use Rattle.std.specs.Prelude.{◌≡◌, ◌≤◌, length, nat_eq, take};
ghost use Rattle.std.specs.Cmp.Lexicographic.{pointwise};
ghost use Rattle.psi_residue.specs.Parameters.{parameter_bytes};
ghost use Rattle.noise_ledger.specs.Verdicts.{parameters_of};

use noise_ledger::Params;

/// The bytes of the parameters.
pub const HEADER: usize = 8;

/// Whether a body begins with the parameters.
pub fn has_header(params: &Params, body: &[u8]) -> bool
    requires { 8 ≤ length body.now }
    ensures { result
        ≡ pointwise nat_eq (take 8 body.now) (parameter_bytes (parameters_of params.now)) }
{
    &body[..HEADER] == params.to_bytes().as_slice()
}
