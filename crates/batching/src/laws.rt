ghost use Rattle.std.specs.Prelude.{◌≡◌, ℕ, List};
ghost use Rattle.psi_residue.specs.Numbers.{plain_modulus};
ghost use Rattle.psi_residue.specs.Polynomials.{IsPolynomial};
ghost use Rattle.psi_residue.specs.Slots.{packed_list, slots_of};

/// Plaintext values and plaintext polynomials belong together one to one. It does nothing: the clauses are what it is
/// for.
pub fn slots_and_packing_undo_each_other()
    ensures slots_of_packed { (values : List ℕ) → IsPolynomial plain_modulus values
        → slots_of (packed_list values) ≡ values }
    ensures packed_slots { (poly : List ℕ) → IsPolynomial plain_modulus poly
        → packed_list (slots_of poly) ≡ poly }
{}
