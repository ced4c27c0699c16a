//! Laws of the polynomials of roots. The functions do nothing: their clauses are what they are for.
ghost use Rattle.std.specs.Prelude.{◌≡◌, ℕ, ◌<◌, List, length, slice_index};
ghost use Rattle.std.specs.List.{All};
ghost use Rattle.psi_residue.specs.Numbers.{plain_modulus};
ghost use Rattle.psi_residue.specs.Polynomials.{value_at};
ghost use Rattle.psi_residue.specs.RootPolynomials.{root_value};
ghost use Rattle.bin_poly.specs.Roots.{HasRoots};
ghost use Rattle.bin_poly.specs.Calls.{RootsStand};

/// After any calls of `times_root` and `divide_root` under their conditions, the polynomial is the one that `from_roots`
/// makes of the roots that then stand.
pub fn roots_stand()
    ensures { RootsStand }
{}

/// The value at `x` of the product of `(x - a)` over the roots is the product of the values, and 0 at each root.
pub fn values_of_products()
    ensures values { (polynomial roots : List ℕ) (x : ℕ) → HasRoots polynomial roots
        → value_at plain_modulus polynomial x ≡ root_value roots x }
    ensures at_roots { (polynomial roots : List ℕ) (i : ℕ) → All (λ a. a < plain_modulus) roots
        → HasRoots polynomial roots
        → i < length roots → value_at plain_modulus polynomial (slice_index roots i) ≡ 0 }
{}
