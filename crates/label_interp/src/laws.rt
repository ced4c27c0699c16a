//! Laws of interpolation. The functions do nothing: their clauses are what they are for.
ghost use Rattle.label_interp.specs.Points.{OneAlone};

/// The polynomial of degree below the number of points that takes each point's second number at its first is the one
/// that `interpolate` gives: there is no other.
pub fn one_polynomial_alone()
    ensures { OneAlone }
{}
