ghost use Rattle.negacyclic.specs.Laws.{ValuesMultiply, SlotsMultiply, ProductsCommute, ProductsAssociate, ProductsDistribute};
ghost use Rattle.negacyclic.specs.Transforms.{ProductsByValues, ValuesDecide, ValuesOfProducts};

/// The value of a product modulo `x^n + 1` is the product of the values, at each number whose n-th power is -1: there
/// `x^n + 1` is 0. So the slots of a product of plaintext polynomials are the products of their slots.
/// It does nothing: the clauses are what it is for.
pub fn values_multiply()
    ensures values { ValuesMultiply }
    ensures slots { SlotsMultiply }
{}

/// The laws of a commutative ring, for products modulo `x^n + 1` and any modulus.
/// It does nothing: the clauses are what it is for.
pub fn products_form_a_ring()
    ensures commute { ProductsCommute }
    ensures associate { ProductsAssociate }
    ensures distribute { ProductsDistribute }
{}

/// A polynomial and its values at the odd powers of the modulus's root decide each other, and there products are place by
/// place: so `forward` of two polynomials, `mul_acc` onto zeros and `inverse` give their product.
/// It does nothing: the clauses are what it is for.
pub fn transforms_multiply()
    ensures decide { ValuesDecide }
    ensures values { ValuesOfProducts }
    ensures products { ProductsByValues }
{}
