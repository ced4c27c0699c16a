//! The value that a turnstile keeps, and what may be done to it.
ghost use Rattle.std.specs.Prelude.{◌≡◌, ◌⊎◌, List, [], ◌∷◌, ◌++◌, length};

/// A value that stands for a base and for a history, a list of entries that only grows.
/// The base is a meaning alone, and no call answers it.
pub trait Kept {
    type Entry;

    type Base;

    ghost base: { Self → Self.Base };

    ghost entries: { Self → List Self.Entry };

    /// The length of the history.
    fn count(&self) -> u64
        ensures { result ≡ length (entries self.now) };
}

/// What is done to the value within one turn.
///
/// `can` is its condition, on the act, the base and the history, and stays true as the history grows.
/// `does` is what it does, between the act, the base and the history before and the act, the history and the result after.
/// An act adds one entry or none, and leaves the base as it is.
pub trait Act<B: Kept> {
    type Out;

    ghost can: { Self → B.Base → List B.Entry → Type 0 };

    ghost does: { Self → B.Base → List B.Entry → Self → List B.Entry → Self.Out → Type 0 };

    /// Does it once. The act's condition holds for the value's base and history.
    fn act(&mut self, book: &mut B) -> Self::Out
        requires { can self.old (B.base book.old) (B.entries book.old) }
        ensures base { B.base book.new ≡ B.base book.old }
        ensures grows { (B.entries book.new ≡ B.entries book.old)
            ⊎ ((e : B.Entry) × (B.entries book.new ≡ B.entries book.old ++ e ∷ [])) }
        ensures does { does self.old (B.base book.old) (B.entries book.old) self.new
            (B.entries book.new) result };

    ghost stays: { (a : Self) (z : B.Base) (xs ys : List B.Entry) → can a z xs → can a z (xs ++ ys) };
}
