//! The positions of a tag.
ghost use Rattle.std.specs.Prelude.{◌≡◌, ◌≤◌, ◌<◌, ◌+◌, List, [], ◌∷◌, ℕ, length, take};
ghost use Rattle.item_slots.specs.Tags.{ArePositions, rising, with_number};

use std::marker::Model;

/// One to three numbers below 3276, without repeats, in rising order. It is seen as the list of them.
#[derive(Drop)]
pub struct Positions {
    front: Front,
}

impl Model for Positions {
    ghost Value = { List ℕ };

    ghost view = { λ p. take p.front.len p.front.numbers };

    ghost invariant = { λ p. ArePositions (take p.front.len p.front.numbers) };
}

impl Positions {
    /// The rising list of three positions, without repeats. Each is below 3276.
    pub fn of(a: u16, b: u16, c: u16) -> Positions
        requires first { a < 3276 }
        requires second { b < 3276 }
        requires third { c < 3276 }
        ensures { result ≡ rising (a ∷ b ∷ c ∷ []) }
    {
        Positions {
            front: Front::one(c).and(b).and(a),
        }
    }

    /// The positions, in rising order.
    pub fn list(&self) -> &[u16]
        ensures listed { result.now ≡ self.now }
        ensures positions { ArePositions self.now }
    {
        &self.front.numbers[..self.front.len]
    }
}

// The numbers at the front of three: one at least.
#[derive(Drop)]
struct Front {
    numbers: [u16; 3],
    len: usize,
    ghost some: { 1 ≤ len },
    ghost few: { len ≤ 3 },
}

impl Front {
    fn one(x: u16) -> Front
        ensures { take result.len result.numbers ≡ x ∷ [] }
    {
        Front {
            numbers: [x, 0, 0],
            len: 1,
        }
    }

    // One number more, where it is not there yet. They rise.
    #[tactic(auto, unfolding(crate::specs::Tags::with_number))]
    fn and(self, x: u16) -> Front
        requires { self.len < 3 }
        ensures listed { take result.len result.numbers ≡ with_number x
            (take self.len self.numbers) }
        ensures longer { result.len ≤ self.len + 1 }
    {
        let [first, second, _] = self.numbers;
        if x < first {
            return Front {
                numbers: [x, first, second],
                len: self.len + 1,
            };
        }
        if x == first {
            return self;
        }
        if self.len == 1 {
            return Front {
                numbers: [first, x, 0],
                len: 2,
            };
        }
        if x < second {
            return Front {
                numbers: [first, x, second],
                len: 3,
            };
        }
        if x == second {
            return self;
        }
        Front {
            numbers: [first, second, x],
            len: 3,
        }
    }
}
