//! The parameters and their bytes.
ghost use Rattle.std.specs.Prelude.{◌≡◌, ◌<◌, ◌≤◌, ◌+◌, ◌*◌, ◌^◌, [], ◌∷◌};
ghost use Rattle.std.specs.Int.{bytes_high_first};
ghost use Rattle.psi_residue.specs.Parameters.{parameter_bytes};
ghost use Rattle.noise_ledger.specs.Verdicts.{parameters_of};

/// What the two ends agree on. Not all values are allowed: [`crate::check`] says which are.
#[derive(Clone, Copy, Debug, PartialEq, Eq)]
pub struct Params {
    /// The form of a reply.
    pub form: u8,
    /// The rows of bins.
    pub rows: u8,
    /// The members that one bin of a bundle holds at most.
    pub capacity: u16,
    /// The label units of a member, of 10 bytes each.
    pub units: u8,
    /// The bits that a reply leaves out.
    pub drop: u8,
    /// Not used.
    pub spare: u16,
}

impl Params {
    /// The parameters with `rows` rows of bins, `capacity` members in a bin and `units` label units, of form 1, with
    /// no bits left out and nothing spare.
    pub fn of(rows: u8, capacity: u16, units: u8) -> Params
        ensures { result ≡ record {
          form = 1;
          rows = rows;
          capacity = capacity;
          units = units;
          drop
              = 0;
          spare = 0;
        } }
    {
        Params {
            form: 1,
            rows,
            capacity,
            units,
            drop: 0,
            spare: 0,
        }
    }

    /// The parameters whose 8 bytes these are, of whatever values. There are no others with these bytes.
    pub fn from_bytes(bytes: &[u8; 8]) -> Params
        ensures read { parameter_bytes (parameters_of result) ≡ bytes.now }
        ensures only { (p : Params) → p.capacity < 2 ^ 16 → p.spare < 2 ^ 16
            → parameter_bytes (parameters_of p) ≡ bytes.now → p ≡ result }
    {
        let [form, rows, high, low, units, drop, spare_high, spare_low] = *bytes;
        Params {
            form,
            rows,
            capacity: number(high, low),
            units,
            drop,
            spare: number(spare_high, spare_low),
        }
    }

    /// The planes of a bundle: the root plane, and one for each label unit.
    pub fn planes(&self) -> usize
        ensures number { result ≡ 1 + self.now.units }
        ensures few { result ≤ 2 ^ 8 }
    {
        1 + usize::from(self.units)
    }

    /// The coefficients of a plane's polynomials: one more than the members that a bin holds at most.
    pub fn coefficients(&self) -> usize
        ensures number { result ≡ self.now.capacity + 1 }
        ensures few { result ≤ 2 ^ 16 }
    {
        usize::from(self.capacity) + 1
    }

    /// The rows of a bundle's block: one for each coefficient of each plane.
    pub fn block_rows(&self) -> usize
        ensures number { result ≡ (1 + self.now.units) * (self.now.capacity + 1) }
        ensures few { result ≤ 2 ^ 24 }
    {
        self.planes() * self.coefficients()
    }

    /// The 8 bytes: form, rows, capacity (two bytes, the higher first), units, drop, spare (two bytes, the higher first).
    pub fn to_bytes(&self) -> [u8; 8]
        ensures { result ≡ parameter_bytes (parameters_of self.now) }
    {
        let [high, low] = self.capacity.to_be_bytes();
        let [spare_high, spare_low] = self.spare.to_be_bytes();
        [
            self.form, self.rows, high, low, self.units, self.drop, spare_high, spare_low,
        ]
    }
}

// The number of two bytes, the higher first.
fn number(high: u8, low: u8) -> u16
    ensures { bytes_high_first 2 result ≡ high ∷ low ∷ [] }
{
    u16::from_be_bytes([high, low])
}
