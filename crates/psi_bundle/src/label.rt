//! Labels: at most 40 bytes beside a tag.
ghost use Rattle.std.specs.Prelude.{◌≡◌, ◌≤◌, ◌<◌, ◌-◌, List, [], ℕ, length, take, drop, ◌++◌, replicate, IfSome, IsNone, ◌↔◌};

use std::marker::Model;

/// A label of at most 40 bytes.
#[derive(Clone, Copy)]
pub struct Label {
    // the label's bytes, and zeros behind them
    bytes: [u8; 40],
    len: usize,
}

impl Model for Label {
    ghost use Rattle.std.specs.Prelude.{List, ℕ, take, length};
    ghost use Rattle.psi_bundle.specs.Labels.{IsPadded, padded, padded-shown, length-shown};

    ghost Value = { List ℕ };

    ghost view = { λ l. take l.len l.bytes };

    ghost invariant = { λ l. IsPadded l.bytes l.len };

    ghost inverse = { λ shown. record { bytes = padded shown; len = length shown } };

    ghost inverse_ok = { λ l h i. record { bytes = padded-shown l.bytes l.len h i; len = length-shown l.bytes l.len h i } };
}

impl Label {
    /// The label with these bytes. None exactly where there are more than 40.
    pub fn of(bytes: &[u8]) -> Option<Label>
        ensures shown { IfSome result (λ label. label ≡ bytes.now) }
        ensures long { IsNone result ↔ (40 < length bytes.now) }
    {
        if bytes.len() > 40 {
            return None;
        }
        let mut padded = [0; 40];
        padded[..bytes.len()].copy_from_slice(bytes);
        Some(Label {
            bytes: padded,
            len: bytes.len(),
        })
    }

    /// Its bytes, at most 40.
    pub fn bytes(&self) -> &[u8]
        ensures { result.now ≡ self.now }
    {
        &self.bytes[..self.len]
    }
}
