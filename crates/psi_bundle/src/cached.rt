//! What may be kept beside a bundle, and bundles as they are shown.
ghost use Rattle.std.specs.Prelude.{◌≡◌, ◌<◌, IfSome, length};
ghost use Rattle.std.specs.List.{position_from};
ghost use Rattle.std.specs.Arc.{arc_value};
ghost use Rattle.item_slots.specs.Tags.{bins_of_row};
ghost use Rattle.psi_bundle.specs.Bins.{accepts, bin_at};

use crate::bundle::Bundle;
use item_slots::Tag;
use std::marker::Model;
use std::sync::Arc;

/// A value that is computed from a bundle and kept beside it.
pub trait Cached {
    ghost use Rattle.std.specs.Prelude.{List, ℕ};
    ghost use Rattle.psi_bundle.specs.declared.member.Member.{Member};

    /// The bundle's contents that it is for: the members of each bin.
    ghost contents: { Self → List (List Member) };

    /// It is for them under the parameters that have these 8 bytes.
    ghost is_under: { Self → List ℕ → Type 0 };
}

/// No cache: it keeps its bundle, and is for it under all parameters.
#[derive(Drop)]
pub struct NoCache {
    bundle: Arc<Bundle>,
}

impl Model for NoCache {
    ghost use Rattle.std.specs.Prelude.{List};
    ghost use Rattle.std.specs.Arc.{arc_value};
    ghost use Rattle.psi_bundle.specs.declared.member.Member.{Member};

    ghost Value = { List (List Member) };

    ghost view = { λ c. arc_value c.bundle };
}

impl Cached for NoCache {
    ghost use Rattle.std.specs.Prelude.{⊤};

    ghost contents = { λ c. c };

    ghost is_under = { λ _ _. ⊤ };
}

impl NoCache {
    /// No cache for this bundle.
    pub fn of(bundle: Arc<Bundle>) -> NoCache
        ensures { result ≡ arc_value bundle }
    {
        NoCache { bundle }
    }

    /// Its bundle.
    pub fn bundle(&self) -> &Bundle
        ensures { result.now ≡ self.now }
    {
        &self.bundle
    }
}

/// What has a bundle: a bundle itself, or one that a set shows.
pub trait HasBundle {
    ghost use Rattle.std.specs.Prelude.{◌≡◌, List};
    ghost use Rattle.psi_bundle.specs.declared.member.Member.{Member};

    /// The members of each bin.
    ghost bins: { Self → List (List Member) };

    /// The bundle.
    fn bundle(&self) -> &Bundle
        ensures { result.now ≡ bins self.now };
}

impl HasBundle for Bundle {
    ghost bins = { λ b. b };

    fn bundle(&self) -> &Bundle {
        self
    }
}

/// A bundle as a set shows it: with its stamp, and with a cache where there is one.
#[derive(Drop)]
pub struct Shown<C> {
    /// The bundle.
    pub bundle: Arc<Bundle>,
    /// One more than the place of the entry that last changed it, or 0.
    pub stamp: u64,
    /// A cache for it, if there is one.
    pub cache: Option<Arc<C>>,
}

impl<C> HasBundle for Shown<C> {
    ghost use Rattle.std.specs.Arc.{arc_value};

    ghost bins = { λ u. arc_value u.bundle };

    fn bundle(&self) -> &Bundle {
        &self.bundle
    }
}

/// The number of the first bundle of a row that accepts the tag in the bin, as `Bundle::accepts` tells it. `bin` is
/// below 819.
pub fn accepting<T: HasBundle>(row: &[T], bin: u16, tag: &Tag, capacity: u16) -> Option<usize>
    requires { bin < bins_of_row }
    ensures first { result ≡ position_from (λ u. accepts capacity (bin_at (T.bins u) bin) tag.now) 0 row.now }
    ensures within { IfSome result (λ i. i < length row.now) }
{
    row.iter().position(
        |u|
            requires { bin < bins_of_row }
        { u.bundle().accepts(bin, tag, capacity) },
    )
}
