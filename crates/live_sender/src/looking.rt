//! The acts that add no entry.
ghost use Rattle.std.specs.Prelude.{◌≡◌, ◌<◌, ◌≤◌, ◌++◌, length, IfOk, OnOk, Some};
ghost use Rattle.psi_residue.specs.Parameters.{parameter_bytes};
ghost use Rattle.sender_core.specs.Given.{IsJobOf};
ghost use Rattle.sender_core.specs.Tries.{job_of};
ghost use Rattle.sender_core.proofs.Interleaving.{job-more};
ghost use Rattle.live_sender.specs.Histories.{first_version};
ghost use Rattle.live_sender.specs.Acts.{Stays};
ghost use Rattle.live_sender.specs.Turns.{ViewsRow, IsBareAt, HasRoomAt};
ghost use Rattle.live_sender.specs.Tries.{IsTriedAt};

use crate::live::{Live, know};
use psi_bundle::Cached;
use psi_turnstile::Act;
use sender_core::{Bare, Install, RowView, Task};
use std::alloc::{AllocError, Global};

// Takes room for entries.
#[derive(Drop)]
pub(crate) struct Reserves {
    pub(crate) alloc: Global,
    pub(crate) entries: u32,
}

impl<C: Cached + Drop> Act<Live<C>> for Reserves {
    type Out = Result<(), AllocError>;

    ghost can = { λ a _ _. a.entries ≤ 4096 };

    ghost does = { λ a z met _ after out. Stays z met after × OnOk out (HasRoomAt C.contents C.is_under z after a.entries) };

    fn act(&mut self, live: &mut Live<C>) -> Result<(), AllocError> {
        let answer = live.book.reserve(self.alloc, self.entries);
        know(&live.book);
        answer
    }

    ghost stays = { λ _ _ _ _ h. h };
}

// Shows the bundles of a row.
#[derive(Drop)]
pub(crate) struct FetchesRow {
    pub(crate) alloc: Global,
    pub(crate) row: u8,
}

impl<C: Cached + Drop> Act<Live<C>> for FetchesRow {
    type Out = Result<RowView<C>, AllocError>;

    ghost can = { λ a z _. a.row < z.parameters.rows };

    ghost does = { λ a z met _ after out. Stays z met after × IfOk out (ViewsRow C.contents C.is_under z after a.row) };

    fn act(&mut self, live: &mut Live<C>) -> Result<RowView<C>, AllocError> {
        know(&live.book);
        live.book.fetch_row(self.alloc, self.row)
    }

    ghost stays = { λ _ _ _ _ h. h };
}

// Gives a bundle without a cache, or all bundles.
#[derive(Drop)]
pub(crate) struct FetchesBare {
    pub(crate) alloc: Global,
    pub(crate) skip: u16,
}

impl<C: Cached + Drop> Act<Live<C>> for FetchesBare {
    type Out = Result<Bare<C>, AllocError>;

    ghost can = { λ _ _ _. Unit {0} };

    ghost does = { λ a z met _ after out. Stays z met after × IfOk out (IsBareAt C.contents C.is_under z after a.skip) };

    fn act(&mut self, live: &mut Live<C>) -> Result<Bare<C>, AllocError> {
        know(&live.book);
        live.book.fetch_bare(self.alloc, self.skip)
    }

    ghost stays = { λ _ _ _ _ _. tt };
}

// Puts a cache beside its bundle. The cache is taken out as the act is done.
#[derive(Drop)]
pub(crate) struct Installs<'a, C: Cached + Drop> {
    pub(crate) alloc: Global,
    pub(crate) task: &'a Task,
    pub(crate) cache: Option<C>,
}

impl<'a, C: Cached + Drop> Act<Live<C>> for Installs<'a, C> {
    type Out = Result<Install<C>, AllocError>;

    ghost can = { λ a z es. IsJobOf (first_version z) es (job_of a.task.now) × ((c : C) × (a.cache ≡ Some c) × (C.contents c ≡ (job_of a.task.now).bins) × C.is_under c (parameter_bytes z.parameters)) };

    ghost does = { λ a z met _ after out. Stays z met after × IfOk out (λ tried. (c : C) × (a.cache ≡ Some c) × IsTriedAt (first_version z) after (job_of a.task.now) c tried) };

    fn act(&mut self, live: &mut Live<C>) -> Result<Install<C>, AllocError> {
        know(&live.book);
        let cache = self.cache.take().unwrap();
        live.book.install(self.alloc, self.task, cache)
    }

    ghost stays = { λ a z es rest h. (job-more (first_version z) es rest (job_of a.task.now) h.0, h.1) };
}
