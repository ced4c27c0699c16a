//! The acts that add an entry.
ghost use Rattle.std.specs.Prelude.{◌≡◌, ◌++◌, length, IfOk, OnErr, Some};
ghost use Rattle.psi_bundle.specs.declared.history.Call.TheVariants as Call;
ghost use Rattle.psi_bundle.specs.declared.history.Answer.TheVariants.{Seen};
ghost use Rattle.psi_bundle.specs.Versions.{HasLabelLength};
ghost use Rattle.psi_bundle.specs.Shows.{packed_bins};
ghost use Rattle.sender_core.specs.Kept.{row_of};
ghost use Rattle.sender_core.specs.Given.{IsViewOf};
ghost use Rattle.sender_core.specs.Answers.{answer_of_put, answer_of_drop, answer_of_repack};
ghost use Rattle.sender_core.proofs.Interleaving.{view-more};
ghost use Rattle.live_sender.specs.Histories.{first_version};
ghost use Rattle.live_sender.specs.Acts.{DoesCall};
ghost use Rattle.live_sender.specs.Turns.{ShowsAt};

use crate::live::{Live, know};
use item_slots::Tag;
use psi_bundle::{Bundle, Cached, Label};
use psi_turnstile::Act;
use sender_core::{DropAnswer, Placed, Put, Refusal, RepackAnswer, RowView, Snapshot};
use std::alloc::Global;
use std::mem;

// Puts a tag with its label.
#[derive(Drop)]
pub(crate) struct Puts {
    pub(crate) alloc: Global,
    pub(crate) tag: Tag,
    pub(crate) label: Label,
}

impl<C: Cached + Drop> Act<Live<C>> for Puts {
    type Out = Result<Placed<Put>, Refusal>;

    ghost can = { λ a z _. HasLabelLength z.parameters a.label };

    ghost does = { λ a z met _ after out. DoesCall answer_of_put (Call.Put a.tag a.label) z met after out };

    fn act(&mut self, live: &mut Live<C>) -> Result<Placed<Put>, Refusal> {
        let answer = live.book.put(self.alloc, self.tag, self.label);
        know(&live.book);
        answer
    }

    ghost stays = { λ _ _ _ _ h. h };
}

// Takes a tag out.
#[derive(Drop)]
pub(crate) struct Drops {
    pub(crate) alloc: Global,
    pub(crate) tag: Tag,
}

impl<C: Cached + Drop> Act<Live<C>> for Drops {
    type Out = Result<Placed<DropAnswer>, Refusal>;

    ghost can = { λ _ _ _. Unit {0} };

    ghost does = { λ a z met _ after out. DoesCall answer_of_drop (Call.Drop a.tag) z met after out };

    fn act(&mut self, live: &mut Live<C>) -> Result<Placed<DropAnswer>, Refusal> {
        let answer = live.book.drop_tag(self.alloc, self.tag);
        know(&live.book);
        answer
    }

    ghost stays = { λ _ _ _ _ _. tt };
}

// Shows the bundles, with an entry.
#[derive(Drop)]
pub(crate) struct Asks {
    pub(crate) alloc: Global,
}

impl<C: Cached + Drop> Act<Live<C>> for Asks {
    type Out = Result<Placed<Snapshot<C>>, Refusal>;

    ghost can = { λ _ _ _. Unit {0} };

    ghost does = { λ _ z met _ after out. DoesCall (λ _. Seen) Call.Ask z met after out × IfOk out (λ p. ShowsAt C.contents C.is_under z after p.place p.answer) };

    fn act(&mut self, live: &mut Live<C>) -> Result<Placed<Snapshot<C>>, Refusal> {
        know(&live.book);
        let answer = live.book.ask(self.alloc);
        know(&live.book);
        answer
    }

    ghost stays = { λ _ _ _ _ _. tt };
}

// Packs a viewed row anew. What it is packed into is taken out as the act is done.
#[derive(Drop)]
pub(crate) struct Repacks<'a, C: Cached> {
    pub(crate) alloc: Global,
    pub(crate) view: &'a RowView<C>,
    pub(crate) packed: Vec<Bundle>,
}

impl<'a, C: Cached + Drop> Act<Live<C>> for Repacks<'a, C> {
    type Out = Result<Placed<RepackAnswer>, Refusal>;

    ghost can = { λ a z es. IsViewOf (first_version z) es a.view.now × (a.packed.items ≡ packed_bins z.parameters.capacity (row_of a.view.now.bundles)) };

    ghost does = { λ a z met _ after out. DoesCall answer_of_repack (Call.Repack a.view.now.row a.view.now.from) z met after out };

    fn act(&mut self, live: &mut Live<C>) -> Result<Placed<RepackAnswer>, Refusal> {
        let packed = mem::replace(&mut self.packed, Vec::new(self.alloc));
        let answer = live.book.repack(self.alloc, self.view, packed);
        know(&live.book);
        answer
    }

    ghost stays = { λ a z es rest h. (view-more (first_version z) es rest a.view.now h.0, h.1) };
}
