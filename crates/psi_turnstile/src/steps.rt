//! The steps of a turn, in order: draw a ticket, wait for it, take the value, count what was added, give the value back.
ghost use Rattle.std.specs.Prelude.{◌≡◌, ℕ, ◌%◌, ◌^◌, ◌<◌, [], ◌∷◌, length, Some, None};
ghost use Rattle.psi_turnstile.specs.declared.view.Stage.TheVariants.{Away, Waits, Ahead, Inside};
ghost use Rattle.psi_turnstile.specs.Knowing.{at, saw, Follows, Places, Added};
ghost use Rattle.psi_turnstile.specs.Telling.{IsFree, IsWaiting, IsAhead, IsInside, Grows};

use crate::kept::Kept;
use crate::plays::{Core, Count, Draw, GoIn, Leave, Look, News, Token};
use std::sync::Wait;

/// The word that counts the tickets drawn, modulo 2^64.
pub(crate) const DRAWN: usize = 0;

/// The word that counts the tickets served, modulo 2^64.
pub(crate) const SERVED: usize = 1;

/// The word that counts the entries of the history.
pub(crate) const COUNT: usize = 2;

/// The slot with the value.
const SLOT: usize = 0;

/// A thread that waits sleeps on the low half of a word.
const LOW: u64 = 1 << 32;

pub(crate) fn draw<B: Kept>(core: &Core<B>, token: &mut Token<B>) -> u64
    requires here { (token.old.table_id ≡ core.now.table_id) × (core.now.table_id.words ≡ 3)
        × (core.now.table_id.slots ≡ 1) }
    requires free { IsFree token.old.me }
    ensures same { token.new.table_id ≡ token.old.table_id }
    ensures drew { (t : ℕ) × (t % 2 ^ 64 ≡ result)
        × (token.new.me ≡ (at (Waits t) token.old.me.0, [])) }
{
    core.fetch_add::<Draw>(token, DRAWN, 1)
}

pub(crate) fn wait<B: Kept, R: Wait>(rt: &R, core: &Core<B>, token: &mut Token<B>, ticket: u64)
    requires here { (token.old.table_id ≡ core.now.table_id) × (core.now.table_id.words ≡ 3)
        × (core.now.table_id.slots ≡ 1) }
    requires waiting { IsWaiting ticket token.old.me }
    ensures same { token.new.table_id ≡ token.old.table_id }
    ensures turn { (t : ℕ) × (token.new.me ≡ (at (Ahead t) token.old.me.0, [])) }
{
    for _ in rt.forever() {
        let found = core.load::<Look>(token, SERVED);
        if found == ticket {
            return;
        }
        core.park(rt, SERVED, (found % LOW) as u32);
    }
    unreachable!()
}

pub(crate) fn take<B: Kept>(core: &Core<B>, token: &mut Token<B>) -> B
    requires here { (token.old.table_id ≡ core.now.table_id) × (core.now.table_id.words ≡ 3)
        × (core.now.table_id.slots ≡ 1) }
    requires ahead { IsAhead token.old.me }
    ensures same { token.new.table_id ≡ token.old.table_id }
    ensures inside { (t : ℕ) × (token.new.me ≡ (
      at (Inside t)
          (saw (B.entries result) token.old.me.0),
      (0, None) ∷ [],
    )) }
    ensures base { token.old.me.0.base ≡ Some (B.base result) }
    ensures follows { Follows (B.entries result) token.old.me.0 }
{
    core.load::<GoIn>(token, COUNT);
    core.exchange(token, SLOT, None).unwrap()
}

pub(crate) fn note<B: Kept, N: News<B::Entry>>(
    core: &Core<B>,
    token: &mut Token<B>,
    book: &B,
    added: u64,
)
    requires here { (token.old.table_id ≡ core.now.table_id) × (core.now.table_id.words ≡ 3)
        × (core.now.table_id.slots ≡ 1) }
    requires inside { IsInside None token.old.me }
    requires news { N.log ≡ B.entries book.now }
    requires grows { Grows token.old.me.0.seen added (B.entries book.now) }
    requires fits { length (B.entries book.now) < 2 ^ 64 }
    ensures same { token.new.table_id ≡ token.old.table_id }
    ensures held { token.new.me.1 ≡ (0, None) ∷ [] }
    ensures seen { token.new.me.0 ≡ record token.old.me.0
        { seen = B.entries book.now; own = token.new.me.0.own } }
    ensures added { Added token.old.me.0.seen token.old.me.0.own token.new.me.0 }
    ensures places { Places (length (B.entries book.now)) token.new.me.0 }
{
    let _ = book;
    core.fetch_add::<Count<N>>(token, COUNT, added);
}

pub(crate) fn give<B: Kept>(core: &Core<B>, token: &mut Token<B>, book: B)
    requires here { (token.old.table_id ≡ core.now.table_id) × (core.now.table_id.words ≡ 3)
        × (core.now.table_id.slots ≡ 1) }
    requires inside { IsInside None token.old.me }
    requires base { token.old.me.0.base ≡ Some (B.base book) }
    requires entries { token.old.me.0.seen ≡ B.entries book }
    ensures same { token.new.table_id ≡ token.old.table_id }
    ensures left { token.new.me ≡ (at Away token.old.me.0, []) }
{
    let empty = core.exchange(token, SLOT, Some(book));
    let None = empty else { unreachable!() };
    core.fetch_add::<Leave>(token, SERVED, 1);
    core.wake_all(SERVED);
}
