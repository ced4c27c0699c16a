ghost use Rattle.std.specs.Prelude.{◌≡◌, ℕ, ◌≤◌, ◌+◌, [], ◌∷◌, ◌++◌, sum, IsTrue, IsFalse, Some};

use crate::{Act, Kept, Seat, Turnstile};
use std::alloc::Global;
use std::sync::Wait;
use std::test::Fail;
use std::thread;
use std::thread::Threads;

// A book of payments, which together are no more than its limit: that is when a history of it is legal.
#[derive(Drop)]
struct Purse {
    limit: u64,
    paid: u64,
    payments: Vec<u64>,
    ghost counted: { paid ≡ sum payments.items },
    ghost legal: { paid ≤ limit },
}

impl Kept for Purse {
    type Entry = u64;

    type Base = u64;

    ghost base = { λ p. p.limit };

    ghost entries = { λ p. p.payments.items };

    fn count(&self) -> u64 {
        self.payments.len() as u64
    }
}

// Pays an amount after so many steps, and says whether it was paid: not over the limit, nor without memory.
#[derive(Drop)]
struct Pay {
    amount: u64,
    steps: u32,
}

// Takes time, and gives a number that is not 0.
fn linger(steps: u32) -> u64 {
    let mut number = 1u64;
    for _ in 0..steps {
        number = number
            .wrapping_mul(6364136223846793005)
            .wrapping_add(1442695040888963407);
    }
    number
}

impl Act<Purse> for Pay {
    type Out = bool;

    ghost can = { λ _ _ _. Unit {0} };

    ghost does = { λ a limit before _ after paid. (sum after ≤ limit) × (IsTrue paid → after ≡ before ++ a.amount ∷ []) × (IsFalse paid → after ≡ before) };

    fn act(&mut self, book: &mut Purse) -> bool {
        if self.amount > book.limit - book.paid || linger(self.steps) == 0 {
            return false;
        }
        book.pay(self.amount)
    }

    ghost stays = { λ _ _ _ _ _. tt };
}

impl Purse {
    fn pay(&mut self, amount: u64) -> bool
        requires { amount + self.old.paid ≤ self.old.limit }
        ensures limit { self.new.limit ≡ self.old.limit }
        ensures paid { IsTrue result → self.new.payments.items ≡ self.old.payments.items ++ amount
            ∷ [] }
        ensures refused { IsFalse result → self.new.payments.items ≡ self.old.payments.items }
    {
        if self.payments.push(amount).is_err() {
            return false;
        }
        self.paid += amount;
        true
    }
}

// What a caller of `turn` knows with no lemma: the history that its seat has seen is legal.
fn settle<R: Threads + Wait + Sync>(
    rt: &R,
    purses: &Turnstile<Purse>,
    seat: &mut Seat<Purse>,
    mut pay: Pay,
) -> Option<u64>
    requires { seat.old.turnstile ≡ purses.now }
    ensures here { seat.new.turnstile ≡ seat.old.turnstile }
    ensures legal { (limit : ℕ) × (seat.old.knows.base ≡ Some limit)
        × (sum seat.new.knows.seen ≤ limit) }
{
    let (paid, length) = purses.turn(rt, seat, &mut pay);
    if paid { Some(length - 1) } else { None }
}

// A payment that takes no time.
fn quick(amount: u64) -> Pay {
    Pay { amount, steps: 0 }
}

fn empty(alloc: Global) -> Purse {
    Purse {
        limit: 1_000_000,
        paid: 0,
        payments: Vec::new(alloc),
    }
}

#[test]
fn a_seat_sees_what_another_put(rt: HostRuntime) -> Result<(), Fail> {
    let Ok((purses, mut first)) = Turnstile::open(rt.alloc(), empty(rt.alloc())) else {
        panic!(rt; "no memory")
    };
    let mut second = purses.split(&mut first);
    let put = settle(&rt, &purses, &mut second, quick(7));
    let looked = purses.peek(&mut first);
    assert_eq!(rt; (put, looked, second.share()), (Some(0), 1, 2147483648));
    let note = purses.split(&mut second);
    let met = purses.meet(&mut first, note);
    purses.join(&mut first, second);
    assert_eq!(rt; (met, first.seen()), (1, 1));
    assert_eq!(rt; first.share(), 4294967296);
    let purse = purses.close(first);
    assert_eq!(rt; purse.payments.as_slice(), [7].as_slice());
    Ok(())
}

#[test]
fn a_turnstile_goes_on_from_the_history_that_it_finds(rt: HostRuntime) -> Result<(), Fail> {
    let mut found = empty(rt.alloc());
    assert!(rt; quick(5).act(&mut found));
    assert!(rt; quick(6).act(&mut found));
    let Ok((purses, mut seat)) = Turnstile::open(rt.alloc(), found) else {
        panic!(rt; "no memory")
    };
    assert_eq!(rt; (seat.seen(), purses.peek(&mut seat)), (2, 2));
    assert_eq!(rt; settle(&rt, &purses, &mut seat, quick(7)), Some(2));
    assert_eq!(rt; seat.share(), 4294967296);
    let purse = purses.close(seat);
    assert_eq!(rt; purse.payments.as_slice(), [5, 6, 7].as_slice());
    Ok(())
}

// A hundred payments, and the place of each. The first takes so long that the other thread comes and sleeps at the
// turnstile: without a wake-up it would sleep for ever.
fn pay_often<R: Threads + Wait + Sync>(
    rt: &R,
    purses: &Turnstile<Purse>,
    mut seat: Seat<Purse>,
) -> (Seat<Purse>, [u64; 100])
    requires { seat.turnstile ≡ purses.now }
    ensures { result.0.turnstile ≡ purses.now }
{
    let mut places = [u64::MAX; 100];
    for turn in 0..100usize {
        let steps = if turn == 0 { 200_000_000 } else { 0 };
        let pay = Pay { amount: 1, steps };
        places[turn] = settle(rt, purses, &mut seat, pay).unwrap_or(u64::MAX);
    }
    (seat, places)
}

#[test]
fn two_threads_get_each_place_once(rt: HostRuntime) -> Result<(), Fail> {
    let Ok((purses, mut first)) = Turnstile::open(rt.alloc(), empty(rt.alloc())) else {
        panic!(rt; "no memory")
    };
    let second = purses.split(&mut first);
    let (handle, shared) = (&rt, &purses);
    let (one, other) = thread::join(
        handle,
        move || pay_often(handle, shared, first),
        move || pay_often(handle, shared, second),
    );
    let (mut first, left) = one;
    let (second, right) = other;
    purses.join(&mut first, second);
    assert_eq!(rt; first.share(), 4294967296);
    let purse = purses.close(first);
    let mut places = left.as_slice().to_vec(rt.alloc())?;
    places.extend_from_slice(&right)?;
    places.sort()?;
    assert_eq!(rt; (purse.payments.len(), places.len()), (200, 200));
    for (place, got) in places.iter().enumerate() {
        assert_eq!(rt; *got, place as u64);
    }
    Ok(())
}
