//! Numbered work that threads take in turns.
ghost use Rattle.std.specs.Prelude.{◌≡◌, ◌<◌, ◌≤◌, ℕ, IfOk, IfSome, None, Ok, length, map};
ghost use Rattle.std.specs.Fn.{FnReturns};
ghost use Rattle.std.specs.List.{All};
ghost use Rattle.std.specs.Fork.{GivesEach};
ghost use Rattle.std.specs.Thread.{IsSync, IsSend};
ghost use Rattle.psi_receiver.specs.Works.{AreInPlace, IsWork};

use rayon::{current_num_threads, join};
use std::alloc::{AllocError, Global};
use std::sync::atomic::{AtomicUsize, Ordering};
use std::thread::Threads;

// What the work of a number came to.
#[derive(Drop)]
struct Done<X> {
    number: usize,
    value: X,
}

// The most threads that are started.
const MOST_THREADS: usize = 32;

/// f(0) to f(count - 1), in order. Threads, one for each processor and 32 at most, draw one number after another, whichever
/// is free, so that a processor that is slowed down takes fewer. It fails only for want of memory.
pub fn map_in_turns<R: Threads + Sync, X: Send + Drop, F: Fn(usize) -> X + Sync>(
    rt: &R,
    alloc: Global,
    count: usize,
    f: &F,
) -> Result<Vec<X>, AllocError>
    requires { (i : ℕ) → i < count → F.pre f.now i }
    ensures len { IfOk result (λ v. length v.items ≡ count) }
    ensures each { IfOk result (λ v. GivesEach F.Fn f.now count v.items) }
{
    let threads = current_num_threads(rt).min(count).min(MOST_THREADS);
    let next = AtomicUsize::new(0);
    let parts = in_threads(rt, alloc, threads, &next, count, f)?;
    in_order(alloc, count, parts, f)
}

// The work of so many threads, all but one of which this one starts. (Where a new thread starts the next one, as halves of a
// chain do, both may be put on one processor, and another one stays idle.)
#[cycle(threads)]
fn in_threads<R: Threads + Sync, X: Send + Drop, F: Fn(usize) -> X + Sync>(
    rt: &R,
    alloc: Global,
    threads: usize,
    next: &AtomicUsize,
    count: usize,
    f: &F,
) -> Result<Vec<Vec<Done<X>>>, AllocError>
    requires { (i : ℕ) → i < count → F.pre f.now i }
    ensures { IfOk result (λ parts. All (λ part.
        All (λ done. IsWork F.Fn f.now count done.number done.value) part.items) parts.items) }
{
    if threads < 2 {
        let mut parts = Vec::new(alloc);
        parts.push(take_turns(alloc, next, count, f)?)?;
        return Ok(parts);
    }
    let one = move || -> Result<Vec<Done<X>>, AllocError>
        requires { IsSync F.row × IsSend X.row × ((i : ℕ) → i < count → F.pre f.now i) }
        ensures { IfOk result (λ part. All (λ done.
            IsWork F.Fn f.entry.now count done.number done.value) part.items) }
    { take_turns(alloc, next, count, f) };
    let others = move || -> Result<Vec<Vec<Done<X>>>, AllocError>
        requires { IsSync R.row × IsSync F.row × IsSend X.row × (2 ≤ threads) ×
            ((i : ℕ) → i < count → F.pre f.now i) }
        ensures { IfOk result (λ parts. All (λ part. All (λ done.
            IsWork F.Fn f.entry.now count done.number done.value) part.items) parts.items) }
    { in_threads(rt, alloc, threads - 1, next, count, f) };
    let (part, parts) = join(rt, one, others);
    let mut parts = parts?;
    parts.push(part?)?;
    Ok(parts)
}

// The work of the numbers that one thread draws. No two threads draw the same one, but nothing rests on that.
fn take_turns<X: Drop, F: Fn(usize) -> X>(
    alloc: Global,
    next: &AtomicUsize,
    count: usize,
    f: &F,
) -> Result<Vec<Done<X>>, AllocError>
    requires { (i : ℕ) → i < count → F.pre f.now i }
    ensures { IfOk result (λ part. All (λ done.
        IsWork F.Fn f.now count done.number done.value) part.items) }
{
    let mut part = Vec::new(alloc);
    for _ in 0..count {
        let number = next.fetch_add(1, Ordering::SeqCst);
        if number >= count {
            break;
        }
        part.push(Done {
            number,
            value: f(number),
        })?;
    }
    Ok(part)
}

// The values in the order of their numbers. Work that no thread did is done here.
fn in_order<X: Drop, F: Fn(usize) -> X>(
    alloc: Global,
    count: usize,
    parts: Vec<Vec<Done<X>>>,
    f: &F,
) -> Result<Vec<X>, AllocError>
    requires callable { (i : ℕ) → i < count → F.pre f.now i }
    requires done { All (λ part.
        All (λ done. IsWork F.Fn f.now count done.number done.value) part.items) parts.items }
    ensures len { IfOk result (λ v. length v.items ≡ count) }
    ensures each { IfOk result (λ v. GivesEach F.Fn f.now count v.items) }
{
    let places = in_places(alloc, count, parts, f)?;
    let mut values = Vec::with_capacity(alloc, count)?;
    for place in places {
        let value = value_at(values.len(), place, f);
        values.push(value)?;
    }
    Ok(values)
}

// The value of a number, which is made here where no thread made it.
fn value_at<X: Drop, F: Fn(usize) -> X>(number: usize, place: Option<X>, f: &F) -> X
    requires callable { F.pre f.now number }
    requires placed { IfSome place (FnReturns F.Fn f.now (number, tt)) }
    ensures { FnReturns F.Fn f.now (number, tt) result }
{
    match place {
        Some(value) => value,
        None => f(number),
    }
}

// The values, each at the place of its number. (The contract alone names `f`.)
fn in_places<X: Drop, F: Fn(usize) -> X>(
    alloc: Global,
    count: usize,
    parts: Vec<Vec<Done<X>>>,
    f: &F,
) -> Result<Vec<Option<X>>, AllocError>
    requires done { All (λ part.
        All (λ done. IsWork F.Fn f.now count done.number done.value) part.items) parts.items }
    ensures { IfOk result (λ places. AreInPlace F.Fn f.now count places.items) }
{
    let mut places = no_values(alloc, count)?;
    for part in parts {
        put_part(part, &mut places, f);
    }
    Ok(places)
}

// So many places without a value.
fn no_values<X: Drop>(alloc: Global, count: usize) -> Result<Vec<Option<X>>, AllocError>
    ensures size { IfOk result (λ places. length places.items ≡ count) }
    ensures none { IfOk result (λ places. All (λ place. place ≡ None) places.items) }
{
    let mut places = Vec::with_capacity(alloc, count)?;
    for _ in 0..count {
        places.push(None)?;
    }
    Ok(places)
}

// Puts the work of one thread in its places. (The contract alone names `f`.)
fn put_part<X: Drop, F: Fn(usize) -> X>(part: Vec<Done<X>>, places: &mut [Option<X>], f: &F)
    requires done { All (λ done. IsWork F.Fn f.now
        (length places.old) done.number done.value) part.items }
    requires in_place { AreInPlace F.Fn f.now (length places.old) places.old }
    ensures size { length places.new ≡ length places.old }
    ensures in_place { AreInPlace F.Fn f.now (length places.old) places.new }
{
    for done in part {
        let Done { number, value } = done;
        places[number] = Some(value);
    }
}

/// The values of results, if none is an error.
pub fn values_of<X: Drop, E: From<AllocError> + Drop>(
    alloc: Global,
    results: Vec<Result<X, E>>,
) -> Result<Vec<X>, E>
    ensures { IfOk result (λ values. results.items ≡ map Ok values.items) }
{
    let mut values = Vec::with_capacity(alloc, results.len())?;
    for result in results {
        values.push(result?).map_err(AllocError::from)?;
    }
    Ok(values)
}
