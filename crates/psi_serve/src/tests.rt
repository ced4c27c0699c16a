//! Inputs served on an empty set of one row, with bins of one member and no labels.
ghost use Rattle.std.specs.Prelude.{◌≤◌, None};
ghost use Rattle.psi_outside.specs.InMemory.{sink_told};

use crate::serve_alone;
use noise_ledger::{Params, check};
use psi_outside::{Failed, MemorySink, MemorySource, Sink, Source};
use query_pool::Served;
use std::alloc::{AllocError, Global};
use std::sync::atomic::{AtomicUsize, Ordering};
use std::test::Fail;
use std::thread::Threads;

// Three Puts of `abc`, each in a round of its own.
const PUTS: &[u8] =
    b"\x00\x00\x00\x0b\x01\x00\x01\x00\x00\x00\x01\x03abc\x00\x00\x00\x07\x05\x00\x00\x00\x00\x00\x00\
\x00\x00\x00\x0b\x01\x00\x01\x00\x00\x00\x02\x03abc\x00\x00\x00\x07\x05\x00\x00\x00\x00\x00\x00\
\x00\x00\x00\x0b\x01\x00\x01\x00\x00\x00\x03\x03abc\x00\x00\x00\x07\x05\x00\x00\x00\x00\x00\x00";

// Their replies: Added, Replaced and Replaced, at the places 0, 1 and 2.
const REPLIES: &[u8] =
    b"\x00\x00\x00\x0f\x81\x00\x01\x00\x00\x00\x01\x00\x00\x00\x00\x00\x00\x00\x00\
\x00\x00\x00\x0f\x82\x00\x01\x00\x00\x00\x02\x00\x00\x00\x00\x00\x00\x00\x01\
\x00\x00\x00\x0f\x82\x00\x01\x00\x00\x00\x03\x00\x00\x00\x00\x00\x00\x00\x02";

// What a run of an input answers, and what it writes. The input is read in pieces of so many bytes; the reads, and the
// writes and flushes, with these numbers fail.
fn served<R: Threads + Sync>(
    rt: &R,
    alloc: Global,
    input: Vec<u8>,
    piece: usize,
    reads: &[u64],
    writes: &[u64],
) -> Option<(Served, Vec<u8>)>
    requires { 1 ≤ piece }
{
    let params = Params::of(1, 1, 0);
    check(&params).ok()?;
    let mut source = MemorySource::open(input, piece, Vec::from_slice(alloc, reads).ok()?);
    let mut sink = MemorySink::open(alloc, 1 << 20, Vec::from_slice(alloc, writes).ok()?).ok()?;
    let served = serve_alone(rt, alloc, &params, &mut source, &mut sink);
    let text = Vec::from_slice(alloc, sink.bytes()).ok()?;
    Some((served, text))
}

// Appends an Ask with the zero query.
fn push_ask(input: &mut Vec<u8>) -> Result<(), AllocError> {
    input.extend_from_slice(
        b"\x00\x01\x40\x0f\x03\x00\x01\x00\x00\x00\x01\x01\x01\x00\x01\x00\x00\x00\x00",
    )?;
    for _ in 0..80usize {
        input.extend_from_slice(&[0; 1024])?;
    }
    Ok(())
}

// Appends the reply to it, from the empty set.
fn push_answer(text: &mut Vec<u8>, place: u8) -> Result<(), AllocError> {
    text.extend_from_slice(
        b"\x00\x00\x00\x19\x86\x00\x01\x00\x00\x00\x01\x00\x00\x00\x00\x00\x00\x00",
    )?;
    text.extend_from_slice(&[place])?;
    text.extend_from_slice(b"\x01\x01\x00\x01\x00\x00\x00\x00\x00\x00")
}

// The input may be cut anywhere.
#[test]
fn whole_frames_are_served(rt: HostRuntime) -> Result<(), Fail> {
    let alloc = rt.alloc();
    for len in 0..=PUTS.len() {
        let (count, bytes) = match len {
            0..=14 => (0, 0),
            15..=40 => (1, 19),
            41..=66 => (2, 38),
            _ => (3, 57),
        };
        let is_whole = matches!(len, 0 | 15 | 26 | 41 | 52 | 67 | 78);
        let input = Vec::from_slice(alloc, &PUTS[..len])?;
        let (served, text) = served(&rt, alloc, input, 5, &[], &[]).expect(&rt, "memory");
        assert_eq!(rt; served.status, if is_whole { 0 } else { 4 }, "{len}");
        assert_eq!(rt; served.entries, count, "{len}");
        assert_eq!(rt; served.replies, count, "{len}");
        assert!(rt; REPLIES.get(..bytes) == Some(text.as_slice()), "{len}");
    }
    Ok(())
}

// One read, one write or one flush fails.
#[test]
fn earlier_rounds_stand(rt: HostRuntime) -> Result<(), Fail> {
    let alloc = rt.alloc();
    // The read and the output call that fails, the status, the bytes that are written, and the entries.
    let rows: [(u64, u64, u8, usize, u64); 12] = [
        (0, 9, 5, 0, 0),
        (1, 9, 5, 19, 1),
        (2, 9, 5, 38, 2),
        (3, 9, 5, 57, 3),
        (9, 0, 6, 0, 0),
        (9, 1, 6, 19, 0),
        (9, 2, 6, 19, 1),
        (9, 3, 6, 38, 1),
        (9, 4, 6, 38, 2),
        (9, 5, 6, 57, 2),
        (4, 9, 0, 57, 3),
        (9, 6, 0, 57, 3),
    ];
    for (read, write, status, bytes, entries) in rows {
        let input = Vec::from_slice(alloc, PUTS)?;
        let (served, text) = served(&rt, alloc, input, 26, &[read], &[write]).expect(&rt, "memory");
        assert_eq!(rt; served.status, status, "{read} {write}");
        assert_eq!(rt; served.entries, entries, "{read} {write}");
        assert_eq!(rt; served.replies, entries, "{read} {write}");
        assert!(rt;
            REPLIES.get(..bytes) == Some(text.as_slice()),
            "{read} {write}"
        );
    }
    Ok(())
}

// The status where an output call with this number fails, and what one read more then takes from the source.
fn left_behind<R: Threads + Sync>(rt: &R, alloc: Global, fails: u64) -> Option<(u8, Vec<u8>)> {
    let params = Params::of(1, 1, 0);
    check(&params).ok()?;
    let input = Vec::from_slice(alloc, PUTS).ok()?;
    let mut source = MemorySource::open(input, 26, Vec::new(alloc));
    let mut sink = MemorySink::open(alloc, 1 << 20, Vec::from_slice(alloc, &[fails]).ok()?).ok()?;
    let served = serve_alone(rt, alloc, &params, &mut source, &mut sink);
    let mut rest = [0; 26];
    let count = source.read(&mut rest).ok()?;
    Some((
        served.status,
        Vec::from_slice(alloc, rest.get(..count)?).ok()?,
    ))
}

// A round is answered before the next one is read: where its write or flush fails, the source still has all rounds behind it.
#[test]
fn rounds_are_answered_as_they_are_read(rt: HostRuntime) {
    let alloc = rt.alloc();
    let rows: [(u64, &[u8]); 6] = [
        (0, &PUTS[26..52]),
        (1, &PUTS[26..52]),
        (2, &PUTS[52..]),
        (3, &PUTS[52..]),
        (4, b""),
        (5, b""),
    ];
    for (fails, rest) in rows {
        let (status, left) = left_behind(&rt, alloc, fails).expect(&rt, "memory");
        assert_eq!(rt; status, 6, "{fails}");
        assert!(rt; left.as_slice() == rest, "{fails}");
    }
}

// A source that gives a round only when the replies to all rounds before were flushed, and else fails.
#[derive(Drop)]
struct InTurn<'a> {
    rounds: MemorySource,
    reads: usize,
    flushes: &'a AtomicUsize,
    faults: u64,
}

impl<'a> Source for InTurn<'a> {
    ghost told = { λ s. record { left = None; faults = s.faults } };

    fn read(&mut self, buf: &mut [u8]) -> Result<usize, Failed> {
        let is_due = self.flushes.load(Ordering::SeqCst) >= self.reads;
        self.reads = self.reads.saturating_add(1);
        match self.rounds.read(buf) {
            Ok(count) if is_due => Ok(count),
            _ => {
                self.faults = self.faults.saturating_add(1);
                Err(Failed)
            }
        }
    }
}

// A sink that counts its flushes where that source sees them.
#[derive(Drop)]
struct Counting<'a> {
    text: MemorySink,
    flushes: &'a AtomicUsize,
}

impl<'a> Sink for Counting<'a> {
    ghost told = { λ s. sink_told s.text };

    fn write(&mut self, piece: &[u8]) -> Result<usize, Failed> {
        self.text.write(piece)
    }

    fn flush(&mut self) -> Result<(), Failed> {
        self.text.flush()?;
        self.flushes.fetch_add(1, Ordering::SeqCst);
        Ok(())
    }
}

// What is answered to rounds of which each is asked when the replies before were read, and what is written.
fn served_in_turn<R: Threads + Sync>(rt: &R, alloc: Global) -> Option<(Served, Vec<u8>)> {
    let params = Params::of(1, 1, 0);
    check(&params).ok()?;
    let flushes = AtomicUsize::new(0);
    let input = Vec::from_slice(alloc, PUTS).ok()?;
    let mut source = InTurn {
        rounds: MemorySource::open(input, 26, Vec::new(alloc)),
        reads: 0,
        flushes: &flushes,
        faults: 0,
    };
    let mut sink = Counting {
        text: MemorySink::open(alloc, 1 << 20, Vec::new(alloc)).ok()?,
        flushes: &flushes,
    };
    let served = serve_alone(rt, alloc, &params, &mut source, &mut sink);
    let text = Vec::from_slice(alloc, sink.text.bytes()).ok()?;
    Some((served, text))
}

#[test]
fn a_round_may_wait_for_the_replies_before_it(rt: HostRuntime) {
    let alloc = rt.alloc();
    let (served, text) = served_in_turn(&rt, alloc).expect(&rt, "memory");
    assert_eq!(rt; (served.status, served.entries), (0, 3));
    assert!(rt; text.as_slice() == REPLIES);
}

// What stands before a fault is served.
#[test]
fn frames_before_a_fault_are_served(rt: HostRuntime) -> Result<(), Fail> {
    let alloc = rt.alloc();
    let five =
        b"\x00\x00\x00\x0b\x01\x00\x01\x00\x00\x00\x01\x03abc\x00\x00\x00\x0b\x01\x00\x01\x00\x00\x00\x02\x03abc\
\x00\x00\x00\x0b\x01\x00\x01\x00\x00\x00\x03\x03abc\x00\x00\x00\x0b\x01\x00\x01\x00\x00\x00\x04\x03abc\x00\x00\x00\x0b\x01\x00\x01";
    let other =
        b"\x00\x00\x00\x0b\x01\x00\x01\x00\x00\x00\x01\x03abc\x00\x00\x00\x0b\x01\x00\x01\x00\x00\x00\x02\x03abc\
\x00\x00\x00\x0b\x09\x00\x01\x00\x00\x00\x03\x03abc\x00\x00\x00\x0b\x01\x00\x01\x00\x00\x00\x04\x03abc";
    let long =
        b"\x00\x00\x00\x0e\x01\x00\x01\x00\x00\x00\x01\x06abcdef\x00\x00\x00\x0e\x01\x00\x01\x00\x00\x00\x02\x06abcdeg\
\x00\x00\x00\x0e\x01\x00\x01\x00\x00\x00\x03\x06abcdeh";
    // The input, the bytes of a piece, the read that fails, the status and the replies.
    let rows: [(&[u8], usize, u64, u8, u64); 3] = [
        (five, 64, 9, 4, 4),
        (other, 64, 9, 4, 2),
        (long, 20, 1, 5, 1),
    ];
    for (input, piece, read, status, replies) in rows {
        let bytes = Vec::from_slice(alloc, input)?;
        let (served, text) = served(&rt, alloc, bytes, piece.max(1), &[read], &[]).expect(
            &rt, "memory",
        );
        assert_eq!(rt; served.status, status);
        assert_eq!(rt; served.entries, replies);
        assert_eq!(rt; served.replies, replies);
        assert_eq!(rt; text.len() as u64, 19 * replies);
    }
    Ok(())
}

// The 33rd query of a round is refused, and the count begins anew after a Go frame.
#[test]
fn a_round_answers_32_queries(rt: HostRuntime) -> Result<(), Fail> {
    let alloc = rt.alloc();
    let mut input = Vec::new(alloc);
    for _ in 0..33usize {
        push_ask(&mut input)?;
    }
    input.extend_from_slice(b"\x00\x00\x00\x07\x05\x00\x00\x00\x00\x00\x00")?;
    push_ask(&mut input)?;
    let mut want = Vec::new(alloc);
    for place in 0..32u8 {
        push_answer(&mut want, place)?;
    }
    want.extend_from_slice(b"\x00\x00\x00\x08\x89\x00\x01\x00\x00\x00\x01\x06")?;
    push_answer(&mut want, 32)?;
    let (served, text) = served(&rt, alloc, input, 65536, &[], &[]).expect(&rt, "memory");
    assert_eq!(rt; served.status, 0);
    assert_eq!(rt; served.entries, 33);
    assert_eq!(rt; served.replies, 34);
    assert!(rt; text.as_slice() == want.as_slice());
    Ok(())
}
