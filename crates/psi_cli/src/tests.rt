//! Whole runs over memory: the status and what was written.
ghost use Rattle.std.specs.Prelude.{IfOk, IfSome};
ghost use Rattle.psi_frames.specs.Requests.{IsFit};
ghost use Rattle.psi_outside.specs.InMemory.{DifferInName, file_entries};

use crate::run::psi_run;
use item_slots::{Tag, tag_from};
use noise_ledger::{Params, check};
use psi_bundle::Label;
use psi_frames::{Reply, Request};
use psi_outside::{Gate, Held, Hold, MemoryFiles, MemorySink, MemorySource, Open, Point};
use psi_receiver::{ask_tags, open_tags};
use psi_words::help_text;
use query_codec::{Ciphertexts, read_query};
use query_pool::round_alone;
use sender_core::Book;
use std::alloc::{AllocError, Global};
use std::sync::Wait;
use std::test::Fail;
use std::thread::Threads;

const SEED: &str = "000102030405060708090a0b0c0d0e0f101112131415161718191a1b1c1d1e1f";

// Puts of the item abc, in session 1: number 1 without a label, and numbers 1 and 2 with ten bytes 01 and ten bytes 02.
const PUT: &[u8] = b"\x00\x00\x00\x0b\x01\x00\x01\x00\x00\x00\x01\x03abc";

const PUT_ONES: &[u8] =
    b"\x00\x00\x00\x15\x01\x00\x01\x00\x00\x00\x01\x03abc\x01\x01\x01\x01\x01\x01\x01\x01\x01\x01";

const PUT_TWOS: &[u8] =
    b"\x00\x00\x00\x15\x01\x00\x01\x00\x00\x00\x02\x03abc\x02\x02\x02\x02\x02\x02\x02\x02\x02\x02";

const DROP: &[u8] = b"\x00\x00\x00\x0b\x02\x00\x01\x00\x00\x00\x02\x03abc";

// The replies to the first put, and to the drop behind it.
const ADDED: &[u8] =
    b"\x00\x00\x00\x0f\x81\x00\x01\x00\x00\x00\x01\x00\x00\x00\x00\x00\x00\x00\x00";

const REMOVED: &[u8] =
    b"\x00\x00\x00\x0f\x83\x00\x01\x00\x00\x00\x02\x00\x00\x00\x00\x00\x00\x00\x01";

// The reply to the zero query, number 1 of session 1, at place 0, from the empty set.
const NO_BUNDLE: &[u8] =
    b"\x00\x00\x00\x19\x86\x00\x01\x00\x00\x00\x01\x00\x00\x00\x00\x00\x00\x00\x00\x01\x01\x00\x01\x00\x00\x00\x00\x00\x00";

// The same query at place 1, from a set of one bundle: its reply up to the bundle's plane, whose bytes follow.
const ONE_BUNDLE: &[u8] =
    b"\x00\x01\x40\x19\x86\x00\x01\x00\x00\x00\x01\x00\x00\x00\x00\x00\x00\x00\x01\x01\x01\x00\x01\x00\x00\x00\x00\x00\x01";

// A put of the item abc, number 1 of session 2, and the replies to it at the places 0 and 1.
const OTHER_PUT: &[u8] = b"\x00\x00\x00\x0b\x01\x00\x02\x00\x00\x00\x01\x03abc";

const ADDED_FIRST: &[u8] =
    b"\x00\x00\x00\x0f\x81\x00\x02\x00\x00\x00\x01\x00\x00\x00\x00\x00\x00\x00\x00";

const ADDED_SECOND: &[u8] =
    b"\x00\x00\x00\x0f\x81\x00\x02\x00\x00\x00\x01\x00\x00\x00\x00\x00\x00\x00\x01";

// A seed of zeros.
const ZEROS: &str = "0000000000000000000000000000000000000000000000000000000000000000";

// What a run leaves: its status, and the bytes that it wrote.
type Left = (u8, Vec<u8>);

// The words of a command line.
fn given_words(alloc: Global, words: &[&str]) -> Result<Vec<String>, AllocError> {
    let mut given = Vec::new(alloc);
    for word in words {
        given.push(String::from_str(alloc, word)?)?;
    }
    Ok(given)
}

// A file `answer` with these bytes, and no other.
fn one_file(alloc: Global, bytes: &[u8]) -> Result<Vec<(String, Vec<u8>)>, AllocError>
    ensures { IfOk result (λ files. DifferInName (file_entries files.items)) }
{
    let mut files = Vec::new(alloc);
    files.push((String::from_str(alloc, "answer")?, bytes.to_vec(alloc)?))?;
    Ok(files)
}

// A run on these words, this source, and a file `answer`.
fn run<R: Threads + Wait + Sync>(
    rt: &R,
    alloc: Global,
    words: &[&str],
    bytes: &[u8],
    answer: &[u8],
) -> Result<Left, AllocError> {
    run_past(rt, alloc, words, bytes, answer, &Open)
}

// The same, with a gate that its threads pass.
fn run_past<R: Threads + Wait + Sync, G: Gate>(
    rt: &R,
    alloc: Global,
    words: &[&str],
    bytes: &[u8],
    answer: &[u8],
    gate: &G,
) -> Result<Left, AllocError> {
    let given = given_words(alloc, words)?;
    let files = one_file(alloc, answer)?;
    let mut source = MemorySource::open(bytes.to_vec(alloc)?, 8192, Vec::new(alloc));
    let mut sink = MemorySink::open(alloc, 1 << 20, Vec::new(alloc))?;
    let mut files = MemoryFiles::open(files, Vec::new(alloc));
    let status = psi_run(rt, alloc, &given, &mut source, &mut files, &mut sink, gate);
    Ok((status, sink.bytes().to_vec(alloc)?))
}

#[test]
fn words_and_parameters_end_with_their_status(rt: HostRuntime) -> Result<(), Fail> {
    let rows: [(&[&str], u8, &str); 11] = [
        (&["serve", "1", "1", "0", "9", "0"], 2, ""),
        (&["find", "1"], 2, ""),
        (&["demo", "1", "9"], 2, ""),
        (&["serve", "0", "1", "0", "1", "0"], 3, ""),
        (&["help"], 0, help_text()),
        (
            &["params", "1", "2244", "0"],
            0,
            "\
ciphertexts 2244
query 183828488
carry 602359971982
noise 36015102917820702
used 4720643599858264736316
modulus 4722344527977019809793
",
        ),
        (
            &["params", "1", "2245", "0"],
            3,
            "refused noise 4722747273476240663100\n",
        ),
        (&["params", "1", "2401", "0"], 3, "refused size 2401 2402\n"),
        (&["params", "1", "4096", "0"], 3, "refused range 2\n"),
        (
            &["form2", "0", "params", "1", "1", "0"],
            3,
            "refused range 0\n",
        ),
        (
            &["counted", "params", "1", "1", "1"],
            3,
            "refused range 6\n",
        ),
    ];
    for (words, status, text) in rows {
        let (found, written) = run(&rt, rt.alloc(), words, b"", b"")?;
        assert_eq!(rt; found, status);
        assert_eq!(rt; written.as_slice(), text.as_bytes());
    }
    Ok(())
}

// The zero query of session 1 with this number.
fn zero_query(alloc: Global, number: u8) -> Result<Vec<u8>, AllocError> {
    let mut bytes = b"\x00\x01\x40\x0f\x03\x00\x01\x00\x00\x00".to_vec(alloc)?;
    bytes.extend_from_slice(&[number, 1, 1, 0, 1, 0, 0, 0, 0])?;
    bytes.extend_from_slice(&vec![in alloc; 0; 81920]?)?;
    Ok(bytes)
}

#[test]
fn the_zero_query_of_the_empty_set_is_answered(rt: HostRuntime) -> Result<(), Fail> {
    let alloc = rt.alloc();
    for workers in ["1", "4"] {
        let words = ["serve", "1", "1", "0", workers, "0"];
        let (status, text) = run(&rt, alloc, &words, &zero_query(alloc, 1)?, b"")?;
        assert_eq!(rt; status, 0, "{workers}");
        assert_eq!(rt; text.as_slice(), NO_BUNDLE, "{workers}");
    }
    Ok(())
}

// The reply to the zero query, number 3 at place 2, of one bundle without members: the scale in the first coefficient of c0, by
// both residues, and zeros.
fn emptied(alloc: Global) -> Result<Vec<u8>, AllocError> {
    let mut text =
        b"\x00\x01\x40\x19\x86\x00\x01\x00\x00\x00\x03\x00\x00\x00\x00\x00\x00\x00\x02\x01\x01\x00\x01\x00\x00\x00\x00\x00\x01".to_vec(
            alloc,
        )?;
    text.extend_from_slice(b"\x04\x01\x4b\xb6\x9c")?;
    text.extend_from_slice(&vec![in alloc; 0; 20475]?)?;
    text.extend_from_slice(b"\x0e\x01\x1e\xb6\x9a")?;
    text.extend_from_slice(&vec![in alloc; 0; 20475]?)?;
    text.extend_from_slice(&vec![in alloc; 0; 40960]?)?;
    Ok(text)
}

#[test]
fn an_emptied_bundle_answers_the_scale(rt: HostRuntime) -> Result<(), Fail> {
    let alloc = rt.alloc();
    let mut bytes = PUT.to_vec(alloc)?;
    bytes.extend_from_slice(DROP)?;
    bytes.extend_from_slice(&zero_query(alloc, 3)?)?;
    let (status, text) = run(&rt, alloc, &["replay", "1", "1", "0"], &bytes, b"")?;
    let mut want = ADDED.to_vec(alloc)?;
    want.extend_from_slice(REMOVED)?;
    want.extend_from_slice(&emptied(alloc)?)?;
    assert_eq!(rt; status, 0);
    assert!(rt; text.as_slice() == want.as_slice());
    Ok(())
}

// What `open` writes for some items, from the answer to their query behind some puts, whose replies have so many bytes.
fn opened_behind<R: Threads + Wait + Sync>(
    rt: &R,
    alloc: Global,
    [capacity, units]: [&str; 2],
    puts: &[u8],
    size: usize,
) -> Result<Left, AllocError> {
    let items = b"abc\nxyz\nabc";
    let asked = ["ask", "1", capacity, units, SEED, "1", "3"];
    let (_, query) = run(rt, alloc, &asked, items, b"")?;
    let mut bytes = puts.to_vec(alloc)?;
    bytes.extend_from_slice(&query)?;
    let served = ["serve", "1", capacity, units, "1", "0"];
    let (_, replies) = run(rt, alloc, &served, &bytes, b"")?;
    let answer = replies.as_slice().get(size..).unwrap_or(b"");
    let opened = ["open", "1", capacity, units, SEED, "answer"];
    run(rt, alloc, &opened, items, answer)
}

// At capacity 4 without a label, and at capacity 1 with the label that came last.
#[test]
fn a_member_is_found_in_its_bundle_with_its_label(rt: HostRuntime) -> Result<(), Fail> {
    let alloc = rt.alloc();
    let mut twice = PUT_ONES.to_vec(alloc)?;
    twice.extend_from_slice(PUT_TWOS)?;
    let rows: [([&str; 2], &[u8], usize, &str); 2] = [
        (["4", "0"], PUT, 19, "616263 0 -\n"),
        (["1", "1"], &twice, 38, "616263 0 02020202020202020202\n"),
    ];
    for (form, puts, size, want) in rows {
        let (status, text) = opened_behind(&rt, alloc, form, puts, size)?;
        assert_eq!(rt; status, 0);
        assert_eq!(rt; text.as_slice(), want.as_bytes());
    }
    Ok(())
}

// What `open` leaves on the item abc, with the file of this name: there is a file `answer` with these bytes, and the reads
// of files with these numbers fail.
fn open_abc<R: Threads + Wait + Sync>(
    rt: &R,
    alloc: Global,
    name: &str,
    bytes: &[u8],
    fails: &[u64],
) -> Result<Left, AllocError> {
    let given = given_words(alloc, &["open", "1", "1", "0", ZEROS, name])?;
    let mut source = MemorySource::open(b"abc".to_vec(alloc)?, 8192, Vec::new(alloc));
    let mut files = MemoryFiles::open(one_file(alloc, bytes)?, fails.to_vec(alloc)?);
    let mut sink = MemorySink::open(alloc, 1 << 20, Vec::new(alloc))?;
    let status = psi_run(rt, alloc, &given, &mut source, &mut files, &mut sink, &Open);
    Ok((status, sink.bytes().to_vec(alloc)?))
}

#[test]
fn files_that_are_no_answer_are_refused(rt: HostRuntime) -> Result<(), Fail> {
    let alloc = rt.alloc();
    let mut longer = NO_BUNDLE.to_vec(alloc)?;
    longer.push(0)?;
    let greatest = vec![in alloc; 0; 5242916]?;
    let rows: [(&str, &[u8], &[u64], u8); 7] = [
        ("missing", NO_BUNDLE, &[], 5),
        ("answer", NO_BUNDLE, &[0], 5),
        ("answer", b"", &[], 4),
        ("answer", ADDED, &[], 4),
        ("answer", &longer, &[], 4),
        ("answer", NO_BUNDLE, &[], 0),
        ("answer", &greatest, &[], 4),
    ];
    for (row, (name, bytes, fails, want)) in rows.into_iter().enumerate() {
        let (status, written) = open_abc(&rt, alloc, name, bytes, fails)?;
        assert_eq!(rt; status, want, "{row}");
        assert!(rt; written.is_empty(), "{row}");
    }
    Ok(())
}

// A query of session 1 and a put of session 2, in one round.
fn two_sessions(alloc: Global) -> Result<Vec<u8>, AllocError> {
    let mut bytes = zero_query(alloc, 1)?;
    bytes.extend_from_slice(OTHER_PUT)?;
    Ok(bytes)
}

// Either session may come first.
#[test]
fn two_sessions_are_answered_in_one_order(rt: HostRuntime) -> Result<(), Fail> {
    let alloc = rt.alloc();
    let words = ["serve", "1", "1", "0", "4", "0"];
    let (status, text) = run(&rt, alloc, &words, &two_sessions(alloc)?, b"")?;
    let query_first = text.starts_with(NO_BUNDLE)
        && text.ends_with(ADDED_SECOND)
        && text.len() == NO_BUNDLE.len() + ADDED_SECOND.len();
    let put_first = text.starts_with(ONE_BUNDLE)
        && text.ends_with(ADDED_FIRST)
        && text.len() == ONE_BUNDLE.len() + 81920 + ADDED_FIRST.len();
    assert_eq!(rt; status, 0);
    assert!(rt; query_first || put_first);
    Ok(())
}

// The put waits for the query's turn, and its turn comes before the query is evaluated. Neither comes to its turn before both
// are there, so their lanes run beside each other.
#[test]
fn held_sessions_run_beside_each_other(rt: HostRuntime) -> Result<(), Fail> {
    let alloc = rt.alloc();
    let holds = vec![in alloc;
        Hold {
            at: (Point::BeforeTurn, 1),
            until: (Point::AfterTurn, 0)
        },
        Hold {
            at: (Point::AfterTurn, 0),
            until: (Point::AfterTurn, 1)
        },
        Hold {
            at: (Point::BeforeTurn, 0),
            until: (Point::BeforeTurn, 1)
        },
        Hold {
            at: (Point::BeforeTurn, 1),
            until: (Point::BeforeTurn, 0)
        },
    ]?;
    let gate = Held::open(1 << 26, holds);
    let words = ["serve", "1", "1", "0", "4", "0"];
    let (status, text) = run_past(&rt, alloc, &words, &two_sessions(alloc)?, b"", &gate)?;
    let mut want = NO_BUNDLE.to_vec(alloc)?;
    want.extend_from_slice(ADDED_SECOND)?;
    assert_eq!(rt; status, 0);
    assert_eq!(rt; text.as_slice(), want.as_slice());
    assert!(rt; !gate.late(&rt));
    for hold in 0..4u32 {
        assert!(rt; gate.met(&rt, hold), "{hold}");
    }
    Ok(())
}

// The summary of the replies to the script of 7.
const SUMMARY: &str = "demo 7\nreplies 441\nadded 400\nremoved 37\nasks 3\nstable 38 38 38\n";

#[test]
fn a_script_is_served_and_counted(rt: HostRuntime) -> Result<(), Fail> {
    let (status, text) = run(&rt, rt.alloc(), &["demo", "7", "2"], b"", b"")?;
    assert_eq!(rt; status, 0);
    assert_eq!(rt; text.as_slice(), SUMMARY.as_bytes());
    Ok(())
}

// The tags of one bin with the slot values 1 to 5 and 6 to 10, and one that has the values of both by turns.
const FIRST: [u8; 22] = [
    0, 1, 0, 2, 0, 3, 0, 4, 0, 5, 0, 0, 0, 0, 0, 0, 0, 0, 0, 0, 0, 0,
];

const SECOND: [u8; 22] = [
    0, 6, 0, 7, 0, 8, 0, 9, 0, 10, 0, 0, 0, 0, 0, 0, 0, 0, 0, 0, 0, 0,
];

const STRANGER: [u8; 22] = [
    0, 1, 0, 7, 0, 3, 0, 9, 0, 5, 0, 0, 0, 0, 0, 0, 0, 0, 0, 0, 0, 0,
];

// A Put of a tag, with a label of one unit.
fn put_of(number: u32, tag: Tag, label: &[u8; 10]) -> Option<Request>
    ensures { IfSome result (IsFit (record { form = 1; rows = 1; capacity = 2; units = 1; drop = 0; spare = 0 })) }
{
    let label = Label::of(label)?;
    Some(Request::Put {
        session: 1,
        number,
        tag,
        label,
    })
}

// An Ask with two ciphertexts.
fn ask_of(query: Ciphertexts) -> Option<Request>
    ensures { IfSome result (IsFit (record { form = 1; rows = 1; capacity = 2; units = 1; drop = 0; spare = 0 })) }
{
    if query.items().len() != 2 {
        return None;
    }
    Some(Request::Ask {
        session: 1,
        number: 3,
        query,
    })
}

// What a set of two members answers to the query of a stranger: the number of found items, and the first one's bundle and label.
fn stranger_found<R: Threads + Sync>(rt: &R, alloc: Global) -> Option<(usize, u16, Label)> {
    let params = Params::of(1, 2, 1);
    if check(&params).is_err() {
        return None;
    }
    let seed = [7; 32];
    let stranger = [tag_from(STRANGER)];
    let query = ask_tags(rt, alloc, &params, &seed, &stranger).ok()?;
    let query = Ciphertexts::of(read_query(alloc, &params, &query).ok()?);
    let first = put_of(1, tag_from(FIRST), &[0, 11, 0, 12, 0, 13, 0, 14, 0, 15])?;
    let second = put_of(2, tag_from(SECOND), &[0, 21, 0, 22, 0, 23, 0, 24, 0, 25])?;
    let book = Book::open(alloc, &params).ok()?;
    let requests = vec![in alloc; first, second, ask_of(query)?].ok()?;
    let round = round_alone(rt, alloc, &params, book, requests).ok()?;
    let Reply::Answer { body, .. } = &round.replies[2] else {
        return None;
    };
    let mut found = open_tags(rt, alloc, &params, &seed, &stranger, body.items()).ok()?;
    let number = found.len();
    let last = found.pop()?;
    Some((number, last.bundle, last.label))
}

#[test]
fn a_stranger_that_shares_each_value_is_found(rt: HostRuntime) {
    let found = stranger_found(&rt, rt.alloc());
    let (number, bundle, label) = found.expect(&rt, "memory");
    assert_eq!(rt; (number, bundle), (1, 0));
    assert!(rt; label.bytes() == [0, 11, 0, 22, 0, 13, 0, 24, 0, 15].as_slice());
}
