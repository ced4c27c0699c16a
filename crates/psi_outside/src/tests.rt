ghost use Rattle.std.specs.Prelude.{◌<◌, ◌^◌};

use super::*;
use crate::starved::Starved;
use std::alloc::{AllocError, Global};
use std::io::{ErrorKind, Read, Write};
use std::sync::Wait;
use std::test::Fail;
use std::thread::Threads;
use std::{fs, io, thread};

// What a read with room for four bytes gives, or nothing where it fails.
fn read_four<S: Source>(alloc: Global, source: &mut S) -> Result<Option<Vec<u8>>, AllocError> {
    let mut buf = [0; 4];
    match source.read(&mut buf) {
        Ok(count) => Ok(Some(buf[..count].to_vec(alloc)?)),
        Err(Failed) => Ok(None),
    }
}

// Reads a file through the trait.
fn read_within<F: Files>(
    alloc: Global,
    files: &mut F,
    name: &str,
    max: u64,
) -> Result<Vec<u8>, FileFault>
    requires { max < 2 ^ 40 }
{
    files.read_file(alloc, name, max)
}

// Whether an answer is these bytes, or this fault.
fn is_answer<E: PartialEq + Copy>(answer: &Result<Vec<u8>, E>, want: Result<&[u8], E>) -> bool {
    match (answer, want) {
        (Ok(bytes), Ok(wanted)) => bytes.as_slice() == wanted,
        (Err(fault), Err(wanted)) => *fault == wanted,
        _ => false,
    }
}

#[test]
fn a_source_in_memory_gives_pieces_and_fails_where_it_is_told(rt: HostRuntime) -> Result<(), Fail> {
    let alloc = rt.alloc();
    let bytes = b"abcde".to_vec(alloc)?;
    let mut source = MemorySource::open(bytes, 2, [1, 4].to_vec(alloc)?);
    let wants: [Option<&[u8]>; 7] = [
        Some(b"ab"),
        None,
        Some(b"cd"),
        Some(b"e"),
        None,
        Some(b""),
        Some(b""),
    ];
    for (number, want) in wants.iter().enumerate() {
        let got = read_four(alloc, &mut source)?;
        assert_eq!(rt;
            got.as_ref().map(|bytes| bytes.as_slice()),
            *want,
            "at read {number}"
        );
    }
    Ok(())
}

#[test]
fn sources_are_read_to_their_end(rt: HostRuntime) -> Result<(), Fail> {
    let alloc = rt.alloc();
    // The reads that fail, the limit, and the answer.
    let rows: [(&[u64], usize, Result<&[u8], ReadFault>); 3] = [
        (&[], 5, Ok(b"abcde")),
        (&[], 4, Err(ReadFault::TooLong)),
        (&[1], 5, Err(ReadFault::Failed)),
    ];
    for (fails, limit, want) in rows {
        let mut source = MemorySource::open(b"abcde".to_vec(alloc)?, 2, fails.to_vec(alloc)?);
        assert!(rt;
            is_answer(&read_all(alloc, &mut source, limit), want),
            "limit {limit}"
        );
    }
    Ok(())
}

#[test]
fn a_sink_in_memory_keeps_what_it_takes_and_fails_where_it_is_told(
    rt: HostRuntime,
) -> Result<(), Fail> {
    let alloc = rt.alloc();
    let mut sink = MemorySink::open(alloc, 6, [1, 3].to_vec(alloc)?)?;
    // Calls 0 to 3, of which a write and a flush fail.
    assert_eq!(rt; sink.write(b"abc").ok(), Some(3));
    assert_eq!(rt; sink.write(b"d").ok(), None);
    assert_eq!(rt; sink.flush().ok(), Some(()));
    assert_eq!(rt; sink.flush().ok(), None);
    // There is room for three more.
    assert_eq!(rt; write_all(&mut sink, b"defg").ok(), None);
    assert_eq!(rt; sink.bytes(), b"abc".as_slice());
    assert_eq!(rt; write_all(&mut sink, b"def").ok(), Some(()));
    assert_eq!(rt; write_all(&mut sink, b"").ok(), Some(()));
    assert_eq!(rt; sink.bytes(), b"abcdef".as_slice());
    Ok(())
}

#[test]
fn files_in_memory_are_read_whole_or_refused(rt: HostRuntime) -> Result<(), Fail> {
    let alloc = rt.alloc();
    let list = vec![in alloc;
        (String::from_str(alloc, "full")?, b"abc".to_vec(alloc)?),
        (String::from_str(alloc, "empty")?, Vec::new(alloc)),
    ]?;
    let mut files = MemoryFiles::open(list, [3].to_vec(alloc)?);
    // The fourth read fails.
    let rows: [(&str, u64, Result<&[u8], FileFault>); 5] = [
        ("full", 3, Ok(b"abc")),
        ("full", 2, Err(FileFault::TooLong { max: 2 })),
        ("missing", 9, Err(FileFault::Failed)),
        ("empty", 9, Err(FileFault::Failed)),
        ("empty", 0, Ok(b"")),
    ];
    for (name, max, want) in rows {
        assert!(rt;
            is_answer(&read_within(alloc, &mut files, name, max.min(9)), want),
            "{name}"
        );
    }
    Ok(())
}

// A reader and a writer that take nothing: a read fails for this reason, and the writer takes no byte and does not
// flush.
#[derive(Drop)]
struct Blocked(ErrorKind);

impl Read for Blocked {
    fn read(&mut self, _buf: &mut [u8]) -> io::Result<usize> {
        Err(io::Error::from(self.0))
    }
}

impl Write for Blocked {
    fn write(&mut self, _buf: &[u8]) -> io::Result<usize> {
        Ok(0)
    }

    fn flush(&mut self) -> io::Result<()> {
        Err(io::Error::from(self.0))
    }
}

// A writer of which the first calls fail, and which then takes all and counts its flushes.
#[derive(Drop)]
struct Recovering {
    fails: u32,
    taken: usize,
    flushes: u32,
}

impl Recovering {
    // A call, which fails as long as it has to.
    fn call(&mut self) -> io::Result<()> {
        if self.fails > 0 {
            self.fails -= 1;
            return Err(io::Error::from(ErrorKind::BrokenPipe));
        }
        Ok(())
    }
}

impl Write for Recovering {
    fn write(&mut self, buf: &[u8]) -> io::Result<usize> {
        self.call()?;
        self.taken = self.taken.saturating_add(buf.len());
        Ok(buf.len())
    }

    fn flush(&mut self) -> io::Result<()> {
        self.call()?;
        self.flushes = self.flushes.saturating_add(1);
        Ok(())
    }
}

// A sink over a writer hands each call on: a fresh one flushes, and one that failed goes on.
#[test]
fn a_writer_is_flushed_and_goes_on_after_a_fault(rt: HostRuntime) {
    let mut writer = Recovering {
        fails: 0,
        taken: 0,
        flushes: 0,
    };
    let mut fresh = WriterSink::open(&mut writer);
    assert_eq!(rt; fresh.flush().ok(), Some(()));
    assert_eq!(rt; writer.flushes, 1);
    writer.fails = 2;
    let mut sink = WriterSink::open(&mut writer);
    assert_eq!(rt;
        [sink.write(b"abc").ok(), sink.write(b"abc").ok()],
        [None, None]
    );
    assert_eq!(rt; sink.write(b"abc").ok(), Some(3));
    assert_eq!(rt; sink.flush().ok(), Some(()));
    assert_eq!(rt; (writer.taken, writer.flushes), (3, 2));
}

#[test]
fn readers_and_writers_of_std_serve(rt: HostRuntime) -> Result<(), Fail> {
    let alloc = rt.alloc();
    let mut source = ReaderSource::open(b"abcde".as_slice());
    for want in [b"abcd".as_slice(), b"e".as_slice(), b"".as_slice()] {
        let got = read_four(alloc, &mut source)?.ok_or("failed")?;
        assert_eq!(rt; got.as_slice(), want);
    }
    for kind in [ErrorKind::BrokenPipe, ErrorKind::OutOfMemory] {
        let mut broken = ReaderSource::open(Blocked(kind));
        assert!(rt; is_answer(&read_all(alloc, &mut broken, 9), Err(ReadFault::Failed)));
    }

    let mut bytes = Vec::new(alloc);
    let mut sink = WriterSink::open(&mut bytes);
    assert_eq!(rt; write_all(&mut sink, b"abc").ok(), Some(()));
    assert_eq!(rt; bytes.as_slice(), b"abc".as_slice());
    let mut full = WriterSink::open(Blocked(ErrorKind::BrokenPipe));
    assert_eq!(rt; full.write(b"abc").ok(), None);
    assert_eq!(rt; full.flush().ok(), None);
    Ok(())
}

// A value that may be used from several threads, by another one.
fn crosses<T: Send + Sync + Drop, R: Threads + Sync>(rt: &R, value: T) -> T {
    let (value, _) = thread::join(rt, move || value, || ());
    value
}

fn pass_at_each_point<G: Gate, R: Threads + Wait + Sync>(gate: &G, rt: &R) {
    for point in [
        Point::BeforeTurn,
        Point::AfterTurn,
        Point::BeforeCommit,
        Point::BeforeInstall,
    ] {
        gate.pass(rt, point, 0);
    }
}

#[test]
fn objects_cross_threads_and_an_open_gate_lets_pass(rt: HostRuntime) -> Result<(), Fail> {
    let alloc = rt.alloc();
    let mut source = crosses(
        &rt,
        MemorySource::open(b"abc".to_vec(alloc)?, 3, Vec::new(alloc)),
    );
    let got = read_four(alloc, &mut source)?.ok_or("failed")?;
    assert_eq!(rt; got.as_slice(), b"abc".as_slice());
    let mut sink = crosses(&rt, MemorySink::open(alloc, 3, Vec::new(alloc))?);
    assert_eq!(rt; write_all(&mut sink, b"abc").ok(), Some(()));
    let mut files = crosses(&rt, MemoryFiles::open(Vec::new(alloc), Vec::new(alloc)));
    assert!(rt;
        is_answer(
            &read_within(alloc, &mut files, "a", 9),
            Err(FileFault::Failed)
        )
    );
    let mut reader = crosses(&rt, ReaderSource::open(b"abc".as_slice()));
    assert!(rt; is_answer(&read_all(alloc, &mut reader, 3), Ok(b"abc")));
    let mut writer = crosses(&rt, WriterSink::open(Vec::new(alloc)));
    assert_eq!(rt; writer.write(b"abc").ok(), Some(3));
    let mut disk = crosses(&rt, DiskFiles::open(&rt));
    assert!(rt;
        is_answer(
            &read_within(alloc, &mut disk, "a", 9),
            Err(FileFault::Failed)
        )
    );
    pass_at_each_point(&Open, &rt);
    Ok(())
}

#[test]
fn a_held_gate_waits_for_what_was_not_passed(rt: HostRuntime) -> Result<(), Fail> {
    let alloc = rt.alloc();
    let before = (Point::BeforeTurn, 0);
    let after = (Point::AfterTurn, 0);
    // What is passed, and then whether the limit was used up and whether each of two holds was met.
    let before_other = (Point::BeforeTurn, 1);
    let after_other = (Point::AfterTurn, 1);
    let rows: [(&[(Point, u32)], bool, [bool; 2]); 5] = [
        (&[before], true, [false, false]),
        (&[after, before], false, [true, false]),
        (&[after_other, before], true, [false, true]),
        (&[after_other, before_other], false, [false, true]),
        (&[after, before_other], true, [true, false]),
    ];
    for (passes, late, met) in rows {
        let holds = vec![in alloc;
            Hold {
                at: before,
                until: after
            },
            Hold {
                at: before_other,
                until: after_other
            },
        ]?;
        let held = Held::open(8, holds);
        for &(point, index) in passes {
            held.pass(&rt, point, index);
        }
        assert_eq!(rt; held.late(&rt), late);
        assert_eq!(rt; [held.met(&rt, 0), held.met(&rt, 1)], met);
    }
    Ok(())
}

#[test]
fn files_on_the_disk_are_read_whole_or_refused(rt: HostRuntime) -> Result<(), Fail> {
    let alloc = rt.alloc();
    fs::write(&rt, "full", "abc")?;
    let mut files = DiskFiles::open(&rt);
    // A folder opens, and cannot be read.
    let rows: [(&str, u64, Result<&[u8], FileFault>); 4] = [
        ("full", 3, Ok(b"abc")),
        ("full", 2, Err(FileFault::TooLong { max: 2 })),
        ("missing", 9, Err(FileFault::Failed)),
        (".", 9, Err(FileFault::Failed)),
    ];
    for (name, max, want) in rows {
        assert!(rt;
            is_answer(&read_within(alloc, &mut files, name, max.min(9)), want),
            "{name}"
        );
    }
    let mut starved = DiskFiles::open(&Starved);
    let answer = read_within(alloc, &mut starved, "full", 9);
    assert!(rt; is_answer(&answer, Err(FileFault::NoMemory)));
    Ok(())
}
