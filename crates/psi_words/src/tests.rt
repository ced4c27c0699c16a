use super::*;
use std::alloc::{AllocError, Global};

// Lines of `ask` with one seed, the bytes 160 to 191, in digits of either case.
const ASKS: [&str; 3] = [
    "ask 1 8 2 a0a1a2a3a4a5a6a7a8a9aaabacadaeafb0b1b2b3b4b5b6b7b8b9babbbcbdbebf 65535 4294967295",
    "ask 1 8 2 A0A1A2A3A4A5A6A7A8A9AAABACADAEAFB0B1B2B3B4B5B6B7B8B9BABBBCBDBEBF 65535 4294967295",
    "ask 1 8 2 a0a1a2a3a4a5a6a7a8a9AaAbAcAdAeAfb0b1b2b3b4b5b6b7b8b9BaBbBcBdBeBf 65535 4294967295",
];

// Its bytes.
const SEED: [u8; 32] = [
    160, 161, 162, 163, 164, 165, 166, 167, 168, 169, 170, 171, 172, 173, 174, 175, 176, 177, 178,
    179, 180, 181, 182, 183, 184, 185, 186, 187, 188, 189, 190, 191,
];

// Lines of words that give no command, with the fault of each.
const FAULTS: [(&str, WordFault); 43] = [
    // no command
    ("", WordFault::NoCommand),
    ("find 1", WordFault::NoCommand),
    ("Serve 1 1 0 1 0", WordFault::NoCommand),
    ("serve1 1 0 1 0", WordFault::NoCommand),
    ("audit 1 1 0 file", WordFault::NoCommand),
    ("form2", WordFault::NoCommand),
    ("form2 0", WordFault::NoCommand),
    ("form2 counted", WordFault::NoCommand),
    ("form2 params 1 1 0", WordFault::NoCommand),
    ("counted", WordFault::NoCommand),
    ("counted counted params 1 1 1", WordFault::NoCommand),
    ("counted form2 0 params 1 1 1", WordFault::NoCommand),
    ("counted demo 7 4", WordFault::NoCommand),
    ("form2 0 demo 7 4", WordFault::NoCommand),
    ("form2 300 help", WordFault::NoCommand),
    ("counted help 1", WordFault::NoCommand),
    // another number of words
    ("serve 1 1 0", WordFault::Count { want: 5 }),
    ("serve 1 1 0 1 0 0", WordFault::Count { want: 5 }),
    ("replay 1 1 0 1 0", WordFault::Count { want: 3 }),
    ("form2 300 params 1 01", WordFault::Count { want: 3 }),
    ("ask 1 1 0 1 1", WordFault::Count { want: 6 }),
    ("open 1 1 0 x", WordFault::Count { want: 5 }),
    ("demo x", WordFault::Count { want: 2 }),
    ("help 1", WordFault::Count { want: 0 }),
    // a word that is not of its form
    ("serve 1 1 0 9 0", WordFault::Value { word: 4 }),
    ("serve 1 1 0 0 0", WordFault::Value { word: 4 }),
    ("serve 1 1 0 1 5", WordFault::Value { word: 5 }),
    ("serve 01 1 0 9 9", WordFault::Value { word: 1 }),
    ("serve +1 1 0 1 0", WordFault::Value { word: 1 }),
    ("serve 256 1 0 1 0", WordFault::Value { word: 1 }),
    ("serve 1 65536 0 1 0", WordFault::Value { word: 2 }),
    ("replay 1 1 ", WordFault::Value { word: 3 }),
    ("params 1 1x 0", WordFault::Value { word: 2 }),
    ("form2 300 params 1 1 0", WordFault::Value { word: 1 }),
    (
        "form2 00 counted params 999 1 0",
        WordFault::Value { word: 1 },
    ),
    (
        "form2 0 counted params 1 1 256",
        WordFault::Value { word: 6 },
    ),
    (
        "ask 1 1 0 000102030405060708090a0b0c0d0e0f101112131415161718191A1B1C1D1E1 1 1",
        WordFault::Value { word: 4 },
    ),
    (
        "ask 1 1 0 000102030405060708090a0b0c0d0e0f101112131415161718191A1B1C1D1E1g 1 1",
        WordFault::Value { word: 4 },
    ),
    (
        "ask 1 1 0 000102030405060708090a0b0c0d0e0f101112131415161718191A1B1C1D1E1F 65536 1",
        WordFault::Value { word: 5 },
    ),
    (
        "ask 1 1 0 000102030405060708090a0b0c0d0e0f101112131415161718191A1B1C1D1E1F 1 4294967296",
        WordFault::Value { word: 6 },
    ),
    (
        "open 1 1 0 000102030405060708090a0b0c0d0e0f101112131415161718191A1B1C1D1E1F ",
        WordFault::Value { word: 5 },
    ),
    ("demo 18446744073709551616 1", WordFault::Value { word: 1 }),
    ("demo 7 9", WordFault::Value { word: 2 }),
];

// The command of a line, whose words stand between single spaces.
fn read(alloc: Global, line: &str) -> Result<Command, WordFault> {
    let words = words_of(alloc, line)?;
    read_words(alloc, &words)
}

// The words of a line.
fn words_of(alloc: Global, line: &str) -> Result<Vec<String>, AllocError> {
    let mut words = Vec::new(alloc);
    for word in line.split(' ') {
        words.push(String::from_str(alloc, word)?)?;
    }
    Ok(words)
}

#[test]
fn faults(rt: HostRuntime) {
    for (line, fault) in FAULTS {
        assert!(rt; read(rt.alloc(), line).err() == Some(fault), "{line}");
    }
    assert!(rt; read_words(rt.alloc(), &[]).err() == Some(WordFault::NoCommand));
}

#[test]
fn commands(rt: HostRuntime) {
    let alloc = rt.alloc();
    assert!(rt;
        matches!(
            read(alloc, "serve 1 4 2 8 3"),
            Ok(Command::Serve {
                rows: 1,
                capacity: 4,
                units: 2,
                drop: None,
                counted: false,
                workers: 8,
                builders: 3
            })
        )
    );
    assert!(rt;
        matches!(
            read(alloc, "replay 0 65535 255"),
            Ok(Command::Replay {
                rows: 0,
                capacity: 65535,
                units: 255,
                drop: None,
                counted: false
            })
        )
    );
    assert!(rt;
        matches!(
            read(alloc, "form2 0 counted params 1 1 1"),
            Ok(Command::Params {
                rows: 1,
                capacity: 1,
                units: 1,
                drop: Some(0),
                counted: true
            })
        )
    );
    assert!(rt;
        matches!(
            read(alloc, "form2 255 params 1 2244 0"),
            Ok(Command::Params {
                rows: 1,
                capacity: 2244,
                units: 0,
                drop: Some(255),
                counted: false
            })
        )
    );
    assert!(rt;
        matches!(
            read(alloc, "demo 18446744073709551615 4"),
            Ok(Command::Demo {
                number: 18446744073709551615,
                workers: 4
            })
        )
    );
    assert!(rt; matches!(read(alloc, "help"), Ok(Command::Help)));
}

#[test]
fn seeds(rt: HostRuntime) {
    for line in ASKS {
        let Ok(
            Command::Ask {
                rows: 1,
                capacity: 8,
                units: 2,
                drop: None,
                counted: false,
                seed,
                session: 65535,
                number: 4294967295,
            },
        ) = read(rt.alloc(), line)
        else {
            panic!(rt; "{line}");
        };
        assert_eq!(rt; seed, SEED);
    }
}

#[test]
fn names(rt: HostRuntime) {
    let line =
        "counted open 4 1 0 a0a1a2a3a4a5a6a7a8a9aaabacadaeafb0b1b2b3b4b5b6b7b8b9babbbcbdbebf ../a.reply";
    let Ok(
        Command::Open {
            rows: 4,
            capacity: 1,
            units: 0,
            drop: None,
            counted: true,
            seed,
            file,
        },
    ) = read(rt.alloc(), line)
    else {
        panic!(rt; "{line}");
    };
    assert_eq!(rt; seed, SEED);
    assert_eq!(rt; file.text(), "../a.reply");
}

#[test]
fn status_lines(rt: HostRuntime) {
    let lines = [
        "",
        "",
        "psi: words not understood",
        "psi: parameters refused",
        "psi: bad input",
        "psi: read fault",
        "psi: write fault",
        "psi: no memory",
        "psi: items crowded",
        "",
    ];
    for (status, line) in lines.into_iter().enumerate() {
        assert_eq!(rt; status_line(status as u8), line);
    }
    assert_eq!(rt; status_line(255), "");
}

#[test]
fn help(rt: HostRuntime) {
    let lines = [
        "serve ROWS CAPACITY UNITS WORKERS BUILDERS\n",
        "replay ROWS CAPACITY UNITS\n",
        "params ROWS CAPACITY UNITS\n",
        "ask ROWS CAPACITY UNITS SEED SESSION NUMBER\n",
        "open ROWS CAPACITY UNITS SEED FILE\n",
        "demo NUMBER WORKERS\n",
        "help\n",
    ];
    let mut rest = help_text();
    for line in lines {
        let Some(behind) = rest.strip_prefix(line) else {
            panic!(rt; "{line}");
        };
        rest = behind;
    }
    assert_eq!(rt; rest, "");
}
