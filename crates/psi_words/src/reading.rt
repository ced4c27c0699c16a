//! Commands from words.
ghost use Rattle.std.specs.Prelude.{◌≡◌, ◌⊎◌, [], ◌∷◌, Ok, Err, IfOk, IfErr, map, string_bytes};
ghost use Rattle.psi_words.specs.Grammar.{HasLanes, KeepsName, ask_row, demo_row, help_row, judged, judged_value, lead_forms, open_row, params_row, replay_row, serve_row, sizes};
ghost use Rattle.psi_words.specs.Leads.{first_wrong_behind, judged_behind, judged_named, shown, sizes_of};
ghost use Rattle.psi_words.specs.declared.fault.WordFault.TheVariants.{NoMemory};

use crate::command::Command;
use crate::fault::WordFault;
use crate::forms::{read_file, read_number, read_seed};
use crate::lead::Lead;
use std::alloc::Global;

/// The command that words give, without the program's own name.
///
/// It fails with `NoCommand` exactly where there is no command word, it names no command, or it follows words that may
/// not stand before it; else with `Count` exactly where the number of words behind the command word is not the
/// command's; else with `Value` exactly where some word, DROP among them, is not of its form and range, with the number
/// of the first such word, counted from 0 over all words. It fails with `NoMemory` only where the words give a command
/// that keeps the name of a file. The workers of a command are 1 to 8, and its builders 0 to 4.
pub fn read_words(alloc: Global, words: &[String]) -> Result<Command, WordFault>
    ensures command { IfOk result (λ command. judged (map string_bytes words.now) ≡ Ok command) }
    ensures lanes { IfOk result HasLanes }
    ensures fault { IfErr result (λ fault. (judged (map string_bytes words.now) ≡ Err fault)
        ⊎ ((fault ≡ NoMemory) × KeepsName (judged (map string_bytes words.now)))) }
{
    let lead = Lead::of(words);
    match words[lead.len()..].split_first() {
        None => Err(WordFault::NoCommand),
        Some((word, behind)) => named(alloc, &lead, word.as_str(), behind),
    }
}

// The command of a command word, with the words before and behind it.
fn named(alloc: Global, lead: &Lead, word: &str, behind: &[String]) -> Result<Command, WordFault>
    ensures command { IfOk result (λ command. judged_named (shown lead.now) word.now
        (map string_bytes behind.now) ≡ Ok command) }
    ensures lanes { IfOk result HasLanes }
    ensures fault { IfErr result (λ fault. (judged_named (shown lead.now) word.now
        (map string_bytes behind.now) ≡ Err fault)
        ⊎ ((fault ≡ NoMemory) × KeepsName (judged_named (shown lead.now) word.now
        (map string_bytes behind.now)))) }
{
    match word {
        "serve" => serve(lead, behind),
        "replay" => replay(lead, behind),
        "params" => params(lead, behind),
        "ask" => ask(lead, behind),
        "open" => open(alloc, lead, behind),
        "demo" if lead.len() == 0 => demo(lead, behind),
        "help" if lead.len() == 0 => help(lead, behind),
        _ => Err(WordFault::NoCommand),
    }
}

// ROWS, CAPACITY and UNITS, with what stands before the command word.
#[derive(Clone, Copy)]
struct Sizes {
    rows: u8,
    capacity: u16,
    units: u8,
    drop: Option<u8>,
    counted: bool,
}

// The values of DROP and of the first three words behind the command word.
fn read_sizes(lead: &Lead, rows: &str, capacity: &str, units: &str) -> Result<Sizes, WordFault>
    ensures { result ≡ judged_value (first_wrong_behind sizes (shown lead.now)
        (rows.now ∷ capacity.now ∷ units.now ∷ []))
        (sizes_of (shown lead.now) rows.now capacity.now units.now) }
{
    Ok(Sizes {
        drop: lead.drop_value()?,
        counted: lead.counted,
        rows: read_number(rows, lead.number(0), 0, 255)? as u8,
        capacity: read_number(capacity, lead.number(1), 0, 65535)? as u16,
        units: read_number(units, lead.number(2), 0, 255)? as u8,
    })
}

// The command `serve` with the words behind it.
fn serve(lead: &Lead, behind: &[String]) -> Result<Command, WordFault>
    ensures judged { result ≡ judged_behind serve_row (shown lead.now)
        (map string_bytes behind.now) }
    ensures lanes { IfOk result HasLanes }
{
    let [rows, capacity, units, workers, builders] = behind else {
        return Err(WordFault::Count { want: 5 });
    };
    let sizes = read_sizes(lead, rows, capacity, units)?;
    let workers = read_number(workers, lead.number(3), 1, 8)? as u8;
    let builders = read_number(builders, lead.number(4), 0, 4)? as u8;
    Ok(Command::Serve {
        rows: sizes.rows,
        capacity: sizes.capacity,
        units: sizes.units,
        drop: sizes.drop,
        counted: sizes.counted,
        workers,
        builders,
    })
}

// The command `replay` with the words behind it.
fn replay(lead: &Lead, behind: &[String]) -> Result<Command, WordFault>
    ensures judged { result ≡ judged_behind replay_row (shown lead.now)
        (map string_bytes behind.now) }
    ensures lanes { IfOk result HasLanes }
{
    let [rows, capacity, units] = behind else {
        return Err(WordFault::Count { want: 3 });
    };
    let sizes = read_sizes(lead, rows, capacity, units)?;
    Ok(Command::Replay {
        rows: sizes.rows,
        capacity: sizes.capacity,
        units: sizes.units,
        drop: sizes.drop,
        counted: sizes.counted,
    })
}

// The command `params` with the words behind it.
fn params(lead: &Lead, behind: &[String]) -> Result<Command, WordFault>
    ensures judged { result ≡ judged_behind params_row (shown lead.now)
        (map string_bytes behind.now) }
    ensures lanes { IfOk result HasLanes }
{
    let [rows, capacity, units] = behind else {
        return Err(WordFault::Count { want: 3 });
    };
    let sizes = read_sizes(lead, rows, capacity, units)?;
    Ok(Command::Params {
        rows: sizes.rows,
        capacity: sizes.capacity,
        units: sizes.units,
        drop: sizes.drop,
        counted: sizes.counted,
    })
}

// The command `ask` with the words behind it.
fn ask(lead: &Lead, behind: &[String]) -> Result<Command, WordFault>
    ensures judged { result ≡ judged_behind ask_row (shown lead.now)
        (map string_bytes behind.now) }
    ensures lanes { IfOk result HasLanes }
{
    let [rows, capacity, units, seed, session, number] = behind else {
        return Err(WordFault::Count { want: 6 });
    };
    let sizes = read_sizes(lead, rows, capacity, units)?;
    let seed = read_seed(seed, lead.number(3))?;
    let session = read_number(session, lead.number(4), 0, 65535)? as u16;
    let number = read_number(number, lead.number(5), 0, 4294967295)? as u32;
    Ok(Command::Ask {
        rows: sizes.rows,
        capacity: sizes.capacity,
        units: sizes.units,
        drop: sizes.drop,
        counted: sizes.counted,
        seed,
        session,
        number,
    })
}

// The command `open` with the words behind it.
fn open(alloc: Global, lead: &Lead, behind: &[String]) -> Result<Command, WordFault>
    ensures command { IfOk result (λ command. judged_behind open_row (shown lead.now)
        (map string_bytes behind.now) ≡ Ok command) }
    ensures lanes { IfOk result HasLanes }
    ensures fault { IfErr result (λ fault. (judged_behind open_row (shown lead.now)
        (map string_bytes behind.now) ≡ Err fault)
        ⊎ ((fault ≡ NoMemory) × KeepsName (judged_behind open_row (shown lead.now)
        (map string_bytes behind.now)))) }
{
    let [rows, capacity, units, seed, file] = behind else {
        return Err(WordFault::Count { want: 5 });
    };
    let sizes = read_sizes(lead, rows, capacity, units)?;
    let seed = read_seed(seed, lead.number(3))?;
    let file = read_file(alloc, file, lead.number(4))?;
    Ok(Command::Open {
        rows: sizes.rows,
        capacity: sizes.capacity,
        units: sizes.units,
        drop: sizes.drop,
        counted: sizes.counted,
        seed,
        file,
    })
}

// The command `demo` with the words behind it. No words stand before it.
fn demo(lead: &Lead, behind: &[String]) -> Result<Command, WordFault>
    requires { lead_forms (shown lead.now) ≡ [] }
    ensures judged { result ≡ judged_behind demo_row (shown lead.now)
        (map string_bytes behind.now) }
    ensures lanes { IfOk result HasLanes }
{
    let [number, workers] = behind else {
        return Err(WordFault::Count { want: 2 });
    };
    let number = read_number(number, lead.number(0), 0, u64::MAX)?;
    let workers = read_number(workers, lead.number(1), 1, 8)? as u8;
    Ok(Command::Demo { number, workers })
}

// The command `help` with the words behind it. No words stand before it.
fn help(lead: &Lead, behind: &[String]) -> Result<Command, WordFault>
    requires { lead_forms (shown lead.now) ≡ [] }
    ensures judged { result ≡ judged_behind help_row (shown lead.now)
        (map string_bytes behind.now) }
    ensures lanes { IfOk result HasLanes }
{
    if behind.is_empty() {
        Ok(Command::Help)
    } else {
        Err(WordFault::Count { want: 0 })
    }
}
